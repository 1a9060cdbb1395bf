use manager_book::JudgedDeed;

/// What judging a command worked out, by the part of the season that it is about, for `RunningSeason::change`: of a
/// manager's command what that comes to.
#[derive(Debug, Drop)]
pub enum Judged {
    Facts,
    Players,
    Entries,
    Keys,
    Deed(JudgedDeed),
    Leagues,
    Cups,
}
