/// Whom a member of a head-to-head league meets in a round: the member at a place, counted from 0 in the order of the
/// draw, or the Average of the league.
#[derive(Clone, Copy, Debug, PartialEq, Eq)]
pub enum Opponent {
    Place(usize),
    Average,
}
