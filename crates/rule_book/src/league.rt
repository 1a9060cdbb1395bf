/// How a league is decided: by total points, or by matches of two.
#[derive(Clone, Copy, Debug, PartialEq, Eq)]
pub enum LeagueKind {
    Classic,
    Head,
}
