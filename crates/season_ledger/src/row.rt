use fpl_base::Gw;
use rule_book::Team;

/// What stands in a gameweek: the team, and how many transfers were made in it.
#[derive(Clone, Copy, Debug, PartialEq, Eq)]
pub struct Standing {
    pub made: u16,
    pub team: Team,
}

/// What a gameweek has in which something was done.
#[derive(Clone, Copy, Debug, PartialEq, Eq)]
pub struct Row {
    pub gw: Gw,
    pub standing: Standing,
}
