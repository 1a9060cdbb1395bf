use fpl_base::{CupId, EntryId, LeagueId};

/// What an accepted command made, beside what it changed.
#[derive(Clone, Copy, Debug, PartialEq, Eq)]
pub enum Made {
    Nothing,
    Entry(EntryId),
    League(LeagueId),
    Cup(CupId),
}
