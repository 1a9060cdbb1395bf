//! What the records of a store tell of a season and its entries, and the rules on the season's own records: the season,
//! clubs, players, fixtures and lines. Each record is read once, when the store is opened; a record that is not spelled as
//! it has to be tells nothing.
#![tactic(auto)]

mod entry_told;
mod kept;
mod season_rules;
mod sequels;
mod stored;
mod terms;

pub use entry_told::{
    RecordedTeam, chip_in, chip_of, first_of, has_team, is_first, is_in_time, numbers_of, sale,
    sale_of, team_of,
};
pub use kept::{Kept, Told, Transfer};
pub use season_rules::{
    club_breaks, fixture_breaks, is_full, line_breaks, misses, player_breaks, season_breaks,
};
pub use sequels::goes_on;
pub use stored::Stored;
pub use terms::{Terms, has_gameweek, terms_of};
