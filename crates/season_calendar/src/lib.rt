//! The calendar of a season: its deadlines and locks, where its fixtures stand, and moments as text.
#![tactic(auto)]

mod gameweek_lists;
mod instant;
mod season;

pub use instant::{instant_text, read_instant};
pub use rule_book::Fixture;
pub use season::Calendar;
