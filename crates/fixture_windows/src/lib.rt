//! Windows on matches: the fixtures of a season, and what one player has before and behind him.
#![tactic(auto)]

mod appeared;
mod element_summary;
mod fixtures;
mod matches;
mod order;
mod score;
mod sides;
mod told;

pub use element_summary::write_element_summary;
pub use fixtures::write_fixtures;
