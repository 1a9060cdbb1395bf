//! What the page of a season begins with: the positions, the players, the gameweeks and the clubs.
#![tactic(auto)]

mod bootstrap;
mod decimals;
mod element_types;
mod elements;
mod events;
mod holders;
mod scores;
mod table;
mod teams;
mod totals;

pub use bootstrap::write_bootstrap;
pub use decimals::decimal_text;
