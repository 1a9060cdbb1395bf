//! A season as its records tell it: the facts, the entries, the leagues and cups, and the last commands of each caller, made
//! from lawful records.
#![tactic(auto)]

mod books;
mod cups;
mod entry_sales;
mod entry_teams;
mod fact_parts;
mod last_commands;
mod league_members;
mod league_parts;
mod leagues;
mod managers;
mod restoring;

pub use books::{Restored, books_of};
pub use cups::cups_of;
pub use last_commands::lasts_of;
pub use leagues::leagues_of;
pub use managers::managers_of;
pub use restoring::facts_of;
