//! The records of a store, judged: which of them are lawful.
#![tactic(auto)]

mod entry_rules;
mod judging;
mod laws;
mod league_rules;
mod team_rules;
mod transfer_rules;

pub use judging::judge;
pub use laws::{judged_entries_are_restored, lawful_entries_are_restored};
