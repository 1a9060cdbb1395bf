//! The facts of the matches: each player's figures in each fixture, and which fixtures are finished.
#![tactic(auto)]

mod columns;
mod facts;
mod judge;
mod laws;
mod marks;
mod ranges;
mod reads;
mod sheet;
mod sheets;
mod table;

pub use facts::MatchFacts;
pub use judge::{judge_lock, judge_sheet};
pub use laws::facts_are_maps;
pub use ranges::line_ok;
pub use rule_book::Line;
