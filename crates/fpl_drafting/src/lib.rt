//! The command for draft leagues: rows of comma-separated values, picks, bids and waivers, done one after another with the
//! positions that a host answers, and what is told of the league behind them.
#![tactic(auto)]

mod drafting;
mod row;
mod rows;
mod steps;
mod tabling;
mod telling;
mod texts;
mod totals;

pub use drafting::drafted;
pub use row::DraftRow;
pub use rows::draft_rows;
pub use texts::{outcomes_text, picks_text};
pub use totals::{Told, questions_of, table_of};
