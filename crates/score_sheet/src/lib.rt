//! One match as rows of comma-separated values, and what its players score: the bytes of a file or of the standard
//! input in, and the text for them out (docs/FORMATS.md).
#![tactic(auto)]

mod laws;
mod row;
mod rows;
mod scores;
mod sheet;

pub use laws::input_scores_once;
pub use sheet::{SheetFault, score_sheet};
