//! One entry's season: a row for each gameweek in which something was done, and what the rows tell of every history
//! that they stand for.
#![tactic(auto)]

mod entry;
mod row;
mod rows;
mod transfers;

pub use entry::{Entry, rows_tell};
pub use row::{Row, Standing};
