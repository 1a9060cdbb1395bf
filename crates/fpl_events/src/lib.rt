//! The command that plays a match by its events: rows of comma-separated values that insert and remove events, and the lines
//! that changed, asked of a host as the operator's next commands.
#![tactic(auto)]

mod playing;
mod row;
mod rows;
mod sending;
mod sheet;
mod telling;

pub use playing::played;
pub use row::EventRow;
pub use sheet::event_rows;
