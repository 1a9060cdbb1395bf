//! What a command of the program asks of a host in its own process, without HTTP: one request at a time. Its report, and
//! how it ends.
#![tactic(auto)]

mod asking;
mod printing;
mod report;
mod row_faults;
pub mod status;

pub use asking::{ask, ask_at};
pub use printing::{halted, print};
pub use report::reported;
pub use row_faults::{refused_row, row_line, unread_rows};
