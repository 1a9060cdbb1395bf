//! Season files as the commands that load them, and what views show as rows of comma-separated values.
#![tactic(auto)]

mod deadlines;
mod entry_report;
mod fields;
mod files;
mod folder;
mod laws;
mod lines;
mod orders;
mod report;
mod rows;
mod season_report;
mod tables;

pub use folder::{FileFault, season_files};
pub use laws::season_files_say_once;
pub use report::report_text;
pub use rows::RowFault;
