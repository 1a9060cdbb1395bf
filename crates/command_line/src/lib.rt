//! The words of the command line: which command they order, with the values of its options.
#![tactic(auto)]

mod laws;
mod options;
mod orders;
mod values;
mod words;

pub use laws::lines_order_what_they_say;
pub use orders::words_of;
pub use words::{What, WordFault, Words};
