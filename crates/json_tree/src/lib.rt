//! JSON texts as trees that borrow their strings: `serde_json`'s reading of a text, as places in the flat list of its
//! nodes, with no value of its own for each string, list or object.
#![tactic(auto)]

mod number;
mod parser;
mod tree;

pub use json::Scratch;
pub use parser::{ParseFault, Parsed, parse};
pub use tree::{Items, Tree};
