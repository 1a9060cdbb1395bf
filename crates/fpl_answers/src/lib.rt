//! What answers say: the status of each, and its body as JSON without spaces whose members stand in the ascending order
//! of their names' bytes.
#![tactic(auto)]

mod answers;
mod entries;
mod fixture;
mod kinds;
mod leagues;
mod members;
mod rules;
mod texts;
mod views;

pub use answers::answer_text;
pub use texts::{caller_text, key_text, malformed_text, method_text, unknown_text};
