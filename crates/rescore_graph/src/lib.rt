//! Cells that are kept equal to what rules say of them. Each node of the rules has a value, which is a function of the
//! values of its inputs. A change marks the nodes that it touches, and settling evaluates what depends on these, and
//! nothing else.
#![tactic(auto)]

mod cells;
mod laws;
mod levels;
mod nodes;
mod rules;
mod settle;

pub use cells::{Cells, Slot};
pub use laws::{replay_is_one, replay_is_own};
pub use nodes::Nodes;
pub use rules::Rules;
pub use settle::Report;
