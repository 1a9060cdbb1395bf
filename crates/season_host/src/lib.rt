//! What a host keeps in memory: it judges what is asked by that alone, does it and answers; and its cells, which follow.
#![tactic(auto)]

mod accepting;
mod change;
mod following;
mod house;

pub use following::{Passed, Settled, answer_command, cells_of, pass};
pub use house::House;
