//! Forms of what is outside: over memory, ones that fail at calls that are listed, and ones that have nothing.
#![tactic(auto)]

mod forms;
mod kept;
mod rows;

pub use forms::{FaultySink, FaultySource, MemoryClock, MemorySource, Plan};
pub use kept::{FaultyKeeper, MemoryKeeper};
