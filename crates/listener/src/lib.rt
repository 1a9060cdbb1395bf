//! Doors: what takes connections, over memory and over a port of this machine, one client after another or many at once. Of many,
//! each message that stands whole is a connection of its own to who asks for the next one.
//! The pages of a folder are answered here: which files are pages, and the bytes that answer a message that asks for one.
#![tactic(auto)]

mod client;
mod ends;
mod gathering;
mod hall;
mod kinds;
mod listening;
mod memory;
mod pages;
mod replies;
mod shown;

pub use ends::{Asked, Told};
pub use gathering::Gathering;
pub use kinds::Kind;
pub use listening::{Hearing, Listening, Telling};
pub use memory::{FaultyDoors, MemoryDoors, MemorySink};
pub use pages::{Page, Pages, Unfit};

#[cfg(test)]
mod tests;
