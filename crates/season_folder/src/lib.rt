//! Shelves: what holds files, over memory and over the disk of this machine.
#![tactic(auto)]

mod asked;
mod disk;
mod memory;

pub use asked::AskedShelf;
pub use disk::Disk;
pub use memory::{FaultyShelf, MemoryShelf};

/// How many bytes a file has at most.
pub(crate) const LONGEST: usize = 4_194_304;
