//! Keepers of records: one in memory, which the program uses where no store is given, and one over the store of a path, which
//! is opened again behind a call that failed, over any opening of any stores.
#![tactic(auto)]

mod at_path;
mod in_memory;
mod opened;
mod opening;
mod over;
mod tree;

pub use at_path::PathKeeper;
pub use in_memory::TreeKeeper;
pub use opened::Opened;
pub use opening::Opening;
pub use over::{AtPath, WithKeeper, work_over};
