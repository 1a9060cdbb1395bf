//! The keeper over the file of a path that the program uses where a store is given.
#![tactic(auto)]

mod cause;
mod keeper;
mod opening;
mod stored;

pub use cause::Cause;
pub use keeper::{FileKeeper, file_at, with_file, with_file_behind};
pub use opening::StoreFiles;
pub use stored::StoredFile;
