//! The command that loads a season: three files of a folder as the commands that they order, and these asked of a host, one
//! after another.
#![tactic(auto)]

mod adding;
mod faults;
mod files;
mod loading;
mod more;
mod notes;
mod standing;

pub use faults::unloaded;
pub use files::{LoadFault, ordered_by};
pub use loading::loaded;
pub use more::{loaded_by, loaded_more};
pub use notes::{LoadEnd, Note, Place};
