//! The host of a season over its keeper: it judges what is asked, does it, commits what that changed and answers.
#![tactic(auto)]

mod host;
mod laws;

pub use host::Host;
pub use laws::stops_restart;
