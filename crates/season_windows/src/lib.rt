//! What windows show: a season in the shapes of the public game, one JSON value each.
#![tactic(auto)]

mod windows;

pub use windows::{window, window_before};
