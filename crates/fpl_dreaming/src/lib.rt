//! The team of the week of a gameweek, asked of a host: which of its players played there, and what is written of the best
//! of them.
#![tactic(auto)]

mod dreaming;
mod rows;
mod text;

pub use dreaming::dreamed;
