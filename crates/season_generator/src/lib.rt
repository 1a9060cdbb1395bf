//! The made-up season of a seed: the commands that make it, step by step, and what asks them of a host, one after another, and
//! writes a summary.
#![tactic(auto)]

mod commands;
mod draws;
mod forms;
mod generating;
mod made;
mod places;
mod playing;
mod sheets;
mod squads;
mod table;

pub use generating::generated;
pub use made::{MadeUpSeason, STEPS, Step};
