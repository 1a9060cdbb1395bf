//! The commands on leagues and cups: what refuses each, and what each changes.
#![tactic(auto)]

mod cups;
mod known;
mod laws;
mod leagues;

pub use cups::{do_cup, judge_cup};
pub use laws::members_stay;
pub use leagues::{do_league, judge_league};
