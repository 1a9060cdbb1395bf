//! The facts of a season: what the operator handed in, the commands that change it, and what is read of it.
#![tactic(auto)]

mod begin;
mod calendar_commands;
mod commands;
mod judge;
mod laws;
mod match_commands;
mod parts;
mod player_commands;
mod reads;
mod season;
mod there;

pub use season::Season;
