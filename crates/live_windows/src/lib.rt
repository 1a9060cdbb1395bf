//! What windows show of a gameweek: the team of the week, what each player did, and what his points are made of.
#![tactic(auto)]

mod dream;
mod gathering;
mod items;
mod live;
mod players;
mod rows;
mod sums;
mod team;

pub use dream::write_dream_team;
pub use live::{points_are_explained, write_live};
pub use rows::{has_gameweek, rows_of};
pub use team::team_of;
