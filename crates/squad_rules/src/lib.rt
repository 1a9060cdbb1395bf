//! Which squads and lineups are legal, what a chip allows, and the team of the week, which is the legal eleven with the most
//! points (docs/RULES.md, "Squads", "Lineups", "Chips" and "Team of the week").
#![tactic(auto)]

mod chips;
mod counts;
mod dream;
mod formations;
mod lineup;
mod pools;
mod squad;

pub use chips::{can_cancel, half_of, is_free_hit, is_same_chip, makes_free, transfer_limit};
pub use dream::{Dream, dream_team};
pub use lineup::{check_lineup, enough_is_formation, formation_ok};
pub use rule_book::{Pick, Team};
pub use squad::{check_squad, first_repeat, has_squad_shape, players_of, positions_of};
