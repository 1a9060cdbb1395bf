//! How the nodes of a season are computed: the rules by which cells of them are evaluated. The inputs and the dependents of
//! a node come from the books, but for the entries that hold a player, which the index tells.
#![tactic(auto)]

mod heads;
mod rounds;
mod rules;
mod teams;
mod ties;
mod totals;
mod winners;
mod worth;

pub use rules::{SeasonCells, SeasonRules};
pub use winners::winner_in;
pub use worth::{bonus_among, figures_in, worth_in};
