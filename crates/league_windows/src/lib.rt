//! What windows show of leagues, cups and transfers: the standings of each kind, the matches of a head-to-head league, a cup
//! with its rounds and ties, and the transfers of an entry.
#![tactic(auto)]

mod classic;
mod cup_window;
mod head;
mod head_matches;
mod names;
mod pages;
mod places;
mod scores;
mod shown;
mod sides;
mod ties;
mod transfers;
mod transfers_window;

pub use classic::{last_ranks as classic_last_ranks, write_classic_standings};
pub use cup_window::write_cup_window;
pub use head::{last_ranks as head_last_ranks, write_head_standings};
pub use head_matches::write_head_matches;
pub use names::name_text;
pub use pages::{bound_told, scoring_of};
pub use places::rank_of;
pub use scores::{last_gameweek, score};
pub use transfers_window::write_transfers;
