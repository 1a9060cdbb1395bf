//! What views show of a season.
#![tactic(auto)]

mod classic;
mod cups;
mod entries;
mod head;
mod leagues;
mod moments;
mod names;
mod reading;
mod seen;
mod sheets;
mod views;

pub use classic::{classic_row, classic_rows};
pub use cups::{cup, is_played, shown_cup, ties, winners_held};
pub use entries::{entry_gameweek, gameweek_of, issued, my_entry};
pub use head::head_rows;
pub use leagues::league;
pub use moments::write_moment;
pub use names::name_of;
pub use reading::{
    bonuses_held, gameweek_held, head_held, line_held, score_held, tie_held, total_held,
};
pub use seen::{Seen, SeenCells, SeenEntry};
pub use sheets::{line_shown, lines_shown};
pub use views::{deadline_at, locked_gameweek, show};
