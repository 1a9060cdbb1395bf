//! What windows show of an entry, in the shapes of the public game: its gameweeks, its points, its ranks and the leagues that
//! it is in.
#![tactic(auto)]

mod entry_writing;
mod event_ranks;
mod history;
mod laws;
mod leagues;
mod picks;
mod ranks;
mod rows;
mod shapes;
mod summary;
mod window;
mod writing;

pub use history::write_history;
pub use laws::{multipliers_add_up, totals_add_up};
pub use picks::write_picks;
pub use ranks::race;
pub use rows::played;
pub use shapes::{Course, Played, Race};
pub use window::write_entry;
