//! A season that runs, with its entries, leagues and cups, and each caller's last command: what is kept of a book, the
//! judgement of a command on it, and the change that a command makes.
#![tactic(auto)]

mod accepting;
mod judged;
mod lasts;
mod laws;
mod running;

pub use accepting::{begun, change, keep};
pub use judged::Judged;
pub use lasts::{LastCommand, Lasts};
pub use laws::{batches_move_money, moments_keep_entries, money_is_recorded, rows_tell_histories};
pub use running::RunningSeason;
