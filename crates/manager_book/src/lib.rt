//! The entries of a season: their keys and names, and each one's squads, transfers, money and chips.
#![tactic(auto)]

mod batch;
mod book;
mod chips;
mod deed;
mod entry_sales;
mod keep;
mod laws;
mod lineup;
mod manager;
mod register;

pub use batch::judge_transfers;
pub use book::ManagerBook;
pub use chips::{judge_cancel, judge_chip};
pub use deed::JudgedDeed;
pub use entry_sales::EntrySales;
pub use laws::rows_refuse_alike;
pub use lineup::judge_lineup;
pub use manager::Manager;
pub use player_market::Sales;
pub use register::judge_squad;
pub use rule_book::{Pick, Sale, Swap, Team};
