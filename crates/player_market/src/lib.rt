//! The players of a season with their prices, and batches of transfers at these prices. Transfers take no memory.
#![tactic(auto)]

mod batch;
mod clubs;
mod judge;
mod players;
mod prices;
mod sales;
mod trade;

pub use batch::apply;
pub use players::{Players, is_price, judge_price};
pub use prices::selling_price;
pub use rule_book::{Player, Sale, Swap};
pub use sales::Sales;
