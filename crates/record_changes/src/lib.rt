//! What the rows of a host tell of each record, which records a command touches, and the batch of changes that is committed of
//! them, over a running season.
#![tactic(auto)]

mod batches;
mod changes;
mod competitions;
mod entries;
mod facts;
mod listing;
mod parts;
mod rows;
mod seeking;
mod touching;

pub use batches::batch_of;
pub use rows::{rows_in_order_stand, rows_tell_records};
pub use touching::{touched, touched_first};
