//! A keeper of the season's records over two tables of a SQL database.
#![tactic(auto)]

mod batch;
mod pairs;
mod sql_keeper;
mod store;

pub use sql_keeper::SqlKeeper;
