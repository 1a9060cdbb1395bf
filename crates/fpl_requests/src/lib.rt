//! What a message orders: the routes, by which each method and target asks something of the host of somebody, and the bodies,
//! the members of each command in their order, and the first that is wrong.
#![tactic(auto)]

mod commands;
mod field;
mod laws;
mod lists;
mod members;
mod requests;
mod route;
mod routes;

pub use field::{FieldName, ReadFault};
pub use json_tree::Scratch;
pub use laws::targets_ask_one_thing;
pub use requests::read_request;
pub use route::{Asks, Callers, CommandRoute, Found, Route, ViewRoute};
pub use routes::Routes;
