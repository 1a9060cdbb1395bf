//! A match by its events: a list into which one event is inserted or from which one is taken, the line of each player by
//! these events, and whose line changed since that was asked last (docs/RULES.md, "A match by its events").
#![tactic(auto)]

mod changes;
mod conceding;
mod event;
mod judge;
mod line;
mod places;
mod refusal;
mod sheet;

pub use event::{Event, EventKind, Side};
pub use refusal::{EventRefused, EventRule};
pub use sheet::MatchEvents;
