//! Draft leagues (docs/RULES.md, "Draft leagues"): members pick players in turns until each has fifteen, bid for free
//! ones, and waivers settle the bids of a gameweek. A player has at most one owner.
#![tactic(auto)]

mod draft;
mod holdings;
mod kinds;
mod rule;
mod settling;

pub use draft::Draft;
pub use kinds::{Bid, End, Holding, Outcome};
pub use rule::{DraftRefused, DraftRule};
