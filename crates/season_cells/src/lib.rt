//! The cells of a running season: made anew of it, and kept equal to what the rule book tells of it while commands and
//! locks change it. What a command changes of them is told before it is done (`planned`).
#![tactic(auto)]

mod kept;
mod laws;
mod plan;
mod sheets;

pub use kept::KeptCells;
pub use laws::plans_lead;
pub use plan::{Plan, planned};
