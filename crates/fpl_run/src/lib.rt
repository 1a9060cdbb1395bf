//! What the words of the program order, over everything outside of it of any kind: `run`; `pipe` and `serve`, which run
//! sessions of the season's host; and what is asked of that host in this process, without a session.
#![tactic(auto)]

mod draft_request;
mod drafts;
mod events;
mod here;
mod input;
mod laws;
mod load_request;
mod loads;
mod opening;
pub mod pipe;
mod requests;
pub mod run;
mod score;
pub mod serve;
mod serving_laws;
mod talk;

pub use here::run_here;
pub use laws::one_score_is_due;
pub use opening::unopened;
pub use serving_laws::{RepliesKept, RepliesUntil, lawful_runs_are_whole, runs_act_once};
