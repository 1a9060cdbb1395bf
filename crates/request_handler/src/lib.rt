//! What each message asks of the host, and the reply: what it may be, as definitions with their laws (a message asks one
//! thing, commands act once, no reply hangs on what another manager did in an open gameweek, and over a lawful book none is
//! 500), and the handler that makes it.
#![tactic(auto)]

mod handler;
mod laws;
mod reply_laws;
mod standing;

pub use handler::{HostWithScratch, RequestHandler, opened};
pub use laws::{looks_read_few, sessions_answer};
pub use reply_laws::{
    Wholeness, faults_never_fall, messages_act_once, messages_are_isolated, messages_ask_one_thing,
    replies_are_whole,
};
pub use standing::{ByRecords, ByRows, ByStops, ReadsFirst, RowsFirst, StopsFirst};
