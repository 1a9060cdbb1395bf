//! The messages of a byte stream as HTTP/1.1, however it is cut, the bytes of a response, and a session: the messages of a
//! source, answered one after another into a sink, over any service.
#![tactic(auto)]

mod batch;
mod buffer;
mod converse;
mod decoder;
mod ending;
mod exchange;
mod fields;
mod framing;
mod head;
mod laws;
mod length;
mod lines;
mod opening;
mod outbox;
mod piece;
mod places;
mod responses;
mod service;
mod session_laws;
mod turn;

pub use decoder::{Decoder, Message, Next};
pub use ending::Ending;
pub use framing::{Framed, front_of};
pub use laws::{fronts_stay, two_readings_are_one};
pub use opening::session;
pub use places::Buffers;
pub use responses::{Reply, append_response, memory_response};
pub use service::Service;
pub use session_laws::{
    Answering, Standing, Staying, sessions_lift, sessions_split, sessions_stay,
};
