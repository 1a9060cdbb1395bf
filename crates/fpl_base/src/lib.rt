//! The types that every crate of the season host shares, and the traits of what is outside of it.
#![tactic(auto)]

mod amounts;
mod ids;
mod kinds;
mod list;
mod memory;
mod number;
mod outside;
mod quiet;
mod read_count;
mod real;
mod records;
mod rule;
mod text;

pub use amounts::{Gw, Moment, Tenths};
pub use ids::{ClubId, CupId, EntryId, FixtureId, LeagueId, PlayerId};
pub use kinds::{Caller, Chip, Position, Profile};
pub use list::ListOf;
pub use memory::{Memory, Refused};
pub use number::read_number;
pub use outside::{Clock, Doors, Failed, Keeper, KeeperFault, Shelf, ShelfFault, Sink, Source};
pub use quiet::Quiet;
pub use read_count::ReadCount;
pub use real::{Reading, SystemClock, Writing};
pub use records::{Bytes, Op, RecordKey};
pub use rule::Rule;
pub use text::{Code, Key, Name, Text};
