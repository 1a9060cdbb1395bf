//! The records of a season's book and the commands in them, as bytes, and which of them a request touches: what it touched, as
//! the book behind it tells it, leads a keeper from the records of the book before to those of the book behind, and books with
//! the same records have the same of all but the managers' histories. What a command does not touch is told as before, and
//! what is read of records is in range.
#![tactic(auto)]

mod bodies;
mod codec_laws;
mod commands;
mod decoding;
mod item;
mod laws;
mod orderable;
mod ranges;
mod read_commands;
mod read_items;
mod records;
mod slot;
mod writing;

pub use codec_laws::{commands_have_their_bytes, keys_are_of_slots, records_have_one_spelling};
pub use decoding::decode;
pub use item::Item;
pub use laws::{
    books_are_early, books_are_in_order, commands_keep_records, commits_hold_one,
    locks_keep_records, records_tell_books, slots_tell_of_themselves, verdicts_keep_records,
};
pub use ranges::{items_stay, restored_items, slots_tell_items, untouched_stay};
pub use records::{keeps_bytes, restores_items};
pub use slot::Slot;
pub use writing::{encode, encode_last, encode_player};
