//! The books that a keeper's records tell: its records are loaded and judged, and the season is made of those that are
//! lawful; and laws on the books that can be made anew in this way.
#![tactic(auto)]

mod laws;
mod loading;

pub use laws::{empty_book_is_keepable, loaded_rows_stand};
pub use loading::{OpenFault, loaded};
