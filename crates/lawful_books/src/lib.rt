//! Lawful books: laws on the definitions of `season_book` and `store_validation`. Every book of a run is lawful: its facts,
//! its leagues, the history of each entry, and the teams that they tell. Of a lawful book no record is one that a host, which
//! is made anew of them, would find damaged.
#![tactic(auto)]

mod books;
mod facts;
mod histories;
mod leagues;
mod teams;

pub use books::{books_are_lawful, lawful_books_are_judged, lawful_books_are_whole};
pub use facts::{facts_break_no_rule, facts_stay_lawful, few_records_stand, records_are_told};
pub use histories::{histories_stay_lawful, lawful_histories_break_no_rule};
pub use leagues::{
    books_keep_leagues, entries_are_issued_rightly, keys_change_hands, leagues_break_no_rule,
};
pub use teams::{teams_have_shape, told_teams_are_lawful};
