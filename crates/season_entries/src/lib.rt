//! The commands of managers: what refuses each, and what each changes.
#![tactic(auto)]

mod deeds;
mod judge;
mod keys;
mod laws;
mod players;
mod there;

pub use deeds::do_deed;
pub use judge::judge_deed;
pub use keys::{do_key, do_rekey, judge_key, judge_rekey};
pub use laws::{
    earlier_rows_tell, early_is_in_time, entries_are_issued, entries_are_known,
    facts_leave_entries, moments_leave_entries, owners_are_alike, rows_count_sales,
};
pub use players::{amendments_leave_entries, judge_amend};
