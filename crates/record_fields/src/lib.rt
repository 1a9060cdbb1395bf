//! The fields and lists of a season's records and commands, written as bytes and read from them: those of records in one,
//! two, four or eight bytes, the whole numbers of commands in eight. What appends gives an error where memory ran out, and
//! it is not said how much was appended then.
#![tactic(auto)]

mod fields;
mod ids;
mod lists;
mod read_fields;
mod read_lists;
mod reading;
mod unread;

pub use fields::{
    append_long_text, append_short_text, append_u8, append_u16, append_u32, append_u64, chip_byte,
    flag_byte, gameweek_byte, kind_byte, position_byte, profile_byte,
};
pub use ids::{club_id, cup_id, entry_id, fixture_id, gameweek_of, league_id, player_id};
pub use lists::{
    append_clubs, append_coins, append_figures, append_line, append_moments, append_order,
    append_picks, append_rows, append_slots, append_swaps, append_whole_coins,
    append_whole_entries, append_whole_players, append_whole_slots,
};
pub use reading::Reading;
pub use unread::Unread;
