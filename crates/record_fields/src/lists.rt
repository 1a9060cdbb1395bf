// Lists of records and commands, appended to bytes.
ghost use Rattle.std.specs.Prelude.{◌≡◌, ◌++◌, OnOk, flat_map};
ghost use Rattle.std.specs.Int.{w16, w32, w64};
ghost use Rattle.std.specs.List.{AllByRecursion};
ghost use Rattle.record_fields.specs.Fields.{whole, byte, number};
ghost use Rattle.record_fields.specs.Lists.{club_bytes, line_bytes, row_bytes, swap_bytes, pick_bytes};
ghost use Rattle.record_fields.specs.Ranges.{IsBelow32, IsByte, IsClubNamed, IsCoinNumber, IsFigure, IsId, IsMoment, IsPick, IsPlayer, IsRow, IsSlotNumber, IsSwap, IsWide};

use crate::fields::{append_long_text, append_u8, append_u16, append_u32, append_u64};
use fpl_base::{ClubId, EntryId, Memory, Moment, Name, PlayerId};
use rule_book::{Line, Swap};

/// Appends moments, in seconds since 1970, of eight bytes each.
pub fn append_moments(bytes: &mut Vec<u8>, moments: &[Moment]) -> Result<(), Memory>
    ensures written { OnOk result (bytes.new.items ≡ bytes.old.items ++ flat_map (number w64) moments.now) }
    ensures fits { OnOk result (AllByRecursion IsMoment moments.now) }
{
    for moment in moments {
        append_moment(bytes, *moment)?;
    }
    Ok(())
}

fn append_moment(bytes: &mut Vec<u8>, moment: Moment) -> Result<(), Memory>
    ensures written { OnOk result (bytes.new.items ≡ bytes.old.items ++ number w64 moment) }
    ensures fits { OnOk result (IsMoment moment) }
{
    append_u64(bytes, moment.get())
}

/// Appends the figures of a line, of two bytes each.
pub fn append_figures(bytes: &mut Vec<u8>, figures: &[u16]) -> Result<(), Memory>
    ensures written { OnOk result (bytes.new.items ≡ bytes.old.items ++ flat_map (number w16) figures.now) }
    ensures fits { OnOk result (AllByRecursion IsFigure figures.now) }
{
    for figure in figures {
        append_u16(bytes, *figure)?;
    }
    Ok(())
}

/// Appends entries, of four bytes each.
pub fn append_order(bytes: &mut Vec<u8>, entries: &[EntryId]) -> Result<(), Memory>
    ensures written { OnOk result (bytes.new.items ≡ bytes.old.items ++ flat_map (number w32) entries.now) }
    ensures fits { OnOk result (AllByRecursion IsId entries.now) }
{
    for entry in entries {
        append_entry(bytes, *entry)?;
    }
    Ok(())
}

fn append_entry(bytes: &mut Vec<u8>, entry: EntryId) -> Result<(), Memory>
    ensures written { OnOk result (bytes.new.items ≡ bytes.old.items ++ number w32 entry) }
    ensures fits { OnOk result (IsId entry) }
{
    append_u32(bytes, entry.get())
}

/// Appends numbers, of four bytes each.
pub fn append_slots(bytes: &mut Vec<u8>, slots: &[u32]) -> Result<(), Memory>
    ensures written { OnOk result (bytes.new.items ≡ bytes.old.items ++ flat_map (number w32) slots.now) }
    ensures fits { OnOk result (AllByRecursion IsBelow32 slots.now) }
{
    for slot in slots {
        append_u32(bytes, *slot)?;
    }
    Ok(())
}

/// Appends bytes, one of each coin.
pub fn append_coins(bytes: &mut Vec<u8>, coins: &[u8]) -> Result<(), Memory>
    ensures written { OnOk result (bytes.new.items ≡ bytes.old.items ++ flat_map byte coins.now) }
    ensures fits { OnOk result (AllByRecursion IsByte coins.now) }
{
    for coin in coins {
        append_u8(bytes, *coin)?;
    }
    Ok(())
}

/// Appends players with the prices at which they were bought, in tenths of a million: six bytes each.
pub fn append_picks(bytes: &mut Vec<u8>, picks: &[(PlayerId, u16)]) -> Result<(), Memory>
    ensures written { OnOk result (bytes.new.items ≡ bytes.old.items ++ flat_map pick_bytes picks.now) }
    ensures fits { OnOk result (AllByRecursion IsPick picks.now) }
{
    for pick in picks {
        append_pick(bytes, *pick)?;
    }
    Ok(())
}

fn append_pick(bytes: &mut Vec<u8>, pick: (PlayerId, u16)) -> Result<(), Memory>
    ensures written { OnOk result (bytes.new.items ≡ bytes.old.items ++ pick_bytes pick) }
    ensures fits { OnOk result (IsPick pick) }
{
    append_u32(bytes, pick.0.get())?;
    append_u16(bytes, pick.1)
}

fn append_whole_figures(bytes: &mut Vec<u8>, figures: &[u16]) -> Result<(), Memory>
    ensures written { OnOk result (bytes.new.items ≡ bytes.old.items ++ flat_map whole figures.now) }
    ensures fits { OnOk result (AllByRecursion IsFigure figures.now) }
{
    for figure in figures {
        append_u64(bytes, *figure as u64)?;
    }
    Ok(())
}

/// Appends entries, of eight bytes each.
pub fn append_whole_entries(bytes: &mut Vec<u8>, entries: &[EntryId]) -> Result<(), Memory>
    ensures written { OnOk result (bytes.new.items ≡ bytes.old.items ++ flat_map whole entries.now) }
    ensures fits { OnOk result (AllByRecursion IsId entries.now) }
{
    for entry in entries {
        append_whole_entry(bytes, *entry)?;
    }
    Ok(())
}

fn append_whole_entry(bytes: &mut Vec<u8>, entry: EntryId) -> Result<(), Memory>
    ensures written { OnOk result (bytes.new.items ≡ bytes.old.items ++ whole entry) }
    ensures fits { OnOk result (IsId entry) }
{
    append_u64(bytes, entry.get() as u64)
}

/// Appends players, of eight bytes each.
pub fn append_whole_players(bytes: &mut Vec<u8>, players: &[PlayerId]) -> Result<(), Memory>
    ensures written { OnOk result (bytes.new.items ≡ bytes.old.items ++ flat_map whole players.now) }
    ensures fits { OnOk result (AllByRecursion IsPlayer players.now) }
{
    for player in players {
        append_whole_player(bytes, *player)?;
    }
    Ok(())
}

fn append_whole_player(bytes: &mut Vec<u8>, player: PlayerId) -> Result<(), Memory>
    ensures written { OnOk result (bytes.new.items ≡ bytes.old.items ++ whole player) }
    ensures fits { OnOk result (IsPlayer player) }
{
    append_u64(bytes, player.get() as u64)
}

/// Appends numbers, of eight bytes each.
pub fn append_whole_slots(bytes: &mut Vec<u8>, slots: &[u32]) -> Result<(), Memory>
    ensures written { OnOk result (bytes.new.items ≡ bytes.old.items ++ flat_map whole slots.now) }
    ensures fits { OnOk result (AllByRecursion IsSlotNumber slots.now) }
{
    for slot in slots {
        append_u64(bytes, *slot as u64)?;
    }
    Ok(())
}

/// Appends coins, of eight bytes each.
pub fn append_whole_coins(bytes: &mut Vec<u8>, coins: &[u8]) -> Result<(), Memory>
    ensures written { OnOk result (bytes.new.items ≡ bytes.old.items ++ flat_map whole coins.now) }
    ensures fits { OnOk result (AllByRecursion IsCoinNumber coins.now) }
{
    for coin in coins {
        append_u64(bytes, *coin as u64)?;
    }
    Ok(())
}

/// Appends clubs with their names.
pub fn append_clubs(bytes: &mut Vec<u8>, clubs: &[(ClubId, Name)]) -> Result<(), Memory>
    ensures written { OnOk result (bytes.new.items ≡ bytes.old.items ++ flat_map club_bytes clubs.now) }
    ensures fits { OnOk result (AllByRecursion IsClubNamed clubs.now) }
{
    for club in clubs {
        append_club(bytes, club)?;
    }
    Ok(())
}

/// Appends players with their lines.
pub fn append_rows(bytes: &mut Vec<u8>, rows: &[(PlayerId, Line)]) -> Result<(), Memory>
    ensures written { OnOk result (bytes.new.items ≡ bytes.old.items ++ flat_map row_bytes rows.now) }
    ensures fits { OnOk result (AllByRecursion IsRow rows.now) }
{
    for row in rows {
        append_row(bytes, row)?;
    }
    Ok(())
}

fn append_row(bytes: &mut Vec<u8>, row: &(PlayerId, Line)) -> Result<(), Memory>
    ensures written { OnOk result (bytes.new.items ≡ bytes.old.items ++ row_bytes row.now) }
    ensures fits { OnOk result (IsRow row.now) }
{
    append_u64(bytes, row.0.get() as u64)?;
    append_line(bytes, &row.1)
}

/// Appends transfers: who goes out, and who comes in.
pub fn append_swaps(bytes: &mut Vec<u8>, swaps: &[Swap]) -> Result<(), Memory>
    ensures written { OnOk result (bytes.new.items ≡ bytes.old.items ++ flat_map swap_bytes swaps.now) }
    ensures fits { OnOk result (AllByRecursion IsSwap swaps.now) }
{
    for swap in swaps {
        append_swap(bytes, *swap)?;
    }
    Ok(())
}

fn append_swap(bytes: &mut Vec<u8>, swap: Swap) -> Result<(), Memory>
    ensures written { OnOk result (bytes.new.items ≡ bytes.old.items ++ swap_bytes swap) }
    ensures fits { OnOk result (IsSwap swap) }
{
    append_u64(bytes, swap.out.get() as u64)?;
    append_u64(bytes, swap.into.get() as u64)
}

fn append_club(bytes: &mut Vec<u8>, club: &(ClubId, Name)) -> Result<(), Memory>
    ensures written { OnOk result (bytes.new.items ≡ bytes.old.items ++ club_bytes club.now) }
    ensures fits { OnOk result (IsClubNamed club.now) }
{
    append_u64(bytes, club.0.get() as u64)?;
    append_long_text(bytes, club.1.bytes())
}

/// Appends a line behind the count of its figures.
pub fn append_line(bytes: &mut Vec<u8>, line: &Line) -> Result<(), Memory>
    ensures written { OnOk result (bytes.new.items ≡ bytes.old.items ++ line_bytes line.now) }
    ensures fits { OnOk result (IsWide line.now) }
{
    append_u16(bytes, 28)?;
    append_whole_figures(bytes, &line.figures)
}
