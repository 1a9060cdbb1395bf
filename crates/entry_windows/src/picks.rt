// The window of an entry's gameweek: who played for it, and how often the points of each count.
ghost use Rattle.std.specs.Prelude.{◌≡◌, ◌≤◌, ◌+◌, ◌*◌, Some, length};
ghost use Rattle.rule_book.specs.Entries.{entry_in};
ghost use Rattle.season_book.specs.Book.{EntryFacts};
ghost use Rattle.season_views.specs.Seen.{IsKept, OfEachSeen, ShowsEach, WritesShown};
ghost use Rattle.season_views.specs.EntryReads.{picks_reads};
ghost use Rattle.season_book.specs.PicksWindow.{picks_if_begun, picks_of, picks_window};
ghost use Rattle.entry_windows.specs.Told.{played_by};

use crate::ranks::race;
use crate::rows::{played, row_of};
use crate::shapes::Played;
use crate::writing::write_gameweek;
use fpl_base::{EntryId, Gw, Memory, ReadCount};
use json::Writer;
use season_entries::entries_are_issued;
use season_views::{Seen, SeenCells, issued, locked_gameweek};
use std::sync::ledger::Ledger;

/// Writes what an entry's team of a gameweek was and how its players counted; `false` where the entry was not issued, is
/// not registered or had not begun by then, and where the gameweek is not locked. Each gameweek of each entry up to this
/// one is read once, for the rank.
pub fn write_picks<L: Ledger>(
    out: &mut Writer,
    seen: &Seen<L>,
    cells: &SeenCells<L>,
    entry: u32,
    gameweek: u32,
    steps: &mut ReadCount<L>,
) -> Result<bool, Memory>
    requires kept { IsKept seen.now cells.now }
    ensures value { ShowsEach seen.now
        (λ entries. picks_window seen.now.facts entries entry gameweek) result out.old out.new }
    ensures cost { OfEachSeen seen.now
        (λ entries. steps.new ≤ steps.old + picks_reads entries gameweek) }
{
    // The law on which entries are there, for the prover.
    entries_are_issued();
    match issued(seen, entry) {
        Some(there) => write_issued(out, seen, cells, there, gameweek, steps),
        None => Ok(false),
    }
}

// The same of an entry that was issued.
fn write_issued<L: Ledger>(
    out: &mut Writer,
    seen: &Seen<L>,
    cells: &SeenCells<L>,
    entry: EntryId,
    gameweek: u32,
    steps: &mut ReadCount<L>,
) -> Result<bool, Memory>
    requires kept { IsKept seen.now cells.now }
    ensures value { OfEachSeen seen.now
        (λ entries. (row : EntryFacts) → entry_in entries entry ≡ Some row
        → WritesShown (picks_window seen.now.facts entries entry gameweek) result out.old out.new) }
    ensures cost { OfEachSeen seen.now
        (λ entries. steps.new ≤ steps.old + picks_reads entries gameweek) }
{
    match locked_gameweek(seen, gameweek) {
        Some(locked) => write_locked(out, seen, cells, entry, locked, steps),
        None => Ok(false),
    }
}

// The same in a locked gameweek.
fn write_locked<L: Ledger>(
    out: &mut Writer,
    seen: &Seen<L>,
    cells: &SeenCells<L>,
    entry: EntryId,
    gameweek: Gw,
    steps: &mut ReadCount<L>,
) -> Result<bool, Memory>
    requires kept { IsKept seen.now cells.now }
    requires locked { gameweek ≤ seen.now.facts.calendar.locked }
    ensures value { OfEachSeen seen.now
        (λ entries. (row : EntryFacts) → entry_in entries entry ≡ Some row
        → WritesShown (picks_if_begun seen.now.facts entries (entry, row) gameweek) result out.old out.new) }
    ensures cost { steps.new
        ≤ steps.old + (length seen.now.managers.managers + 1) * (2 * gameweek) + 18 }
{
    // That the ids of players rise, for the prover.
    let _count = seen.players().len();
    match played(seen, cells, entry, gameweek, steps) {
        Some(played) => write_played(out, seen, cells, entry, gameweek, &played, steps),
        None => Ok(false),
    }
}

// The same of a gameweek in which the entry was.
fn write_played<L: Ledger>(
    out: &mut Writer,
    seen: &Seen<L>,
    cells: &SeenCells<L>,
    entry: EntryId,
    gameweek: Gw,
    played: &Played,
    steps: &mut ReadCount<L>,
) -> Result<bool, Memory>
    requires kept { IsKept seen.now cells.now }
    requires locked { gameweek ≤ seen.now.facts.calendar.locked }
    ensures value { OfEachSeen seen.now
        (λ entries. (row : EntryFacts) → entry_in entries entry ≡ Some row
        → played.now ≡ played_by seen.now.facts row.history gameweek
        → WritesShown (Some (picks_of seen.now.facts entries (entry, row) gameweek)) result out.old out.new) }
    ensures cost { steps.new
        ≤ steps.old + (length seen.now.managers.managers + 1) * (2 * gameweek) + 16 }
{
    let race = race(seen, cells, entry, gameweek, steps);
    let row = row_of(seen, cells, entry, gameweek, played, &race, steps);
    write_gameweek(out, entry, played, &row)?;
    Ok(true)
}
