// The window of an entry.
ghost use Rattle.std.specs.Prelude.{◌≡◌, ◌≤◌, ◌+◌, ◌*◌, ℕ, Some, length, sum_by};
ghost use Rattle.rule_book.specs.Entries.{entry_in};
ghost use Rattle.rule_book.specs.UpTo.{start_of};
ghost use Rattle.season_book.specs.Book.{EntryFacts};
ghost use Rattle.season_views.specs.Seen.{IsKept, OfEachSeen, ShowsEach, WritesShown};
ghost use Rattle.league_windows.specs.Openings.{WritesData};
ghost use Rattle.season_book.specs.EntryWindow.{entry_told, entry_window};
ghost use Rattle.season_views.specs.EntryWindowReads.{entry_window_reads, reads_of_many};

use crate::entry_writing::{begin_entry, end_entry};
use crate::leagues::write_leagues;
use crate::summary::{last_summary, transfers_after};
use fpl_base::{EntryId, Gw, Memory, ReadCount};
use json::Writer;
use json_members::{write_count, write_text};
use league_windows::{last_gameweek, name_text};
use season_entries::entries_are_issued;
use season_views::{Seen, SeenCells, issued};
use std::alloc::Global;
use std::sync::ledger::Ledger;

/// Writes an entry with its points and ranks and the leagues that it is in; `false` where the entry was not issued or is
/// not registered, and then it takes no memory. Of all entries each locked gameweek is read once, for the rank, and of each
/// league of the entry what its standings read (docs/RULES.md, "Tables and ranks").
pub fn write_entry<L: Ledger>(
    out: &mut Writer,
    alloc: Global,
    seen: &Seen<L>,
    cells: &SeenCells<L>,
    entry: u32,
    steps: &mut ReadCount<L>,
) -> Result<bool, Memory>
    requires kept { IsKept seen.now cells.now }
    ensures value { ShowsEach seen.now
        (λ entries. entry_window seen.now.facts entries seen.now.leagues entry) result out.old out.new }
    ensures cost { OfEachSeen seen.now
        (λ entries. steps.new
        ≤ steps.old + entry_window_reads seen.now.facts entries seen.now.leagues entry) }
{
    // The law on which entries are there, for the prover.
    entries_are_issued();
    match issued(seen, entry) {
        Some(there) => write_issued(out, alloc, seen, cells, there, steps),
        None => Ok(false),
    }
}

// The same of an entry that was issued.
fn write_issued<L: Ledger>(
    out: &mut Writer,
    alloc: Global,
    seen: &Seen<L>,
    cells: &SeenCells<L>,
    entry: EntryId,
    steps: &mut ReadCount<L>,
) -> Result<bool, Memory>
    requires kept { IsKept seen.now cells.now }
    ensures value { OfEachSeen seen.now
        (λ entries. (row : EntryFacts) → entry_in entries entry ≡ Some row
        → WritesShown (entry_window seen.now.facts entries seen.now.leagues entry) result out.old out.new) }
    ensures cost { steps.new
        ≤ steps.old + reads_of_many seen.now.facts (length seen.now.managers.managers) seen.now.leagues entry }
{
    // That the ids of players rise, for the prover.
    let _count = seen.players().len();
    match seen.first(entry) {
        Some(first) => write_registered(out, alloc, seen, cells, entry, first, steps),
        None => Ok(false),
    }
}

// The same of an entry that is registered from its first gameweek on.
fn write_registered<L: Ledger>(
    out: &mut Writer,
    alloc: Global,
    seen: &Seen<L>,
    cells: &SeenCells<L>,
    entry: EntryId,
    first: Gw,
    steps: &mut ReadCount<L>,
) -> Result<bool, Memory>
    requires kept { IsKept seen.now cells.now }
    ensures value { OfEachSeen seen.now
        (λ entries. (row : EntryFacts) → entry_in entries entry ≡ Some row
        → start_of row.history ≡ Some first
        → WritesShown (Some (entry_told seen.now.facts entries seen.now.leagues (entry, row) first)) result
        out.old out.new) }
    ensures cost { steps.new
        ≤ steps.old + reads_of_many seen.now.facts (length seen.now.managers.managers) seen.now.leagues entry }
{
    write_told(out, alloc, seen, cells, entry, first, steps)?;
    Ok(true)
}

// Writes an entry that is registered from its first gameweek on.
fn write_told<L: Ledger>(
    out: &mut Writer,
    alloc: Global,
    seen: &Seen<L>,
    cells: &SeenCells<L>,
    entry: EntryId,
    first: Gw,
    steps: &mut ReadCount<L>,
) -> Result<(), Memory>
    requires kept { IsKept seen.now cells.now }
    ensures value { OfEachSeen seen.now
        (λ entries. (row : EntryFacts) → entry_in entries entry ≡ Some row
        → start_of row.history ≡ Some first
        → WritesData (entry_told seen.now.facts entries seen.now.leagues (entry, row) first) result
        out.old out.new) }
    ensures cost { steps.new
        ≤ steps.old + reads_of_many seen.now.facts (length seen.now.managers.managers) seen.now.leagues entry }
{
    // That the ids of players rise, for the prover.
    let _count = seen.players().len();
    let summary = last_summary(seen, cells, entry, steps);
    let transfers = transfers_after(seen, entry, first, steps);
    begin_entry(out, entry, last_gameweek(seen), transfers, &summary)?;
    write_leagues(out, alloc, seen, cells, entry, steps)?;
    write_text(out, "name", name_text(seen, entry))?;
    write_text(out, "player_first_name", "")?;
    write_text(out, "player_last_name", "")?;
    write_count(out, "started_event", u64::from(first.get()))?;
    end_entry(out, &summary)?;
    Ok(())
}
