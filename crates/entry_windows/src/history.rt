// The window of an entry's locked gameweeks: its chips, and its row of each.
ghost use Rattle.std.specs.Prelude.{◌≡◌, ◌≤◌, ◌+◌, ◌*◌, ◌-◌, Some, [], if◌then◌else◌, is_some, length, true};
ghost use Rattle.json_members.specs.Tokens.{Appends, tokens_of};
ghost use Rattle.rule_book.specs.Entries.{entry_in};
ghost use Rattle.rule_book.specs.History.{chip_at};
ghost use Rattle.rule_book.specs.HistoryTeam.{is_begun};
ghost use Rattle.rule_book.specs.UpTo.{start_of};
ghost use Rattle.season_book.specs.Book.{EntryFacts};
ghost use Rattle.season_book.specs.Windows.{listed};
ghost use Rattle.season_views.specs.Entries.{OfEachHistory};
ghost use Rattle.season_views.specs.Seen.{IsKept, OfEachSeen, ShowsEach, WritesShown};
ghost use Rattle.season_book.specs.ChipNames.{chip_name};
ghost use Rattle.season_views.specs.EntryReads.{history_reads};
ghost use Rattle.season_book.specs.EntryRows.{entry_row_data, entry_row_of};
ghost use Rattle.season_book.specs.HistoryWindow.{chip_row, chips_of, gameweeks_of, history_data, history_window};
ghost use Rattle.entry_windows.specs.Races.{IsRace};

use crate::ranks::race;
use crate::rows::{played, row_of};
use crate::shapes::Race;
use crate::writing::{write_chip_row, write_empty, write_row};
use fpl_base::{EntryId, Gw, Memory, ReadCount};
use json::Writer;
use json_members::{write_count, write_no_list};
use season_entries::entries_are_issued;
use season_views::{Seen, SeenCells, issued};
use std::alloc::AllocError;
use std::sync::ledger::Ledger;

/// Writes an entry's locked gameweeks; `false` where the entry was not issued or is not registered. Each locked gameweek of
/// each entry is read once, for the ranks.
pub fn write_history<L: Ledger>(
    out: &mut Writer,
    seen: &Seen<L>,
    cells: &SeenCells<L>,
    entry: u32,
    steps: &mut ReadCount<L>,
) -> Result<bool, Memory>
    requires kept { IsKept seen.now cells.now }
    ensures value { ShowsEach seen.now (λ entries. history_window seen.now.facts entries entry) result out.old out.new }
    ensures cost { OfEachSeen seen.now (λ entries. steps.new ≤ steps.old + history_reads seen.now.facts entries) }
{
    // The law on which entries are there, for the prover.
    entries_are_issued();
    match issued(seen, entry) {
        Some(there) => write_issued(out, seen, cells, there, steps),
        None => Ok(false),
    }
}

// The same of an entry that was issued.
fn write_issued<L: Ledger>(
    out: &mut Writer,
    seen: &Seen<L>,
    cells: &SeenCells<L>,
    entry: EntryId,
    steps: &mut ReadCount<L>,
) -> Result<bool, Memory>
    requires kept { IsKept seen.now cells.now }
    ensures value { OfEachSeen seen.now
        (λ entries. (row : EntryFacts) → entry_in entries entry ≡ Some row
        → WritesShown (history_window seen.now.facts entries entry) result out.old out.new) }
    ensures cost { OfEachSeen seen.now
        (λ entries. steps.new ≤ steps.old + history_reads seen.now.facts entries) }
{
    // That the ids of players rise, for the prover.
    let _count = seen.players().len();
    match seen.first(entry) {
        Some(first) => write_registered(out, seen, cells, entry, first, steps),
        None => Ok(false),
    }
}

// The same of an entry that is registered.
fn write_registered<L: Ledger>(
    out: &mut Writer,
    seen: &Seen<L>,
    cells: &SeenCells<L>,
    entry: EntryId,
    first: Gw,
    steps: &mut ReadCount<L>,
) -> Result<bool, Memory>
    requires kept { IsKept seen.now cells.now }
    ensures value { OfEachSeen seen.now
        (λ entries. (row : EntryFacts) → entry_in entries entry ≡ Some row
        → start_of row.history ≡ Some first
        → WritesShown (Some (history_data seen.now.facts entries (entry, row))) result out.old out.new) }
    ensures cost { steps.new
        ≤ steps.old + (length seen.now.managers.managers + 21) * (2 * seen.now.facts.calendar.locked) }
{
    write_gameweeks(out, seen, cells, entry, first, steps)?;
    Ok(true)
}

// Writes the gameweeks of an entry from its first on.
fn write_gameweeks<L: Ledger>(
    out: &mut Writer,
    seen: &Seen<L>,
    cells: &SeenCells<L>,
    entry: EntryId,
    first: Gw,
    steps: &mut ReadCount<L>,
) -> Result<(), AllocError>
    requires kept { IsKept seen.now cells.now }
    ensures value { OfEachSeen seen.now
        (λ entries. (row : EntryFacts) → entry_in entries entry ≡ Some row
        → start_of row.history ≡ Some first
        → Appends result out.old out.new (tokens_of (history_data seen.now.facts entries (entry, row)))) }
    ensures cost { steps.new
        ≤ steps.old + (length seen.now.managers.managers + 21) * (2 * seen.now.facts.calendar.locked) }
{
    // That the ids of players rise, for the prover.
    let _count = seen.players().len();
    out.begin_object()?;
    out.key("chips")?;
    write_chips(out, seen, entry, first, steps)?;
    out.key("current")?;
    write_current(out, seen, cells, entry, first, steps)?;
    write_no_list(out, "past")?;
    out.end_object()
}

// Writes the chips of an entry from its first gameweek on.
fn write_chips<L: Ledger>(
    out: &mut Writer,
    seen: &Seen<L>,
    entry: EntryId,
    first: Gw,
    steps: &mut ReadCount<L>,
) -> Result<(), AllocError>
    ensures value { OfEachHistory seen.now.facts seen.now.managers entry
        (λ h. start_of h ≡ Some first
        → Appends result out.old out.new (tokens_of (listed (chip_row h) (chips_of seen.now.facts h)))) }
    ensures cost { steps.new ≤ steps.old + seen.now.facts.calendar.locked }
{
    out.begin_array()?;
    for passed in first.get() - 1..seen.calendar().locked() {
        write_if_played(out, seen, entry, Gw::new(passed + 1).unwrap(), steps)?;
    }
    out.end_array()
}

// Writes the chip of an entry's gameweek, if it played one.
fn write_if_played<L: Ledger>(
    out: &mut Writer,
    seen: &Seen<L>,
    entry: EntryId,
    gameweek: Gw,
    steps: &mut ReadCount<L>,
) -> Result<(), AllocError>
    ensures value { OfEachHistory seen.now.facts seen.now.managers entry
        (λ h. is_begun h gameweek ≡ true → Appends result out.old out.new
        (if is_some (chip_name (chip_at h gameweek)) then tokens_of (chip_row h gameweek) else [])) }
    ensures cost { steps.new ≤ steps.old + 1 }
{
    match seen.team_at(entry, gameweek, steps) {
        Some(team) => write_chip_row(out, gameweek, team.chip),
        None => Ok(()),
    }
}

// Writes the rows of an entry from its first gameweek on.
fn write_current<L: Ledger>(
    out: &mut Writer,
    seen: &Seen<L>,
    cells: &SeenCells<L>,
    entry: EntryId,
    first: Gw,
    steps: &mut ReadCount<L>,
) -> Result<(), AllocError>
    requires kept { IsKept seen.now cells.now }
    ensures value { OfEachSeen seen.now
        (λ entries. (row : EntryFacts) → entry_in entries entry ≡ Some row
        → start_of row.history ≡ Some first
        → Appends result out.old out.new
        (tokens_of (listed (λ g. entry_row_data (entry_row_of seen.now.facts entries (entry, row) g))
        (gameweeks_of seen.now.facts row.history)))) }
    ensures cost { steps.new
        ≤ steps.old + (length seen.now.managers.managers + 20) * (2 * seen.now.facts.calendar.locked) }
{
    match Gw::new(seen.calendar().locked()) {
        Some(last) => write_rows(out, seen, cells, entry, first, last, steps),
        None => write_empty(out),
    }
}

// Writes the rows of an entry from its first gameweek to the last locked one.
fn write_rows<L: Ledger>(
    out: &mut Writer,
    seen: &Seen<L>,
    cells: &SeenCells<L>,
    entry: EntryId,
    first: Gw,
    last: Gw,
    steps: &mut ReadCount<L>,
) -> Result<(), AllocError>
    requires kept { IsKept seen.now cells.now }
    requires last { last ≡ seen.now.facts.calendar.locked }
    ensures value { OfEachSeen seen.now
        (λ entries. (row : EntryFacts) → entry_in entries entry ≡ Some row
        → start_of row.history ≡ Some first
        → Appends result out.old out.new
        (tokens_of (listed (λ g. entry_row_data (entry_row_of seen.now.facts entries (entry, row) g))
        (gameweeks_of seen.now.facts row.history)))) }
    ensures cost { steps.new
        ≤ steps.old + (length seen.now.managers.managers + 1) * (2 * last) + 18 * last }
{
    let race = race(seen, cells, entry, last, steps);
    out.begin_array()?;
    for passed in first.get() - 1..last.get() {
        write_row_at(
            out,
            seen,
            cells,
            entry,
            Gw::new(passed + 1).unwrap(),
            &race,
            steps,
        )?;
    }
    out.end_array()
}

// Writes the row of a locked gameweek, which is one of its own.
fn write_row_at<L: Ledger>(
    out: &mut Writer,
    seen: &Seen<L>,
    cells: &SeenCells<L>,
    entry: EntryId,
    gameweek: Gw,
    race: &Race,
    steps: &mut ReadCount<L>,
) -> Result<(), AllocError>
    requires kept { IsKept seen.now cells.now }
    requires locked { gameweek ≤ seen.now.facts.calendar.locked }
    ensures value { OfEachSeen seen.now
        (λ entries. (row : EntryFacts) → entry_in entries entry ≡ Some row
        → is_begun row.history gameweek ≡ true
        → IsRace seen.now.facts entries (entry, row) gameweek race.now
        → Appends result out.old out.new
        (tokens_of (entry_row_data (entry_row_of seen.now.facts entries (entry, row) gameweek)))) }
    ensures cost { steps.new ≤ steps.old + 18 }
{
    // That the ids of players rise, for the prover.
    let _count = seen.players().len();
    match played(seen, cells, entry, gameweek, steps) {
        Some(played) => write_row(
            out,
            &row_of(seen, cells, entry, gameweek, &played, race, steps),
        ),
        None => Ok(()),
    }
}
