// The total of an entry through each gameweek, and its rank among all entries.
ghost use Rattle.std.specs.Prelude.{◌≡◌, ◌≤◌, ◌<◌, ◌+◌, ◌-◌, ◌*◌, ◌^◌, ℕ, All, length, slice_index};
ghost use Rattle.rule_book.specs.ClassicTable.{is_better};
ghost use Rattle.rule_book.specs.Entries.{entry_in};
ghost use Rattle.rule_book.specs.FigureRange.{IsWithin};
ghost use Rattle.rule_book.specs.HistoryTeam.{is_begun};
ghost use Rattle.rule_book.specs.HistoryTransfers.{counted_through};
ghost use Rattle.season_book.specs.Book.{EntryFacts};
ghost use Rattle.season_views.specs.Entries.{OfEachHistory, net_by};
ghost use Rattle.season_views.specs.Seen.{IsKept, OfEachSeen};
ghost use Rattle.entry_windows.specs.Courses.{IsCourse, ahead_by, row_at};
ghost use Rattle.season_book.specs.EntryTotals.{total_through};
ghost use Rattle.entry_windows.specs.Races.{AreRanks, IsRace};

use crate::shapes::{Course, Race};
use fpl_base::{EntryId, Gw, ReadCount};
use season_ledger::rows_tell;
use season_views::{Seen, SeenCells, score_held};
use std::sync::ledger::Ledger;

/// An entry's totals and ranks through each gameweek up to a locked one. Of each entry it reads each of these gameweeks
/// once, and its transfers only where the totals are equal.
pub fn race<L: Ledger>(
    seen: &Seen<L>,
    cells: &SeenCells<L>,
    entry: EntryId,
    through: Gw,
    steps: &mut ReadCount<L>,
) -> Race
    requires kept { IsKept seen.now cells.now }
    requires locked { through ≤ seen.now.facts.calendar.locked }
    ensures value { OfEachSeen seen.now
        (λ entries. (row : EntryFacts) → entry_in entries entry ≡ Some row
        → IsRace seen.now.facts entries (entry, row) through result) }
    ensures cost { steps.new
        ≤ steps.old + (length seen.now.managers.managers + 1) * (2 * through) }
{
    // That the ids of players rise, for the prover.
    let _count = seen.players().len();
    let course = course(seen, cells, entry, through, steps);
    let ranks = ranks(seen, cells, &course, through, steps);
    Race { course, ranks }
}

// The course of an entry.
fn course<L: Ledger>(
    seen: &Seen<L>,
    cells: &SeenCells<L>,
    entry: EntryId,
    through: Gw,
    steps: &mut ReadCount<L>,
) -> Course
    requires kept { IsKept seen.now cells.now }
    requires locked { through ≤ seen.now.facts.calendar.locked }
    ensures value { OfEachHistory seen.now.facts seen.now.managers entry
        (λ h. IsCourse seen.now.facts h through result) }
    ensures cost { steps.new ≤ steps.old + 2 * through }
{
    let mut course = Course {
        totals: [0; 38],
        transfers: [0; 38],
    };
    let mut total = 0;
    for passed in 0..through.get() {
        total = total_with(seen, cells, entry, passed, total, steps);
        let place = usize::from(passed);
        course.totals[place] = total;
        course.transfers[place] = seen.counted_transfers(entry, passed + 1, steps);
    }
    course
}

// The rank of each place of a course: 1, and 1 more for each entry that is ahead there.
fn ranks<L: Ledger>(
    seen: &Seen<L>,
    cells: &SeenCells<L>,
    course: &Course,
    through: Gw,
    steps: &mut ReadCount<L>,
) -> [u64; 38]
    requires kept { IsKept seen.now cells.now }
    requires locked { through ≤ seen.now.facts.calendar.locked }
    ensures value { OfEachSeen seen.now
        (λ entries. AreRanks seen.now.facts entries course.now through result) }
    ensures cost { steps.new
        ≤ steps.old + length seen.now.managers.managers * (2 * through) }
{
    // That the ids of players rise, for the prover.
    let _count = seen.players().len();
    let mut ranks = [1u64; 38];
    for place in 0..seen.entries() {
        let other = EntryId::new(place + 1).unwrap();
        add_ahead(&mut ranks, seen, cells, other, course, through, steps);
    }
    ranks
}

// Puts each place behind an entry that is ahead there.
fn add_ahead<L: Ledger>(
    ranks: &mut [u64; 38],
    seen: &Seen<L>,
    cells: &SeenCells<L>,
    other: EntryId,
    course: &Course,
    through: Gw,
    steps: &mut ReadCount<L>,
)
    requires kept { IsKept seen.now cells.now }
    requires locked { through ≤ seen.now.facts.calendar.locked }
    requires room { All (λ rank. rank < 2 ^ 64 - 1) ranks.old }
    ensures value { OfEachHistory seen.now.facts seen.now.managers other
        (λ h. (place : ℕ) → place < through
        → slice_index ranks.new place
        ≡ slice_index ranks.old place + ahead_by seen.now.facts h course.now place) }
    ensures few { (n : ℕ) → All (λ rank. rank ≤ n) ranks.old
        → All (λ rank. rank ≤ n + 1) ranks.new }
    ensures cost { steps.new ≤ steps.old + 2 * through }
{
    let mut total = 0;
    for passed in 0..through.get() {
        total = total_with(seen, cells, other, passed, total, steps);
        ranks[usize::from(passed)] += ahead(seen, other, passed, total, course, steps);
    }
}

// 1 where an entry that has this total is in the next gameweek and ahead there, else 0.
fn ahead<L: Ledger>(
    seen: &Seen<L>,
    other: EntryId,
    passed: u8,
    total: i32,
    course: &Course,
    steps: &mut ReadCount<L>,
) -> u64
    requires { passed < 38 }
    ensures value { OfEachHistory seen.now.facts seen.now.managers other
        (λ h. total ≡ total_through seen.now.facts h (passed + 1)
        → result ≡ ahead_by seen.now.facts h course.now passed) }
    ensures few { result ≤ 1 }
    ensures cost { steps.new ≤ steps.old + 1 }
{
    if !is_in(seen, other, passed) {
        return 0;
    }
    if is_better(seen, other, passed, total, course, steps) {
        1
    } else {
        0
    }
}

// Whether a total is better than that of a course behind so many gameweeks and one: it is greater, or the same by fewer
// transfers.
fn is_better<L: Ledger>(
    seen: &Seen<L>,
    other: EntryId,
    passed: u8,
    total: i32,
    course: &Course,
    steps: &mut ReadCount<L>,
) -> bool
    requires { passed < 38 }
    ensures value { OfEachHistory seen.now.facts seen.now.managers other
        (λ h. result
        ≡ is_better (0, total, counted_through h (passed + 1)) (row_at course.now passed)) }
    ensures cost { steps.new ≤ steps.old + 1 }
{
    let place = usize::from(passed);
    let own = course.totals[place];
    if total != own {
        return total > own;
    }
    seen.counted_transfers(other, passed + 1, steps) < course.transfers[place]
}

// Whether an entry is in the gameweek behind so many.
fn is_in<L: Ledger>(seen: &Seen<L>, entry: EntryId, passed: u8) -> bool
    requires { passed < 38 }
    ensures { OfEachHistory seen.now.facts seen.now.managers entry
        (λ h. result ≡ is_begun h (passed + 1)) }
{
    match seen.first(entry) {
        Some(first) => first.get() <= passed + 1,
        None => false,
    }
}

// The total of an entry through the gameweek behind so many locked ones, by that through them.
fn total_with<L: Ledger>(
    seen: &Seen<L>,
    cells: &SeenCells<L>,
    entry: EntryId,
    passed: u8,
    total: i32,
    steps: &mut ReadCount<L>,
) -> i32
    requires kept { IsKept seen.now cells.now }
    requires locked { passed < seen.now.facts.calendar.locked }
    requires few { passed < 38 }
    requires near { IsWithin (18000000 * passed) total }
    ensures value { OfEachHistory seen.now.facts seen.now.managers entry
        (λ h. total ≡ total_through seen.now.facts h passed
        → result ≡ total_through seen.now.facts h (passed + 1)) }
    ensures near { IsWithin (18000000 * (passed + 1)) result }
    ensures cost { steps.new ≡ steps.old + 1 }
{
    total + net_in(seen, cells, entry, Gw::new(passed + 1).unwrap(), steps)
}

// The points of an entry in a locked gameweek after deductions; 0 before its first.
fn net_in<L: Ledger>(
    seen: &Seen<L>,
    cells: &SeenCells<L>,
    entry: EntryId,
    gameweek: Gw,
    steps: &mut ReadCount<L>,
) -> i32
    requires kept { IsKept seen.now cells.now }
    requires locked { gameweek ≤ seen.now.facts.calendar.locked }
    ensures value { OfEachHistory seen.now.facts seen.now.managers entry
        (λ h. result ≡ net_by seen.now.facts h gameweek) }
    ensures near { IsWithin 18000000 result }
    ensures cost { steps.new ≡ steps.old + 1 }
{
    // The law that rows tell what their histories do, for the prover.
    rows_tell();
    match score_held(cells, entry, gameweek, steps) {
        Some(score) => score.net,
        None => 0,
    }
}
