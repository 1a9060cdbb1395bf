// What an entry has of the last locked gameweek, and its transfers.
ghost use Rattle.std.specs.Prelude.{◌≡◌, ◌≤◌, ◌+◌, ◌*◌, ◌&&◌, ℕ, Some, None, int_lt, length, if◌then◌else◌};
ghost use Rattle.rule_book.specs.Entries.{entry_in};
ghost use Rattle.season_book.specs.Book.{EntryFacts};
ghost use Rattle.season_views.specs.Entries.{OfEachHistory};
ghost use Rattle.season_views.specs.Seen.{IsKept, OfEachSeen};
ghost use Rattle.season_book.specs.EntryTotals.{event_rank, gross_by, is_in};
ghost use Rattle.entry_windows.specs.EntrySummary.{summary_if_in, summary_of};
ghost use Rattle.season_book.specs.EntryWindow.{transfers_after};

use crate::ranks::race;
use crate::rows::played;
use fpl_base::{EntryId, Gw, ReadCount, Tenths};
use league_windows::{last_gameweek, score};
use season_views::{Seen, SeenCells};
use std::sync::ledger::Ledger;

/// What an entry has of the last locked gameweek, in which it is: its bank, its points there before deductions and its
/// rank by them, its total through it and its rank by that.
#[derive(Drop)]
pub struct Summary {
    pub bank: Tenths,
    pub points: i32,
    pub rank: u64,
    pub total: i32,
    pub overall: u64,
}

/// The same; `None` where no gameweek is locked, and where the entry is not in the last one.
pub fn last_summary<L: Ledger>(
    seen: &Seen<L>,
    cells: &SeenCells<L>,
    entry: EntryId,
    steps: &mut ReadCount<L>,
) -> Option<Summary>
    requires kept { IsKept seen.now cells.now }
    ensures value { OfEachSeen seen.now
        (λ entries. (row : EntryFacts) → entry_in entries entry ≡ Some row
        → result ≡ summary_if_in seen.now.facts entries (entry, row)) }
    ensures cost { steps.new
        ≤ steps.old + (length seen.now.managers.managers + 1) * (2 * seen.now.facts.calendar.locked)
        + length seen.now.managers.managers + 2 }
{
    match last_gameweek(seen) {
        Some(last) => summary_in(seen, cells, entry, last, steps),
        None => None,
    }
}

// The same by the last gameweek.
fn summary_in<L: Ledger>(
    seen: &Seen<L>,
    cells: &SeenCells<L>,
    entry: EntryId,
    last: Gw,
    steps: &mut ReadCount<L>,
) -> Option<Summary>
    requires kept { IsKept seen.now cells.now }
    requires locked { last ≤ seen.now.facts.calendar.locked }
    ensures value { OfEachSeen seen.now
        (λ entries. (row : EntryFacts) → entry_in entries entry ≡ Some row
        → result
        ≡ (if is_in row last then Some (summary_of seen.now.facts entries (entry, row) last) else None)) }
    ensures cost { steps.new
        ≤ steps.old + (length seen.now.managers.managers + 1) * (2 * last)
        + length seen.now.managers.managers + 2 }
{
    // That the ids of players rise, for the prover.
    let _count = seen.players().len();
    let played = played(seen, cells, entry, last, steps)?;
    let race = race(seen, cells, entry, last, steps);
    let place = usize::from(last.get()) - 1;
    Some(Summary {
        bank: played.team.bank,
        points: played.score.gross,
        rank: event_rank(seen, cells, played.score.gross, last, steps),
        total: race.course.totals[place],
        overall: race.ranks[place],
    })
}

// The rank of these points of a locked gameweek among all who are in it.
fn event_rank<L: Ledger>(
    seen: &Seen<L>,
    cells: &SeenCells<L>,
    points: i32,
    last: Gw,
    steps: &mut ReadCount<L>,
) -> u64
    requires kept { IsKept seen.now cells.now }
    requires locked { last ≤ seen.now.facts.calendar.locked }
    ensures value { OfEachSeen seen.now
        (λ entries. (row : ℕ × EntryFacts) → points ≡ gross_by seen.now.facts row.1.history last
        → result ≡ event_rank seen.now.facts entries last row) }
    ensures cost { steps.new ≤ steps.old + length seen.now.managers.managers }
{
    let mut rank = 1u64;
    for place in 0..seen.entries() {
        let other = EntryId::new(place + 1).unwrap();
        rank += more_points(seen, cells, other, points, last, steps);
    }
    rank
}

// 1 where an entry is in a locked gameweek and has more points there than these, else 0.
fn more_points<L: Ledger>(
    seen: &Seen<L>,
    cells: &SeenCells<L>,
    other: EntryId,
    points: i32,
    last: Gw,
    steps: &mut ReadCount<L>,
) -> u64
    requires kept { IsKept seen.now cells.now }
    requires locked { last ≤ seen.now.facts.calendar.locked }
    ensures value { OfEachSeen seen.now
        (λ entries. (row : EntryFacts) → entry_in entries other ≡ Some row
        → result
        ≡ (if is_in row last && int_lt points (gross_by seen.now.facts row.history last) then 1 else 0)) }
    ensures few { result ≤ 1 }
    ensures cost { steps.new ≡ steps.old + 1 }
{
    match score(seen, cells, other, last, steps) {
        Some(score) => more_than(points, score.gross),
        None => 0,
    }
}

// 1 where points are more than these, else 0.
fn more_than(points: i32, other: i32) -> u64
    ensures { result ≡ (if int_lt points other then 1 else 0) }
{
    if other > points { 1 } else { 0 }
}

/// How many transfers an entry has in the locked gameweeks behind its first.
pub fn transfers_after<L: Ledger>(
    seen: &Seen<L>,
    entry: EntryId,
    first: Gw,
    steps: &mut ReadCount<L>,
) -> u32
    ensures value { OfEachHistory seen.now.facts seen.now.managers entry
        (λ h. result ≡ transfers_after h first seen.now.facts.calendar.locked) }
    ensures cost { steps.new ≤ steps.old + seen.now.facts.calendar.locked }
{
    let mut transfers = 0u32;
    for passed in first.get()..seen.calendar().locked() {
        transfers += u32::from(seen.made(entry, Gw::new(passed + 1).unwrap(), steps));
    }
    transfers
}
