// The table of a classic league, and the names in it.
ghost use Rattle.std.specs.Prelude.{◌≡◌, ◌≤◌, ◌+◌, ◌*◌, ℕ, All, IfOk, false, length, map};
ghost use Rattle.rule_book.specs.LeagueCalls.{is_head};
ghost use Rattle.rule_book.specs.Ranks.{AllDiffer};
ghost use Rattle.season_book.specs.LeagueViews.{classic_shown, ranked_shown};
ghost use Rattle.season_views.specs.Cells.{AreKeptFrom, AreKeptWith};
ghost use Rattle.season_views.specs.Entries.{OfEachBook, OfEachNames};
ghost use Rattle.season_views.specs.Leagues.{AreIssued, classic_row_since};

use crate::names::name_of;
use crate::reading::total_held;
use crate::seen::{Seen, SeenCells};
use fpl_base::{EntryId, Gw, ListOf, Memory, ReadCount};
use leagues_and_cups::{League, rank_classic};
use rule_book::Ranked;
use season_book::{ShownClassic, ShownRanked};
use season_ledger::rows_tell;
use std::alloc::Global;
use std::sync::ledger::Ledger;

/// An entry's row of a league that starts in a gameweek, from which it has a total.
pub fn classic_row<L: Ledger>(
    seen: &Seen<L>,
    cells: &SeenCells<L>,
    entry: EntryId,
    start: Gw,
    steps: &mut ReadCount<L>,
) -> (EntryId, i32, u32)
    requires profile { seen.now.managers.profile ≡ seen.now.facts.profile }
    requires kept { AreKeptFrom seen.now.facts seen.now.managers entry start cells.now }
    ensures value { OfEachBook seen.now.facts seen.now.managers
        (λ entries. result ≡ classic_row_since seen.now.facts entries start entry) }
    ensures entry { result.0 ≡ entry }
    ensures cost { steps.new ≡ steps.old + 2 }
{
    // The law that rows tell what their histories do, and that the ids of players rise, for the prover.
    rows_tell();
    let _count = seen.players().len();
    let total = total_held(cells, entry, start, steps);
    let counted = seen.counted_transfers(entry, seen.calendar().locked(), steps);
    (entry, total, counted)
}

/// A row for each member of a league.
pub fn classic_rows<L: Ledger>(
    alloc: Global,
    seen: &Seen<L>,
    cells: &SeenCells<L>,
    league: &League,
    steps: &mut ReadCount<L>,
) -> Result<Vec<(EntryId, i32, u32)>, Memory>
    requires profile { seen.now.managers.profile ≡ seen.now.facts.profile }
    requires kept { AreKeptWith seen.now.facts seen.now.managers league.now cells.now }
    requires kind { is_head league.now.kind ≡ false }
    ensures value { IfOk result (λ rows. OfEachBook seen.now.facts seen.now.managers
        (λ entries. rows.items
        ≡ map (classic_row_since seen.now.facts entries league.now.start) league.now.members)) }
    ensures entries { IfOk result (λ rows. map (λ row. row.0) rows.items ≡ league.now.members) }
    ensures differ { AllDiffer league.now.members }
    ensures cost { steps.new ≤ steps.old + 2 * length league.now.members }
{
    let mut rows = Vec::with_capacity(alloc, league.members().len())?;
    for member in league.members() {
        let row = classic_row(seen, cells, *member, league.start(), steps);
        rows.push(row)?;
    }
    Ok(rows)
}

// A row with the name of its entry.
fn ranked_shown<L: Ledger>(seen: &Seen<L>, row: &Ranked) -> Result<ShownRanked, Memory>
    requires { row.now.entry ≤ length seen.now.managers.managers }
    ensures { IfOk result
        (λ shown. OfEachNames seen.now.managers (λ entries. shown ≡ ranked_shown entries row.now)) }
{
    Ok(ShownRanked {
        row: *row,
        name: name_of(seen, row.entry)?,
    })
}

// The rows with the names of their entries.
fn classic_named<L: Ledger>(
    alloc: Global,
    seen: &Seen<L>,
    table: &[Ranked],
) -> Result<ListOf<ShownRanked>, Memory>
    requires { All (λ row. row.entry ≤ length seen.now.managers.managers) table.now }
    ensures { IfOk result
        (λ shown. OfEachNames seen.now.managers
        (λ entries. shown ≡ map (ranked_shown entries) table.now)) }
{
    let mut shown = ListOf::with_room(alloc, table.len())?;
    for row in table {
        shown.push(ranked_shown(seen, row)?)?;
    }
    Ok(shown)
}

/// A classic league with its table.
pub fn classic<L: Ledger>(
    alloc: Global,
    seen: &Seen<L>,
    cells: &SeenCells<L>,
    league: &League,
    steps: &mut ReadCount<L>,
) -> Result<ShownClassic, Memory>
    requires profile { seen.now.managers.profile ≡ seen.now.facts.profile }
    requires kept { AreKeptWith seen.now.facts seen.now.managers league.now cells.now }
    requires kind { is_head league.now.kind ≡ false }
    requires issued { AreIssued seen.now.managers league.now.members }
    ensures value { IfOk result (λ shown. OfEachBook seen.now.facts seen.now.managers
        (λ entries. shown ≡ classic_shown seen.now.facts entries league.now)) }
    ensures cost { steps.new ≤ steps.old + 2 * length league.now.members }
{
    let rows = classic_rows(alloc, seen, cells, league, steps)?;
    let table = rank_classic(alloc, &rows)?;
    Ok(ShownClassic {
        name: league.name().copy()?,
        start: league.start(),
        rows: classic_named(alloc, seen, &table)?,
    })
}
