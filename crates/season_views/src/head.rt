// The table of a head-to-head league.
ghost use Rattle.std.specs.Prelude.{◌≡◌, ◌≤◌, ◌+◌, ℕ, All, IfOk, Some, length, map};
ghost use Rattle.rule_book.specs.Entries.{entry_in};
ghost use Rattle.rule_book.specs.LeagueRows.{head_rows};
ghost use Rattle.rule_book.specs.Ranks.{AllDiffer};
ghost use Rattle.season_book.specs.LeagueViews.{head_ranked_shown, head_shown};
ghost use Rattle.season_graph.specs.Followed.{AreEvaluated};
ghost use Rattle.season_graph.specs.Told.{net_told};
ghost use Rattle.season_nodes.specs.Season.{SeasonFacts};
ghost use Rattle.season_views.specs.Cells.{AreKeptFor};
ghost use Rattle.season_views.specs.Entries.{OfEachBook, OfEachNames};
ghost use Rattle.season_views.specs.Leagues.{AreIssued};

use crate::names::name_of;
use crate::reading::head_held;
use crate::seen::{Seen, SeenCells};
use fpl_base::{EntryId, LeagueId, ListOf, Memory, ReadCount};
use leagues_and_cups::{League, rank_head_to_head};
use rule_book::{HeadRanked, HeadScore};
use season_book::{ShownHead, ShownHeadRanked};
use season_ledger::rows_tell;
use std::alloc::Global;
use std::sync::ledger::Ledger;

/// A row for each member, by what its cell has of its matches.
pub fn head_rows<L: Ledger>(
    alloc: Global,
    cells: &SeenCells<L>,
    id: LeagueId,
    league: &League,
    steps: &mut ReadCount<L>,
) -> Result<Vec<(EntryId, HeadScore)>, Memory>
    ensures value { IfOk result
        (λ rows. (b : SeasonFacts) → AreEvaluated b cells.now
        → entry_in b.leagues id ≡ Some league.now
        → rows.items ≡ head_rows (net_told b) b.calendar.locked league.now) }
    ensures entries { IfOk result (λ rows. map (λ row. row.0) rows.items ≡ league.now.members) }
    ensures differ { AllDiffer league.now.members }
    ensures cost { steps.new ≤ steps.old + length league.now.members }
{
    let mut rows = Vec::with_capacity(alloc, league.members().len())?;
    for member in league.members() {
        let score = head_held(cells, id, *member, steps);
        rows.push((*member, score))?;
    }
    Ok(rows)
}

// A row with the name of its entry.
fn ranked_shown<L: Ledger>(seen: &Seen<L>, row: &HeadRanked) -> Result<ShownHeadRanked, Memory>
    requires { row.now.entry ≤ length seen.now.managers.managers }
    ensures { IfOk result
        (λ shown. OfEachNames seen.now.managers (λ entries. shown ≡ head_ranked_shown entries row.now)) }
{
    Ok(ShownHeadRanked {
        row: *row,
        name: name_of(seen, row.entry)?,
    })
}

// The rows with the names of their entries.
fn head_named<L: Ledger>(
    alloc: Global,
    seen: &Seen<L>,
    table: &[HeadRanked],
) -> Result<ListOf<ShownHeadRanked>, Memory>
    requires { All (λ row. row.entry ≤ length seen.now.managers.managers) table.now }
    ensures { IfOk result (λ shown. OfEachNames seen.now.managers
        (λ entries. shown ≡ map (head_ranked_shown entries) table.now)) }
{
    let mut shown = ListOf::with_room(alloc, table.len())?;
    for row in table {
        shown.push(ranked_shown(seen, row)?)?;
    }
    Ok(shown)
}

/// A head-to-head league with its table.
pub fn head<L: Ledger>(
    alloc: Global,
    seen: &Seen<L>,
    cells: &SeenCells<L>,
    id: LeagueId,
    league: &League,
    steps: &mut ReadCount<L>,
) -> Result<ShownHead, Memory>
    requires profile { seen.now.managers.profile ≡ seen.now.facts.profile }
    requires kept { AreKeptFor seen.now.facts seen.now.managers id league.now cells.now }
    requires issued { AreIssued seen.now.managers league.now.members }
    ensures value { IfOk result (λ shown. OfEachBook seen.now.facts seen.now.managers
        (λ entries. shown ≡ head_shown seen.now.facts entries league.now)) }
    ensures cost { steps.new ≤ steps.old + length league.now.members }
{
    // The law that rows tell what their histories do, and that the ids of players rise, for the prover.
    rows_tell();
    let _count = seen.players().len();
    let rows = head_rows(alloc, cells, id, league, steps)?;
    let table = rank_head_to_head(alloc, &rows)?;
    Ok(ShownHead {
        name: league.name().copy()?,
        start: league.start(),
        rows: head_named(alloc, seen, &table)?,
    })
}
