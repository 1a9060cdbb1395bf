// Cells that are brought to the values that the rule book tells.
ghost use Rattle.std.specs.Prelude.{◌≤◌, ◌+◌, IfOk, OnOk};
ghost use Rattle.std.specs.List.{sum_by};
ghost use Rattle.season_nodes.specs.BookFacts.{facts_of};
ghost use Rattle.season_graph.specs.Followed.{AreEvaluated, AreSound, HasRemained, HasSettled};
ghost use Rattle.season_nodes.specs.IndexFacts.{IsIndex, holders_in};
ghost use Rattle.season_nodes.specs.Season.{IsSeason, weight_of};

use crate::indexing::index_gameweeks;
use crate::laws::replay_is_told;
use crate::parts::{Part, refresh};
use fpl_base::{Memory, ReadCount};
use rescore_graph::{Cells, Report};
use season_nodes::{Books, Index, Node};
use season_rules::{SeasonCells, SeasonRules};
use std::alloc::Global;
use std::sync::ledger::Ledger;

/// Evaluates what changed, and what depends on it; then each cell holds what the rule book tells of its node. The cells
/// have to follow the books, which each call of a change is for. After want of memory a further call goes on.
pub fn settle_season<L: Ledger>(
    cells: &mut SeasonCells,
    rules: &SeasonRules,
    steps: &mut ReadCount<L>,
) -> Result<Report<Node>, Memory>
    requires season { IsSeason (facts_of rules.now.books) }
    requires index { IsIndex (facts_of rules.now.books) (holders_in rules.now.index.now) }
    requires sound { AreSound (facts_of rules.now.books) cells.old }
    ensures evaluated { OnOk result (AreEvaluated (facts_of rules.now.books) cells.new) }
    ensures settled { IfOk result
        (λ report. HasSettled (facts_of rules.now.books) cells.old cells.new report.evaluated) }
    ensures cost { IfOk result
        (λ report. steps.new ≤ steps.old + sum_by weight_of report.evaluated) }
    ensures remains { HasRemained (facts_of rules.now.books) cells.old cells.new }
{
    let report = cells.settle(rules, steps)?;
    replay_is_told(rules);
    Ok(report)
}

/// The cells of these books, made from nothing and evaluated, and who holds whom by them.
pub fn evaluate_all<L: Ledger>(
    alloc: Global,
    books: &Books,
    steps: &mut ReadCount<L>,
) -> Result<(SeasonCells, Index), Memory>
    requires { IsSeason (facts_of books.now) }
    ensures cells { IfOk result (λ made. AreEvaluated (facts_of books.now) made.0) }
    ensures index { IfOk result (λ made. IsIndex (facts_of books.now) (holders_in made.1)) }
{
    let index = index_all(alloc, books)?;
    let cells = cells_of(alloc, books, &index, steps)?;
    Ok((cells, index))
}

// Who holds whom in the locked gameweeks.
fn index_all(alloc: Global, books: &Books) -> Result<Index, Memory>
    ensures { IfOk result (λ index. IsIndex (facts_of books.now) (holders_in index)) }
{
    let mut index = Index::new(alloc);
    index_gameweeks(&mut index, books, 0)?;
    Ok(index)
}

// The cells of these books, evaluated.
fn cells_of<L: Ledger>(
    alloc: Global,
    books: &Books,
    index: &Index,
    steps: &mut ReadCount<L>,
) -> Result<SeasonCells, Memory>
    requires season { IsSeason (facts_of books.now) }
    requires index { IsIndex (facts_of books.now) (holders_in index.now) }
    ensures { IfOk result (λ cells. AreEvaluated (facts_of books.now) cells) }
{
    let rules = SeasonRules {
        books: Books {
            profile: books.profile,
            calendar: books.calendar,
            players: books.players,
            matches: books.matches,
            managers: books.managers,
            leagues: books.leagues,
            cups: books.cups,
        },
        index,
    };
    let mut cells = Cells::new(alloc);
    refresh(&mut cells, books, &Part::All, true)?;
    settle_season(&mut cells, &rules, steps)?;
    Ok(cells)
}
