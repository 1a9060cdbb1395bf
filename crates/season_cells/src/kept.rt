// The cells of a season, its managers, its leagues and its cups.
ghost use Rattle.std.specs.Prelude.{◌≡◌, ℕ, IfOk, OnOk};
ghost use Rattle.rule_book.specs.MatchFacts.{lines_of, players_in};
ghost use Rattle.season_graph.specs.Changes.{DifferInLocks};
ghost use Rattle.season_nodes.specs.BookFacts.{facts_of};
ghost use Rattle.season_nodes.specs.Held.{held};
ghost use Rattle.season_nodes.specs.IndexFacts.{IsIndex, holders_in};
ghost use Rattle.season_nodes.specs.Season.{IsSeason, Rising, SeasonFacts};
ghost use Rattle.season_cells.specs.Correcting.{AreRaised, IsCheap, IsCorrected};
ghost use Rattle.season_views.specs.Cells.{books_seen};
ghost use Rattle.season_cells.specs.Kept.{AreCellsOf};
ghost use Rattle.season_cells.specs.Leading.{DifferAs, LeadsTo};

use crate::plan::Plan;
use fpl_base::{Memory, ReadCount};
use leagues_and_cups::{Cups, Leagues};
use manager_book::ManagerBook;
use match_facts::MatchFacts;
use season_facts::Season;
use season_graph::{
    Books, Index, SeasonCells, SeasonRules, books_alike, evaluate_all, fact_changed, fixture_moved,
    gameweeks_locked, index_stays, league_changed, mark_changed, player_added, settle_season,
    sheet_changed,
};
use season_nodes::{cups_are_brackets, orders_are_of_members};
use std::alloc::Global;
use std::marker::Model;
use std::sync::ledger::Ledger;

/// The cells of a season, its managers, its leagues and its cups, with who holds whom in the locked gameweeks. After want of
/// memory in a call that changes them they are those of no season, and have to be made anew.
#[derive(Drop)]
pub struct KeptCells {
    cells: SeasonCells,
    index: Index,
}

impl Model for KeptCells {
    ghost use Rattle.season_cells.specs.Kept.{CellRows};

    ghost Value = { CellRows };

    ghost view = { λ k. record { cells = k.cells; index = k.index } };
}

// The books of a season, its managers, its leagues and its cups, lent.
fn books_of<'a>(
    season: &'a Season,
    managers: &'a ManagerBook,
    leagues: &'a Leagues,
    cups: &'a Cups,
) -> Books<'a>
    ensures { facts_of result ≡ books_seen season.now managers.now leagues.now cups.now }
{
    Books {
        profile: season.profile(),
        calendar: season.calendar(),
        players: season.players(),
        matches: season.matches(),
        managers,
        leagues,
        cups,
    }
}

// The law that the players of each fixture's lines rise, which each single fixture tells.
fn rising(matches: &MatchFacts)
    ensures { (f : ℕ) → Rising (players_in (lines_of matches.now f)) }
{
    for fixture in matches.fixtures() {
        // That the players of this one do, for the prover.
        let _players = matches.players_of(*fixture);
    }
}

impl KeptCells {
    /// The cells of a season, its managers, its leagues and its cups, made of them alone.
    pub fn anew<L: Ledger>(
        alloc: Global,
        season: &Season,
        managers: &ManagerBook,
        leagues: &Leagues,
        cups: &Cups,
        steps: &mut ReadCount<L>,
    ) -> Result<Self, Memory>
        ensures { IfOk result
            (λ kept. AreCellsOf (books_seen season.now managers.now leagues.now cups.now) kept) }
    {
        // The laws by which the facts are those of a season, for the prover.
        season.keeps_facts();
        rising(season.matches());
        orders_are_of_members(leagues);
        cups_are_brackets(cups);
        let books = books_of(season, managers, leagues, cups);
        let (cells, index) = evaluate_all(alloc, &books, steps)?;
        Ok(KeptCells { cells, index })
    }

    /// The cells themselves.
    pub fn cells(&self) -> &SeasonCells
        ensures { result.now ≡ self.now.cells }
    {
        &self.cells
    }

    /// Follows a command that changed what its plan says, and evaluates what hangs on that.
    pub fn follow<L: Ledger>(
        &mut self,
        plan: &Plan,
        season: &Season,
        managers: &ManagerBook,
        leagues: &Leagues,
        cups: &Cups,
        steps: &mut ReadCount<L>,
    ) -> Result<(), Memory>
        ghost before: { SeasonFacts }
        requires cells { AreCellsOf before self.old }
        requires leads { LeadsTo before
            (books_seen season.now managers.now leagues.now cups.now) plan.now }
        ensures cells { OnOk result
            (AreCellsOf (books_seen season.now managers.now leagues.now cups.now) self.new) }
        ensures corrected { OnOk result
            (IsCorrected before
            (books_seen season.now managers.now leagues.now cups.now) self.old.cells
            self.new.cells) }
        ensures cost { OnOk result
            (IsCheap before
            (books_seen season.now managers.now leagues.now cups.now) steps.old steps.new) }
    {
        // The law that the index stays right where no gameweek is locked, for the prover.
        index_stays();
        let rules = SeasonRules {
            books: books_of(season, managers, leagues, cups),
            index: &self.index,
        };
        mark(&mut self.cells, &rules, plan)?;
        settle_season(&mut self.cells, &rules, steps)?;
        Ok(())
    }

    /// Follows a moment that locked gameweeks, and evaluates what hangs on that. `first` is how many were locked before.
    pub fn follow_locks<L: Ledger>(
        &mut self,
        first: u8,
        season: &Season,
        managers: &ManagerBook,
        leagues: &Leagues,
        cups: &Cups,
        steps: &mut ReadCount<L>,
    ) -> Result<(), Memory>
        ghost before: { SeasonFacts }
        requires cells { AreCellsOf before self.old }
        requires season { IsSeason (books_seen season.now managers.now leagues.now cups.now) }
        requires locks { DifferInLocks before
            (books_seen season.now managers.now leagues.now cups.now) first }
        ensures cells { OnOk result
            (AreCellsOf (books_seen season.now managers.now leagues.now cups.now) self.new) }
        ensures corrected { OnOk result
            (IsCorrected before
            (books_seen season.now managers.now leagues.now cups.now) self.old.cells
            self.new.cells) }
        ensures cost { OnOk result
            (IsCheap before
            (books_seen season.now managers.now leagues.now cups.now) steps.old steps.new) }
    {
        let books = books_of(season, managers, leagues, cups);
        gameweeks_locked(&mut self.index, &mut self.cells, &books, first)?;
        let rules = SeasonRules {
            books,
            index: &self.index,
        };
        settle_season(&mut self.cells, &rules, steps)?;
        Ok(())
    }
}

// Marks what a change touches.
fn mark(cells: &mut SeasonCells, rules: &SeasonRules, plan: &Plan) -> Result<(), Memory>
    ensures { OnOk result
        ((before : SeasonFacts) → IsSeason before → IsSeason (facts_of rules.now.books)
        → IsIndex (facts_of rules.now.books) (holders_in rules.now.index.now)
        → DifferAs before (facts_of rules.now.books) plan.now
        → AreRaised before (facts_of rules.now.books) (held cells.old) (held cells.new)) }
{
    let books = &rules.books;
    match plan {
        Plan::Nothing => {
            // The law that nothing hangs on what changed, for the prover.
            books_alike(cells, books);
            Ok(())
        }
        Plan::Player(player) => player_added(rules.index, cells, books, *player),
        Plan::Place { fixture, from, to } => fixture_moved(cells, books, *fixture, *from, *to),
        Plan::Line { fixture, player } => fact_changed(cells, books, *fixture, *player),
        Plan::Mark(fixture) => mark_changed(cells, books, *fixture),
        Plan::Sheet {
            fixture,
            players,
            marked,
        } => sheet_changed(cells, books, *fixture, players, *marked),
        Plan::League(league) => league_changed(cells, books, *league),
    }
}
