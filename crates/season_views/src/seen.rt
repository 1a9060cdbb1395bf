// A running season as a view sees it.
ghost use Rattle.std.specs.Prelude.{◌≡◌, ◌≤◌, ◌+◌, ℕ, IfOk, List, Some, length, option_copied};
ghost use Rattle.std.specs.List.{zip};
ghost use Rattle.fpl_base.specs.declared.kinds.Position.{Position};
ghost use Rattle.rule_book.specs.Calendar.{fixture_of};
ghost use Rattle.rule_book.specs.Entries.{entry_in};
ghost use Rattle.rule_book.specs.History.{Event};
ghost use Rattle.rule_book.specs.HistoryRules.{FirstTold};
ghost use Rattle.rule_book.specs.HistoryTeam.{TeamTold};
ghost use Rattle.rule_book.specs.HistoryTransfers.{FreeTold, cost_at, counted_through, swaps_in};
ghost use Rattle.rule_book.specs.MatchFacts.{has_facts, is_finished, lines_of, players_in};
ghost use Rattle.rule_book.specs.Players.{player_of};
ghost use Rattle.rule_book.specs.UpTo.{start_of};
ghost use Rattle.season_ledger.specs.Rows.{first_in};
ghost use Rattle.season_ledger.specs.Stands.{StandsFor};
ghost use Rattle.manager_book.specs.Managers.{name_of, sales_of, season_of};
ghost use Rattle.season_nodes.specs.Held.{held_values};
ghost use Rattle.season_book.specs.Book.{EntryFacts};
ghost use Rattle.season_views.specs.Seen.{OfEachSeen};

use fpl_base::{EntryId, FixtureId, Gw, Memory, Name, PlayerId, Profile, ReadCount};
use leagues_and_cups::{Cups, Leagues};
use manager_book::ManagerBook;
use player_market::Players;
use rule_book::{Fixture, Line, Player, Sale, Team};
use season_book::SharedClubs;
use season_calendar::Calendar;
use season_facts::Season;
use season_graph::{Node, SeasonCells, Value};
use std::marker::{Model, PhantomData};
use std::sync::ledger::Ledger;

/// A running season as a view sees it: what is open in it, and what a view may read by the counter of its caller alone. A
/// view has nothing else of the season, so it reads no line and no row of an entry that is not counted.
#[derive(Drop)]
pub struct Seen<'a, L: Ledger> {
    season: &'a Season,
    managers: &'a ManagerBook,
    leagues: &'a Leagues,
    cups: &'a Cups,
    counter: PhantomData<L>,
}

impl<'a, L: Ledger> Model for Seen<'a, L> {
    ghost use Rattle.season_views.specs.Seen.{SeenSeason};

    ghost Value = { SeenSeason };

    ghost view = { λ s.
        record {
          facts = s.season.now;
          managers = s.managers.now;
          leagues = s.leagues.now;
          cups = s.cups.now;
        } };
}

/// What is open of an entry: its name, and its first gameweek, or `None` where it is not registered.
#[derive(Drop)]
pub struct SeenEntry<'a> {
    pub name: &'a Name,
    pub first: Option<Gw>,
}

impl<'a, L: Ledger> Seen<'a, L> {
    /// This season with its entries, leagues and cups.
    pub fn of(
        season: &'a Season,
        managers: &'a ManagerBook,
        leagues: &'a Leagues,
        cups: &'a Cups,
    ) -> Self
        ensures { result
            ≡ record {
              facts = season.now;
              managers = managers.now;
              leagues = leagues.now;
              cups = cups.now;
            } }
    {
        Seen {
            season,
            managers,
            leagues,
            cups,
            counter: PhantomData,
        }
    }

    /// By which rules the season is played.
    pub fn profile(&self) -> Profile
        ensures { result ≡ self.now.facts.profile }
    {
        self.season.profile()
    }

    /// Its calendar.
    pub fn calendar(&self) -> &Calendar
        ensures { result.now ≡ self.now.facts.calendar }
    {
        self.season.calendar()
    }

    /// The clubs.
    pub fn clubs(&self) -> Result<SharedClubs, Memory>
        ensures { IfOk result (λ clubs. clubs ≡ self.now.facts.clubs) }
    {
        self.season.clubs()
    }

    /// The players.
    pub fn players(&self) -> &Players
        ensures { result.now ≡ self.now.facts.players }
    {
        self.season.players()
    }

    /// The player of this number, if he is there.
    pub fn player(&self, number: u32) -> Option<&Player>
        ensures { option_copied result ≡ player_of self.now.facts.players number }
    {
        self.season.player(number)
    }

    /// How many entries were made.
    pub fn entries(&self) -> u32
        ensures { result ≡ length self.now.managers.managers }
    {
        self.managers.entries()
    }

    /// The name of an entry that was made, and its first gameweek, if it is registered.
    pub fn entry(&self, entry: EntryId) -> SeenEntry<'_>
        requires { entry ≤ length self.now.managers.managers }
        ensures { OfEachSeen self.now
            (λ entries. (row : EntryFacts) → entry_in entries entry ≡ Some row
            → (result.name.now ≡ row.name) × (result.first ≡ start_of row.history)) }
    {
        // The law that the ids of players rise, for the prover.
        let _count = self.season.players().len();
        match self.managers.name(entry) {
            Some(name) => SeenEntry {
                name,
                first: self.managers.first(entry),
            },
            None => unreachable!(),
        }
    }

    /// The name of an entry; `None` where it was not issued.
    pub fn name(&self, entry: EntryId) -> Option<&Name>
        ensures { option_copied result ≡ name_of self.now.managers entry }
    {
        self.managers.name(entry)
    }

    /// The first gameweek of an entry; `None` where it is not registered.
    pub fn first(&self, entry: EntryId) -> Option<Gw>
        ensures rows { result ≡ first_in (season_of self.now.managers entry) }
        ensures history { (position : ℕ → Position) (h : List Event)
            → StandsFor position (season_of self.now.managers entry) h → FirstTold h result }
    {
        self.managers.first(entry)
    }

    /// An entry's team in a gameweek; `None` where it is not registered and before its first gameweek. It is a counted
    /// read, as each of the next three.
    pub fn team_at(&self, entry: EntryId, gameweek: Gw, steps: &mut ReadCount<L>) -> Option<Team>
        ensures counted { steps.new ≡ steps.old + 1 }
        ensures history { (position : ℕ → Position) (h : List Event)
            → StandsFor position (season_of self.now.managers entry) h
            → TeamTold position h gameweek result }
    {
        self.managers.team_at(entry, gameweek, steps)
    }

    /// An entry's free transfers in a gameweek; `None` where they have no number.
    pub fn free(&self, entry: EntryId, gameweek: Gw, steps: &mut ReadCount<L>) -> Option<u8>
        ensures counted { steps.new ≡ steps.old + 1 }
        ensures history { (position : ℕ → Position) (h : List Event)
            → StandsFor position (season_of self.now.managers entry) h
            → FreeTold self.now.managers.profile h gameweek result }
    {
        self.managers.free(entry, gameweek, steps)
    }

    /// What an entry's transfers of a gameweek cost, in points.
    pub fn cost(&self, entry: EntryId, gameweek: Gw, steps: &mut ReadCount<L>) -> u32
        ensures counted { steps.new ≡ steps.old + 1 }
        ensures history { (position : ℕ → Position) (h : List Event)
            → StandsFor position (season_of self.now.managers entry) h
            → result ≡ cost_at self.now.managers.profile h gameweek }
    {
        self.managers.cost(entry, gameweek, steps)
    }

    /// How many of an entry's transfers count in a table, in the gameweeks up to this one.
    pub fn counted_transfers(&self, entry: EntryId, through: u8, steps: &mut ReadCount<L>) -> u32
        ensures counted { steps.new ≡ steps.old + 1 }
        ensures history { (position : ℕ → Position) (h : List Event)
            → StandsFor position (season_of self.now.managers entry) h
            → result ≡ counted_through h through }
    {
        self.managers.counted_transfers(entry, through, steps)
    }

    /// How many transfers an entry made in a gameweek; 0 where it is not registered. It is a counted read.
    pub fn made(&self, entry: EntryId, gameweek: Gw, steps: &mut ReadCount<L>) -> u16
        ensures counted { steps.new ≡ steps.old + 1 }
        ensures history { (position : ℕ → Position) (h : List Event)
            → StandsFor position (season_of self.now.managers entry) h
            → result ≡ swaps_in h gameweek }
    {
        steps.tick();
        match self.managers.manager(entry) {
            Some(manager) => manager.season.made(gameweek),
            None => 0,
        }
    }

    /// The transfers that an entry made, each with its gameweek, in the order of making. Each is one counted read.
    pub fn sales(&self, entry: EntryId, steps: &mut ReadCount<L>) -> &[(Gw, Sale)]
        ensures sales { result.now ≡ sales_of self.now.managers entry }
        ensures counted { steps.new ≡ steps.old + length (sales_of self.now.managers entry) }
    {
        match self.managers.manager(entry) {
            Some(manager) => {
                count_reads(manager.sales.count(), steps);
                manager.sales.as_slice()
            }
            None => &[],
        }
    }

    /// The leagues.
    pub fn leagues(&self) -> &Leagues
        ensures { result.now ≡ self.now.leagues }
    {
        self.leagues
    }

    /// The cups.
    pub fn cups(&self) -> &Cups
        ensures { result.now ≡ self.now.cups }
    {
        self.cups
    }

    /// The fixture of this number, if it is there.
    pub fn fixture(&self, number: u32) -> Option<Fixture>
        ensures { result ≡ fixture_of self.now.facts.calendar number }
    {
        self.season.fixture(number)
    }

    /// Whether a fixture has facts: a line, or the finished mark.
    pub fn has_facts(&self, fixture: FixtureId) -> bool
        ensures { result ≡ has_facts self.now.facts.matches fixture }
    {
        self.season.matches().has_facts(fixture)
    }

    /// Whether a fixture is finished.
    pub fn is_finished(&self, fixture: FixtureId) -> bool
        ensures { result ≡ is_finished self.now.facts.matches fixture }
    {
        self.season.is_finished(fixture)
    }

    /// The players who have a line in a fixture, ascending.
    pub fn players_of(&self, fixture: FixtureId) -> &[PlayerId]
        ensures { result.now ≡ players_in (lines_of self.now.facts.matches fixture) }
    {
        self.season.matches().players_of(fixture)
    }

    /// The players who have a line in a fixture, ascending, and beside them the line of each. Each line is one counted
    /// read.
    pub fn rows(&self, fixture: FixtureId, steps: &mut ReadCount<L>) -> (&[PlayerId], &[Line])
        ensures rows { zip result.0.now result.1.now ≡ lines_of self.now.facts.matches fixture }
        ensures paired { length result.1.now ≡ length result.0.now }
        ensures counted { steps.new ≡ steps.old + length (lines_of self.now.facts.matches fixture) }
    {
        self.season.rows(fixture, steps)
    }
}

// Counts so many reads.
fn count_reads<L: Ledger>(count: usize, steps: &mut ReadCount<L>)
    ensures { steps.new ≡ steps.old + count }
{
    'reads: for _ in 0..count {
        steps.tick();
    }
}

/// The cells of a season as a view reads them: by the counter of its caller alone.
#[derive(Drop)]
pub struct SeenCells<'a, L: Ledger> {
    cells: &'a SeasonCells,
    counter: PhantomData<L>,
}

impl<'a, L: Ledger> Model for SeenCells<'a, L> {
    ghost use Rattle.season_nodes.specs.Held.{SeasonRows};

    ghost Value = { SeasonRows };

    ghost view = { λ s. s.cells.now };
}

impl<'a, L: Ledger> SeenCells<'a, L> {
    /// These cells.
    pub fn of(cells: &'a SeasonCells) -> Self
        ensures { result ≡ cells.now }
    {
        SeenCells {
            cells,
            counter: PhantomData,
        }
    }

    /// The value of a node, by a counted read; `None` where it is not live or was not evaluated yet.
    pub fn get(&self, node: Node, steps: &mut ReadCount<L>) -> Option<&Value>
        ensures value { option_copied result ≡ held_values self.now node }
        ensures cost { steps.new ≡ steps.old + 1 }
    {
        self.cells.get(node, steps)
    }
}
