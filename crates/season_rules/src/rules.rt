// The rules by which the nodes of a season have values.
ghost use Rattle.std.specs.Prelude.{◌≡◌, ◌+◌, ◌≤◌, ◌&&◌, nat_le, IfOk, IsTrue, ◌↔◌};
ghost use Rattle.season_nodes.specs.BookFacts.{facts_of};
ghost use Rattle.season_nodes.specs.Dependents.{live_gameweek, line_dependents, bonus_affected, bonus_dependents, gameweek_dependents, table_dependents, team_dependents, total_dependents};
ghost use Rattle.season_nodes.specs.IndexFacts.{IsIndex, holders_in};
ghost use Rattle.season_nodes.specs.NodeOrder.{node_exact};
ghost use Rattle.season_nodes.specs.Season.{IsSeason, season_graph, starts_of};
ghost use Rattle.season_nodes.specs.SeasonLaws.{season_lawful};
ghost use Rattle.season_nodes.specs.declared.nodes.Node.{Node};

use crate::heads::{average_points, head_row, match_scores};
use crate::rounds::{average_dependents, match_dependents, with_round};
use crate::teams::team_gameweek;
use crate::ties::{cup_dependents, tie_dependents};
use crate::totals::total;
use crate::winners::tie_winner;
use crate::worth::{bonus_in, bonuses, gameweek_figures, line_worth};
use fpl_base::{CupId, EntryId, FixtureId, Gw, Memory, PlayerId, ReadCount};
use rescore_graph::{Cells, Rules};
use season_nodes::{
    AveragePoints, Books, GameweekFigures, GameweekScore, Index, Node, Value, is_same,
};
use std::alloc::Global;
use std::sync::ledger::Ledger;

/// The cells of a season.
pub type SeasonCells = Cells<Node, Value>;

// The gameweek of a player in which a fixture stands, if it is live.
fn live_gameweek(books: &Books, player: PlayerId, fixture: FixtureId) -> Option<Gw>
    ensures { result ≡ live_gameweek (facts_of books.now) player fixture }
{
    let gameweek = books.calendar.stands_in(fixture)?;
    if books.has_gameweek(player, gameweek) {
        Some(gameweek)
    } else {
        None
    }
}

// The nodes of which a line is an input.
fn line_dependents(
    books: &Books,
    alloc: Global,
    fixture: FixtureId,
    player: PlayerId,
) -> Result<Vec<Node>, Memory>
    ensures { IfOk result
        (λ ns. ns.items ≡ line_dependents (facts_of books.now) fixture player) }
{
    let mut found = Vec::new(alloc);
    found.push(Node::Bonus(fixture))?;
    if let Some(gameweek) = live_gameweek(books, player, fixture) {
        found.push(Node::PlayerGw(player, gameweek))?;
    }
    Ok(found)
}

// The nodes of which the bonus of a fixture is an input.
fn bonus_dependents(books: &Books, alloc: Global, fixture: FixtureId) -> Result<Vec<Node>, Memory>
    ensures { IfOk result (λ ns. ns.items ≡ bonus_dependents (facts_of books.now) fixture) }
{
    let players = books.matches.players_of(fixture);
    let mut found = Vec::with_capacity(alloc, players.len())?;
    for player in players {
        if let Some(gameweek) = live_gameweek(books, *player, fixture) {
            found.push(Node::PlayerGw(*player, gameweek))?;
        }
    }
    Ok(found)
}

// Those of them to whom it matters that it had the one value and has the other: the gameweeks of the players whom the two
// give different bonuses.
fn bonus_affected(
    books: &Books,
    alloc: Global,
    fixture: FixtureId,
    old: &Value,
    new: &Value,
) -> Result<Vec<Node>, Memory>
    ensures { IfOk result
        (λ ns. ns.items ≡ bonus_affected (facts_of books.now) fixture old.now new.now) }
{
    let players = books.matches.players_of(fixture);
    let mut found = Vec::new(alloc);
    for player in players {
        if bonus_in(Some(old), *player) != bonus_in(Some(new), *player) {
            if let Some(gameweek) = live_gameweek(books, *player, fixture) {
                found.push(Node::PlayerGw(*player, gameweek))?;
            }
        }
    }
    Ok(found)
}

// The nodes of which a player's gameweek is an input: the gameweeks of the entries that hold him there.
fn gameweek_dependents(
    index: &Index,
    alloc: Global,
    player: PlayerId,
    gameweek: Gw,
) -> Result<Vec<Node>, Memory>
    ensures { IfOk result
        (λ ns. ns.items ≡ gameweek_dependents (holders_in index.now player gameweek) gameweek) }
{
    let holders = index.holders(player, gameweek);
    let mut found = Vec::with_capacity(alloc, holders.len())?;
    for entry in holders {
        found.push(Node::TeamGw(*entry, gameweek))?;
    }
    Ok(found)
}

// The gameweeks from which an entry has a total.
fn starts_of(books: &Books, alloc: Global, entry: EntryId) -> Result<Vec<Gw>, Memory>
    ensures { IfOk result (λ starts. starts.items ≡ starts_of (facts_of books.now) entry) }
{
    let Some(first) = Gw::new(1) else {
        unreachable!()
    };
    let mut starts = Vec::new(alloc);
    starts.push(first)?;
    for league in books.leagues.leagues_of(entry) {
        if let Some(start) = books.classic_start(*league) {
            starts.push(start)?;
        }
    }
    Ok(starts)
}

// Whether a gameweek is another or one before it.
fn starts_by(start: Gw, gameweek: Gw) -> bool
    ensures { result ≡ (nat_le 1 start && nat_le start gameweek) }
{
    start.get() <= gameweek.get()
}

// The totals of an entry from a gameweek or from one before it on.
fn total_dependents(
    books: &Books,
    alloc: Global,
    entry: EntryId,
    gameweek: Gw,
) -> Result<Vec<Node>, Memory>
    ensures { IfOk result
        (λ ns. ns.items ≡ total_dependents (facts_of books.now) entry gameweek) }
{
    let starts = starts_of(books, alloc, entry)?;
    let mut found = Vec::new(alloc);
    for start in &starts {
        if starts_by(*start, gameweek) {
            found.push(Node::Total(entry, *start))?;
        }
    }
    Ok(found)
}

// The nodes of which an entry's gameweek is an input, but for ties: its totals from that one or from one before it on, and
// what its leagues have of it.
fn table_dependents(
    books: &Books,
    alloc: Global,
    entry: EntryId,
    gameweek: Gw,
) -> Result<Vec<Node>, Memory>
    ensures { IfOk result
        (λ ns. ns.items ≡ table_dependents (facts_of books.now) entry gameweek) }
{
    let mut found = total_dependents(books, alloc, entry, gameweek)?;
    for league in books.leagues.leagues_of(entry) {
        found = with_round(found, books, entry, gameweek, *league)?;
    }
    Ok(found)
}

// The nodes of which an entry's gameweek is an input: these, and the ties that the entry can reach there.
fn team_dependents(
    books: &Books,
    alloc: Global,
    entry: EntryId,
    gameweek: Gw,
) -> Result<Vec<Node>, Memory>
    ensures { IfOk result
        (λ ns. ns.items ≡ team_dependents (facts_of books.now) entry gameweek) }
{
    let mut found = table_dependents(books, alloc, entry, gameweek)?;
    for number in 0..books.cups.count() {
        let cup = CupId::new(number + 1).unwrap();
        let mut more = cup_dependents(books, alloc, entry, gameweek, cup)?;
        found.append(&mut more)?;
    }
    Ok(found)
}

// The level of a tie: above that of the entries' gameweeks, and of the round before. A cup has ten rounds at most.
fn tie_level(round: u8) -> u8
    ensures { round ≤ 10 → result ≡ 4 + round }
{
    round.saturating_add(4)
}

/// The rules by which the nodes of a season have values.
#[derive(Drop)]
pub struct SeasonRules<'a> {
    /// Of these books.
    pub books: Books<'a>,
    /// Who holds a player in a locked gameweek, by these books.
    pub index: &'a Index,
}

impl Rules for SeasonRules<'_> {
    type Node = Node;

    type Value = Value;

    ghost in_order = { λ r. IsSeason (facts_of r.books)
        × IsIndex (facts_of r.books) (holders_in r.index.now) };

    ghost graph = { λ r. season_graph (facts_of r.books) };

    fn level(&self, n: Node) -> u8 {
        match n {
            Node::Line(..) => 0,
            Node::Bonus(_) => 1,
            Node::PlayerGw(..) => 2,
            Node::TeamGw(..) => 3,
            Node::Total(..) => 4,
            Node::Average(..) => 4,
            Node::Match(..) => 5,
            Node::HeadRow(..) => 6,
            Node::Tie(_, round, _) => tie_level(round),
        }
    }

    fn dependents(&self, alloc: Global, n: Node) -> Result<Vec<Node>, Memory> {
        match n {
            Node::Line(fixture, player) => {
                Ok(line_dependents(&self.books, alloc, fixture, player)?)
            }
            Node::Bonus(fixture) => Ok(bonus_dependents(&self.books, alloc, fixture)?),
            Node::PlayerGw(player, gameweek) => {
                Ok(gameweek_dependents(self.index, alloc, player, gameweek)?)
            }
            Node::TeamGw(entry, gameweek) => {
                Ok(team_dependents(&self.books, alloc, entry, gameweek)?)
            }
            Node::Total(..) => Ok(Vec::new(alloc)),
            Node::Average(league, gameweek) => {
                Ok(average_dependents(&self.books, alloc, league, gameweek)?)
            }
            Node::Match(league, gameweek, place) => {
                Ok(match_dependents(&self.books, alloc, league, gameweek, place)?)
            }
            Node::HeadRow(..) => Ok(Vec::new(alloc)),
            Node::Tie(cup, round, place) => {
                Ok(tie_dependents(&self.books, alloc, cup, round, place)?)
            }
        }
    }

    // Of a bonus alone they are fewer than the dependents.
    fn affected(
        &self,
        alloc: Global,
        n: Node,
        old: &Value,
        new: &Value,
    ) -> Result<Vec<Node>, Memory> {
        match n {
            Node::Bonus(fixture) => Ok(bonus_affected(&self.books, alloc, fixture, old, new)?),
            _ => Ok(self.dependents(alloc, n)?),
        }
    }

    fn eval<L: Ledger>(
        &self,
        alloc: Global,
        n: Node,
        cells: &SeasonCells,
        steps: &mut ReadCount<L>,
    ) -> Result<Value, Memory> {
        match n {
            Node::Line(fixture, player) => {
                Ok(Value::Line(line_worth(&self.books, fixture, player, steps)))
            }
            Node::Bonus(fixture) => {
                Ok(Value::Bonus(bonuses(&self.books, alloc, fixture, cells, steps)?))
            }
            Node::PlayerGw(player, gameweek) => {
                let figures = gameweek_figures(&self.books, player, gameweek, cells, steps);
                Ok(Value::PlayerGw(GameweekFigures::new(figures)))
            }
            Node::TeamGw(entry, gameweek) => {
                let score = team_gameweek(&self.books, entry, gameweek, cells, steps);
                Ok(Value::TeamGw(GameweekScore::new(score)))
            }
            Node::Total(entry, start) => {
                Ok(Value::Total(total(&self.books, entry, start, cells, steps)))
            }
            Node::Average(league, gameweek) => {
                let points = average_points(&self.books, alloc, league, gameweek, cells, steps)?;
                Ok(Value::Average(AveragePoints::new(points)))
            }
            Node::Match(league, gameweek, place) => {
                let place = usize::from(place);
                let scores = match_scores(&self.books, league, gameweek, place, cells, steps);
                Ok(Value::Match(scores))
            }
            Node::HeadRow(league, entry) => {
                let score = head_row(&self.books, alloc, league, entry, cells, steps)?;
                Ok(Value::HeadRow(score))
            }
            Node::Tie(cup, round, place) => {
                let winner = tie_winner(&self.books, cup, round, place, cells, steps);
                Ok(Value::Tie(winner))
            }
        }
    }

    fn same(a: &Value, b: &Value) -> bool
        ensures { IsTrue result ↔ (a.now ≡ b.now) }
    {
        is_same(a, b)
    }

    ghost lawful = { λ r o. season_lawful (facts_of r.books) o.0 };

    ghost exact = { node_exact };
}
