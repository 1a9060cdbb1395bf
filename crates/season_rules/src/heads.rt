// What the nodes of head-to-head leagues are worth, of what the cells hold of the gameweeks of those who meet.
ghost use Rattle.std.specs.Prelude.{◌≡◌, ◌≤◌, ◌<◌, ◌+◌, ◌-◌, ℕ, All, IfOk, Some, length, map, min, nat_lt, option_copied};
ghost use Rattle.rule_book.specs.FigureRange.{IsWithin};
ghost use Rattle.rule_book.specs.Opponents.{mean_of};
ghost use Rattle.rule_book.specs.declared.pairing.Opponent.{Opponent};
ghost use Rattle.season_nodes.specs.BookFacts.{facts_of};
ghost use Rattle.season_nodes.specs.Held.{held_values};
ghost use Rattle.season_nodes.specs.Rounds.{met, order_in, start_in};
ghost use Rattle.season_nodes.specs.Season.{average_by, average_held, head_by, match_by, matches_by, net_by, points_by, scores_held, seen_from};
ghost use Rattle.season_nodes.specs.declared.nodes.Node.{Node};

use crate::rules::SeasonCells;
use crate::totals::net_in;
use fpl_base::{EntryId, Gw, LeagueId, Memory, ReadCount};
use leagues_and_cups::{average, head_score};
use rule_book::{HeadScore, Opponent};
use season_nodes::{Books, MatchScores, Node, Value, met};
use std::alloc::Global;
use std::sync::ledger::Ledger;

// The points of the Average that a cell holds.
fn average_in(value: Option<&Value>) -> i32
    ensures value { result ≡ average_held (option_copied value.entry) }
    ensures near { IsWithin 18000000 result }
{
    match value {
        Some(Value::Average(points)) => points.get(),
        _ => 0,
    }
}

// What the two of a match scored, by its cell.
fn scores_in(value: Option<&Value>) -> (i32, i32)
    ensures value { result ≡ scores_held (option_copied value.entry) }
    ensures low { IsWithin 18000000 result.0 }
    ensures high { IsWithin 18000000 result.1 }
{
    match value {
        Some(Value::Match(scores)) => scores.get(),
        _ => (0, 0),
    }
}

// The points of an entry in a gameweek by what its cell holds; none where it has not begun.
fn net_of<L: Ledger>(
    books: &Books,
    entry: EntryId,
    gameweek: Gw,
    cells: &SeasonCells,
    steps: &mut ReadCount<L>,
) -> i32
    ensures value { result ≡ net_by (facts_of books.now) (held_values cells.now) entry gameweek }
    ensures near { IsWithin 18000000 result }
    ensures cost { steps.new ≤ steps.old + 1 }
{
    if !books.has_team(entry, gameweek) {
        return 0;
    }
    net_in(cells.get(Node::TeamGw(entry, gameweek), steps))
}

// The points of these entries in a gameweek.
fn nets_of<L: Ledger>(
    books: &Books,
    alloc: Global,
    order: &[EntryId],
    gameweek: Gw,
    cells: &SeasonCells,
    steps: &mut ReadCount<L>,
) -> Result<Vec<i32>, Memory>
    ensures value { IfOk result
        (λ nets. nets.items
        ≡ map (λ e. net_by (facts_of books.now) (held_values cells.now) e gameweek) order.now) }
    ensures near { IfOk result (λ nets. All (IsWithin 18000000) nets.items) }
    ensures cost { steps.new ≤ steps.old + length order.now }
{
    let mut nets = Vec::with_capacity(alloc, order.len())?;
    for entry in order {
        nets.push(net_of(books, *entry, gameweek, cells, steps))?;
    }
    Ok(nets)
}

// The points of the Average among these scores.
fn average_of(scores: &[i32]) -> i32
    requires some { 0 < length scores.now }
    requires few { length scores.now ≤ 64 }
    requires near { All (IsWithin 18000000) scores.now }
    ensures value { result ≡ mean_of scores.now }
    ensures near { IsWithin 18000000 result }
{
    average(scores)
}

// The points of the Average of a league in a gameweek, by what the cells hold of those in its order.
pub(crate) fn average_points<L: Ledger>(
    books: &Books,
    alloc: Global,
    league: LeagueId,
    gameweek: Gw,
    cells: &SeasonCells,
    steps: &mut ReadCount<L>,
) -> Result<i32, Memory>
    requires { 0 < length (order_in books.now.leagues.now league) }
    ensures value { IfOk result
        (λ points. points
        ≡ average_by (facts_of books.now) (held_values cells.now) league gameweek) }
    ensures near { IfOk result (λ points. IsWithin 18000000 points) }
    ensures cost { steps.new ≤ steps.old + 65 }
{
    let nets = nets_of(books, alloc, books.order(league), gameweek, cells, steps)?;
    Ok(average_of(&nets))
}

// The points of an opponent in a gameweek, by what its cell holds or by those of the Average.
fn points_of<L: Ledger>(
    books: &Books,
    league: LeagueId,
    gameweek: Gw,
    opponent: Opponent,
    cells: &SeasonCells,
    steps: &mut ReadCount<L>,
) -> i32
    requires there { (j : ℕ) → opponent ≡ Opponent.Place j
        → j < length (order_in books.now.leagues.now league) }
    ensures value { result
        ≡ points_by (facts_of books.now) (held_values cells.now) league gameweek opponent }
    ensures near { IsWithin 18000000 result }
    ensures cost { steps.new ≤ steps.old + 1 }
{
    match opponent {
        Opponent::Place(other) => {
            net_of(books, books.order(league)[other], gameweek, cells, steps)
        }
        Opponent::Average => average_in(cells.get(Node::Average(league, gameweek), steps)),
    }
}

// What the two of a match scored, by what the cells hold of them.
pub(crate) fn match_scores<L: Ledger>(
    books: &Books,
    league: LeagueId,
    gameweek: Gw,
    place: usize,
    cells: &SeasonCells,
    steps: &mut ReadCount<L>,
) -> MatchScores
    requires { place < length (order_in books.now.leagues.now league) }
    ensures value { result
        ≡ match_by (facts_of books.now) (held_values cells.now) league gameweek place }
    ensures cost { steps.new ≤ steps.old + 2 }
{
    let low = net_of(books, books.order(league)[place], gameweek, cells, steps);
    let opponent = books.opponent(league, gameweek, place);
    let high = points_of(books, league, gameweek, opponent, cells, steps);
    MatchScores::new(low, high)
}

// How many rounds of a league are locked.
pub(crate) fn rounds_of(books: &Books, league: LeagueId) -> u8
    ensures count { result
        ≡ (books.now.calendar.now.locked + 1) - start_in books.now.leagues.now league }
    ensures few { 0 < length (order_in books.now.leagues.now league) → result ≤ 38 }
    ensures inside { (k : ℕ) → k < result → start_in books.now.leagues.now league + k < 39 }
{
    (books.calendar.locked() + 1).saturating_sub(books.start(league))
}

// The match of a place and the one that it meets in a gameweek, from the side of the place, by what its cell holds.
fn seen<L: Ledger>(
    league: LeagueId,
    place: usize,
    met: usize,
    gameweek: Gw,
    cells: &SeasonCells,
    steps: &mut ReadCount<L>,
) -> (i32, i32)
    requires { place < 64 }
    ensures value { result
        ≡ seen_from (nat_lt place met) (scores_held (held_values cells.now (Node.Match league gameweek (min place met)))) }
    ensures near { IsWithin 18000000 result.0 }
    ensures cost { steps.new ≤ steps.old + 1 }
{
    let lower = place.min(met) as u8;
    let (low, high) = scores_in(cells.get(Node::Match(league, gameweek, lower), steps));
    if place < met {
        (low, high)
    } else {
        (high, low)
    }
}

// The matches of a place in the locked gameweeks from the start on. The league is looked up before the rounds, and in none
// of them.
fn matches<L: Ledger>(
    books: &Books,
    alloc: Global,
    league: LeagueId,
    place: usize,
    cells: &SeasonCells,
    steps: &mut ReadCount<L>,
) -> Result<Vec<(i32, i32)>, Memory>
    requires { place < length (order_in books.now.leagues.now league) }
    ensures value { IfOk result
        (λ matches. matches.items
        ≡ matches_by (facts_of books.now) (held_values cells.now) league place) }
    ensures few { IfOk result (λ matches. length matches.items ≤ 38) }
    ensures near { IfOk result (λ matches. All (λ m. IsWithin 18000000 m.0) matches.items) }
    ensures cost { steps.new ≤ steps.old + 38 }
{
    let start = books.start(league);
    let members = books.order(league).len();
    let rounds = rounds_of(books, league);
    let mut matches = Vec::with_capacity(alloc, usize::from(rounds))?;
    for round in 0..rounds {
        let gameweek = Gw::new(start + round).unwrap();
        let met = met(members, round, place);
        matches.push(seen(league, place, met, gameweek, cells, steps))?;
    }
    Ok(matches)
}

// What a member of a head-to-head league has of its matches, by what the cells hold of them.
pub(crate) fn head_row<L: Ledger>(
    books: &Books,
    alloc: Global,
    league: LeagueId,
    entry: EntryId,
    cells: &SeasonCells,
    steps: &mut ReadCount<L>,
) -> Result<HeadScore, Memory>
    ensures value { IfOk result
        (λ score. score ≡ head_by (facts_of books.now) (held_values cells.now) league entry) }
    ensures cost { steps.new ≤ steps.old + 39 }
{
    match books.place(league, entry) {
        Some(place) => Ok(head_score(&matches(books, alloc, league, place, cells, steps)?)),
        None => Ok(head_score(&[])),
    }
}
