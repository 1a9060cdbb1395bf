// The nodes of head-to-head leagues: the nodes of which they are inputs.
ghost use Rattle.std.specs.Prelude.{◌≡◌, ◌<◌, ◌++◌, ℕ, IfOk, IfSome, length};
ghost use Rattle.std.specs.Option.{option_to_list};
ghost use Rattle.rule_book.specs.declared.pairing.Opponent.{Opponent};
ghost use Rattle.season_nodes.specs.BookFacts.{facts_of};
ghost use Rattle.season_nodes.specs.Dependents.{average_dependents, average_if, is_average, match_dependents, opponent_dependents, place_in, round_dependents};
ghost use Rattle.season_nodes.specs.Rounds.{order_in};
ghost use Rattle.season_nodes.specs.Season.{match_node, opponent_in};
ghost use Rattle.season_nodes.specs.declared.nodes.Node.{Node};

use fpl_base::{EntryId, Gw, LeagueId, Memory};
use rule_book::Opponent;
use season_nodes::{Books, Node};
use std::alloc::Global;

// These nodes with one more behind them, if it is there.
pub(crate) fn with_node(mut found: Vec<Node>, more: Option<Node>) -> Result<Vec<Node>, Memory>
    ensures { IfOk result (λ ns. ns.items ≡ found.items ++ option_to_list more) }
{
    if let Some(node) = more {
        found.push(node)?;
    }
    Ok(found)
}

// The place of an entry in the order of a league that has a round in a gameweek.
fn place_in(books: &Books, entry: EntryId, gameweek: Gw, league: LeagueId) -> Option<usize>
    ensures value { result ≡ place_in (facts_of books.now) entry gameweek league }
    ensures within { IfSome result
        (λ place. place < length (order_in books.now.leagues.now league)) }
{
    if books.has_round(league, gameweek) {
        books.place(league, entry)
    } else {
        None
    }
}

// The match of a place of the order of a league in a gameweek.
fn match_node(books: &Books, league: LeagueId, place: usize, gameweek: Gw) -> Node
    requires { place < length (order_in books.now.leagues.now league) }
    ensures { result ≡ match_node (facts_of books.now) league place gameweek }
{
    Node::Match(league, gameweek, books.lower(league, gameweek, place))
}

// The Average of a league in a gameweek, if it plays.
fn average_if(books: &Books, league: LeagueId, gameweek: Gw) -> Option<Node>
    ensures { option_to_list result ≡ average_if (facts_of books.now) league gameweek }
{
    if books.has_average(league) {
        Some(Node::Average(league, gameweek))
    } else {
        None
    }
}

// These nodes, and what a league has of an entry's gameweek: its match, and the Average.
pub(crate) fn with_round(
    mut found: Vec<Node>,
    books: &Books,
    entry: EntryId,
    gameweek: Gw,
    league: LeagueId,
) -> Result<Vec<Node>, Memory>
    ensures { IfOk result
        (λ ns. ns.items
        ≡ found.items ++ round_dependents (facts_of books.now) entry gameweek league) }
{
    let Some(place) = place_in(books, entry, gameweek, league) else {
        return Ok(found);
    };
    found.push(match_node(books, league, place, gameweek))?;
    let found = with_node(found, average_if(books, league, gameweek))?;
    Ok(found)
}

// Whether a place of the order of a league meets the Average in a gameweek.
fn meets_average(books: &Books, league: LeagueId, gameweek: Gw, place: usize) -> bool
    requires { place < length (order_in books.now.leagues.now league) }
    ensures { result ≡ is_average (opponent_in (facts_of books.now) league gameweek place) }
{
    match books.opponent(league, gameweek, place) {
        Opponent::Place(_) => false,
        Opponent::Average => true,
    }
}

// The nodes of which the Average of a league in a gameweek is an input: the match of whom it meets.
pub(crate) fn average_dependents(
    books: &Books,
    alloc: Global,
    league: LeagueId,
    gameweek: Gw,
) -> Result<Vec<Node>, Memory>
    ensures { IfOk result
        (λ ns. ns.items ≡ average_dependents (facts_of books.now) league gameweek) }
{
    let mut found = Vec::new(alloc);
    for place in 0..books.order(league).len() {
        if meets_average(books, league, gameweek, place) {
            found.push(Node::Match(league, gameweek, place as u8))?;
        }
    }
    Ok(found)
}

// The row of an opponent in a league; none of the Average.
fn opponent_row(books: &Books, league: LeagueId, opponent: Opponent) -> Option<Node>
    requires there { (j : ℕ) → opponent ≡ Opponent.Place j
        → j < length (order_in books.now.leagues.now league) }
    ensures { option_to_list result ≡ opponent_dependents (facts_of books.now) league opponent }
{
    match opponent {
        Opponent::Place(other) => Some(Node::HeadRow(league, books.order(league)[other])),
        Opponent::Average => None,
    }
}

// The rows of the two of a match.
fn pair_rows(
    books: &Books,
    alloc: Global,
    league: LeagueId,
    gameweek: Gw,
    place: usize,
) -> Result<Vec<Node>, Memory>
    requires { place < length (order_in books.now.leagues.now league) }
    ensures { IfOk result
        (λ ns. ns.items ≡ match_dependents (facts_of books.now) league gameweek place) }
{
    let mut found = Vec::new(alloc);
    found.push(Node::HeadRow(league, books.order(league)[place]))?;
    let opponent = books.opponent(league, gameweek, place);
    let found = with_node(found, opponent_row(books, league, opponent))?;
    Ok(found)
}

// The nodes of which a match of a league in a gameweek is an input: the rows of the two who meet.
pub(crate) fn match_dependents(
    books: &Books,
    alloc: Global,
    league: LeagueId,
    gameweek: Gw,
    place: u8,
) -> Result<Vec<Node>, Memory>
    ensures { place < length (order_in books.now.leagues.now league) → IfOk result
        (λ ns. ns.items ≡ match_dependents (facts_of books.now) league gameweek place) }
{
    let place = usize::from(place);
    if place >= books.order(league).len() {
        return Ok(Vec::new(alloc));
    }
    let found = pair_rows(books, alloc, league, gameweek, place)?;
    Ok(found)
}
