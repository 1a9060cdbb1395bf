// Who goes on from the ties of cups, by what the cells hold of those who meet.
ghost use Rattle.std.specs.Prelude.{◌≡◌, ◌<◌, ◌≤◌, ◌+◌, true, Some, option_copied, slice_index};
ghost use Rattle.rule_book.specs.Cups.{coin_after, first_goes_on};
ghost use Rattle.season_nodes.specs.BookFacts.{facts_of};
ghost use Rattle.season_nodes.specs.Brackets.{no_side, side_of, ties_after};
ghost use Rattle.season_nodes.specs.Held.{held_values};
ghost use Rattle.season_nodes.specs.Season.{bracket_of, comer_by, is_played, side_among, side_by, side_held, tie_by, winner_held};

use crate::rules::SeasonCells;
use fpl_base::{CupId, EntryId, Gw, ReadCount};
use leagues_and_cups::tie;
use rule_book::{Side, TeamScore};
use season_nodes::{Books, Node, Value};
use std::sync::ledger::Ledger;

/// Who goes on from a tie, by its cell; 0 where that holds nothing.
pub fn winner_in(value: Option<&Value>) -> u32
    ensures { result ≡ winner_held (option_copied value.entry) }
{
    match value {
        Some(Value::Tie(winner)) => *winner,
        _ => 0,
    }
}

// What one has who has not begun.
fn no_side() -> Side
    ensures { result ≡ no_side }
{
    Side {
        net: 0,
        goals: 0,
        conceded: 0,
    }
}

// What a score gives to a tie.
fn side_of(score: &TeamScore) -> Side
    ensures { result ≡ side_of score.now }
{
    Side {
        net: score.net,
        goals: score.goals,
        conceded: score.conceded,
    }
}

// What an entry's gameweek gives to a tie, by its cell.
fn side_in(value: Option<&Value>) -> Side
    ensures { result ≡ side_held (option_copied value.entry) }
{
    match value {
        Some(Value::TeamGw(score)) => side_of(score.get()),
        _ => no_side(),
    }
}

// What an entry has in a gameweek, by what its cell holds; nothing where it has not begun.
fn side_at<L: Ledger>(
    books: &Books,
    entry: u32,
    gameweek: Gw,
    cells: &SeasonCells,
    steps: &mut ReadCount<L>,
) -> Side
    ensures value { result ≡ side_by (facts_of books.now) (held_values cells.now) entry gameweek }
    ensures cost { steps.new ≤ steps.old + 1 }
{
    let Some(entry) = EntryId::new(entry) else {
        return no_side();
    };
    if !books.has_team(entry, gameweek) {
        return no_side();
    }
    side_in(cells.get(Node::TeamGw(entry, gameweek), steps))
}

// The same of one of those who can reach a tie; nothing of another.
fn side_among<L: Ledger>(
    books: &Books,
    cup: CupId,
    round: u8,
    place: u16,
    entry: u32,
    cells: &SeasonCells,
    steps: &mut ReadCount<L>,
) -> Side
    requires tie { place < ties_after (bracket_of (facts_of books.now) cup) round }
    requires played { is_played (facts_of books.now) cup round ≡ true }
    ensures value { result
        ≡ side_among (facts_of books.now) (held_values cells.now) cup round place entry }
    ensures cost { steps.new ≤ steps.old + 1 }
{
    if !books.part(cup, round, usize::from(place)).contains(&entry) {
        return no_side();
    }
    side_at(books, entry, books.cup_gameweek(cup, round), cells, steps)
}

// Who comes to a place of the round after so many rounds: the slot there, or who goes on from the tie of that place.
fn comer<L: Ledger>(
    books: &Books,
    cup: CupId,
    round: u8,
    place: u16,
    cells: &SeasonCells,
    steps: &mut ReadCount<L>,
) -> u32
    ensures value { result ≡ comer_by (facts_of books.now) (held_values cells.now) cup round place }
    ensures cost { steps.new ≤ steps.old + 1 }
{
    if round > 0 {
        return winner_in(cells.get(Node::Tie(cup, round - 1, place), steps));
    }
    slot(books.slots(cup), usize::from(place))
}

// The slot at a place; 0 behind the last one.
fn slot(slots: &[u32], place: usize) -> u32
    ensures { result ≡ slice_index slots.now place }
{
    if place >= slots.len() {
        return 0;
    }
    slots[place]
}

// Whether the first of two who meet in a tie goes on from it.
fn first_goes_on<L: Ledger>(
    books: &Books,
    cup: CupId,
    round: u8,
    place: u16,
    pair: (u32, u32),
    cells: &SeasonCells,
    steps: &mut ReadCount<L>,
) -> bool
    requires tie { place < ties_after (bracket_of (facts_of books.now) cup) round }
    requires played { is_played (facts_of books.now) cup round ≡ true }
    ensures value { result
        ≡ first_goes_on
        (side_among (facts_of books.now) (held_values cells.now) cup round place pair.0)
        (side_among (facts_of books.now) (held_values cells.now) cup round place pair.1)
        (coin_after (bracket_of (facts_of books.now) cup) round place) }
    ensures cost { steps.new ≤ steps.old + 2 }
{
    let coin = books.coin(cup, round, usize::from(place));
    let one = side_among(books, cup, round, place, pair.0, cells, steps);
    let other = side_among(books, cup, round, place, pair.1, cells, steps);
    tie(&one, &other, coin)
}

// Who goes on from a tie, by who comes to it and what the two have in its gameweek. Only where neither is a bye the two
// are compared.
pub(crate) fn tie_winner<L: Ledger>(
    books: &Books,
    cup: CupId,
    round: u8,
    place: u16,
    cells: &SeasonCells,
    steps: &mut ReadCount<L>,
) -> u32
    requires tie { place < ties_after (bracket_of (facts_of books.now) cup) round }
    requires played { is_played (facts_of books.now) cup round ≡ true }
    ensures value { result ≡ tie_by (facts_of books.now) (held_values cells.now) cup round place }
    ensures cost { steps.new ≤ steps.old + 4 }
{
    // That a cup has few ties, for the prover.
    let _few = books.ties(cup, round);
    let first = comer(books, cup, round, 2 * place, cells, steps);
    let second = comer(books, cup, round, 2 * place + 1, cells, steps);
    if first == 0 {
        return second;
    }
    if second == 0 {
        return first;
    }
    if first_goes_on(books, cup, round, place, (first, second), cells, steps) {
        first
    } else {
        second
    }
}
