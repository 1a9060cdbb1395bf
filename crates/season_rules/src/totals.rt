// What an entry has over the locked gameweeks, of what the cells hold of each of them.
ghost use Rattle.std.specs.Prelude.{◌≡◌, ◌<◌, ◌≤◌, ◌+◌, ◌-◌, pos, if◌then◌else◌, None, Some, option_copied};
ghost use Rattle.std.specs.Option.{option_map_or};
ghost use Rattle.rule_book.specs.FigureRange.{IsWithin};
ghost use Rattle.season_nodes.specs.BookFacts.{facts_of};
ghost use Rattle.season_nodes.specs.Held.{held_values};
ghost use Rattle.season_nodes.specs.Season.{has_begun, net_held, total_by};
ghost use Rattle.season_nodes.specs.declared.nodes.Node.{Node};

use crate::rules::SeasonCells;
use fpl_base::{EntryId, Gw, ReadCount};
use season_nodes::{Books, Node, Value};
use std::sync::ledger::Ledger;

// How many locked gameweeks there are from one on.
pub(crate) fn locked_from(books: &Books, start: Gw) -> u8
    ensures count { result ≡ (books.now.calendar.now.locked + 1) - start }
    ensures few { result + start ≤ 39 }
{
    (books.calendar.locked() + 1).saturating_sub(start.get())
}

// The gameweek at a place behind another one, if an entry has begun in it.
pub(crate) fn counted_at(books: &Books, entry: EntryId, start: Gw, place: u8) -> Option<Gw>
    requires { place + start < 39 }
    ensures { result
        ≡ (if has_begun (facts_of books.now) entry (start + place) then Some (start + place)
        else None) }
{
    let number = start.get() + place;
    if books.has_begun(entry, number) {
        Gw::new(number)
    } else {
        None
    }
}

// The points after deductions of an entry's gameweek that a cell holds.
pub(crate) fn net_in(value: Option<&Value>) -> i32
    ensures value { result ≡ net_held (option_copied value.entry) }
    ensures near { IsWithin 18000000 result }
{
    match value {
        Some(Value::TeamGw(score)) => score.get().net,
        _ => 0,
    }
}

// The points of an entry in a gameweek by what its cell holds; none where there is no gameweek.
fn net_at<L: Ledger>(
    entry: EntryId,
    gameweek: Option<Gw>,
    cells: &SeasonCells,
    steps: &mut ReadCount<L>,
) -> i32
    ensures value { result
        ≡ option_map_or (λ g. net_held (held_values cells.now (Node.TeamGw entry g))) gameweek
        (pos 0) }
    ensures near { IsWithin 18000000 result }
    ensures cost { steps.new ≤ steps.old + 1 }
{
    match gameweek {
        Some(gameweek) => net_in(cells.get(Node::TeamGw(entry, gameweek), steps)),
        None => 0,
    }
}

// The points of an entry over the locked gameweeks from one on, by what the cells hold of them.
pub(crate) fn total<L: Ledger>(
    books: &Books,
    entry: EntryId,
    start: Gw,
    cells: &SeasonCells,
    steps: &mut ReadCount<L>,
) -> i32
    ensures value { result ≡ total_by (facts_of books.now) (held_values cells.now) entry start }
    ensures cost { steps.new ≤ steps.old + 39 }
{
    let mut total = 0;
    for place in 0..locked_from(books, start) {
        total += net_at(entry, counted_at(books, entry, start, place), cells, steps);
    }
    total
}
