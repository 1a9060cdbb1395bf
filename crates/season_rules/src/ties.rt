// The nodes of the ties of cups: the nodes of which they are inputs.
ghost use Rattle.std.specs.Prelude.{◌≡◌, ◌<◌, IfOk};
ghost use Rattle.season_nodes.specs.BookFacts.{facts_of};
ghost use Rattle.season_nodes.specs.Brackets.{ties_after};
ghost use Rattle.season_nodes.specs.Dependents.{cup_dependents, reached, tie_dependents};
ghost use Rattle.season_nodes.specs.Season.{bracket_of};
ghost use Rattle.season_nodes.specs.declared.nodes.Node.{Node};

use fpl_base::{CupId, EntryId, Gw, Memory};
use season_nodes::{Books, Node};
use std::alloc::Global;

// The ties of a round of a cup that an entry can reach: those to which its slots lead. They come by their places, so a tie
// that two of them lead to comes twice in a row.
#[tactic(auto, using(crate::proofs::TieFacts::without_ties))]
fn reached(
    books: &Books,
    alloc: Global,
    entry: EntryId,
    cup: CupId,
    round: u8,
) -> Result<Vec<Node>, Memory>
    ensures { IfOk result (λ ns. ns.items ≡ reached (facts_of books.now) entry cup round) }
{
    let mut found = Vec::new(alloc);
    if books.ties(cup, round) == 0 {
        return Ok(found);
    }
    let mut next = 0;
    for slot in books.places(cup, entry) {
        let place = slot.1 >> (round + 1);
        if place >= next {
            found.push(Node::Tie(cup, round, place))?;
            next = place + 1;
        }
    }
    Ok(found)
}

// What a cup has of an entry's gameweek: the ties of the round of the gameweek that the entry can reach.
pub(crate) fn cup_dependents(
    books: &Books,
    alloc: Global,
    entry: EntryId,
    gameweek: Gw,
    cup: CupId,
) -> Result<Vec<Node>, Memory>
    ensures { IfOk result
        (λ ns. ns.items ≡ cup_dependents (facts_of books.now) entry gameweek cup) }
{
    let start = books.cup_start(cup);
    if start > gameweek.get() {
        return Ok(Vec::new(alloc));
    }
    let found = reached(books, alloc, entry, cup, gameweek.get() - start)?;
    Ok(found)
}

// The nodes of which a tie is an input: that of the next round to which it leads, if it is live.
pub(crate) fn tie_dependents(
    books: &Books,
    alloc: Global,
    cup: CupId,
    round: u8,
    place: u16,
) -> Result<Vec<Node>, Memory>
    ensures { place < ties_after (bracket_of (facts_of books.now) cup) round → IfOk result
        (λ ns. ns.items ≡ tie_dependents (facts_of books.now) cup round place) }
{
    let mut found = Vec::new(alloc);
    if usize::from(place) >= books.ties(cup, round) {
        return Ok(found);
    }
    let next = place / 2;
    if books.has_tie(cup, round + 1, usize::from(next)) {
        found.push(Node::Tie(cup, round + 1, next))?;
    }
    Ok(found)
}
