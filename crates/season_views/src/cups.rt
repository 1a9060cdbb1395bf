// What is shown of a cup.
ghost use Rattle.std.specs.Prelude.{◌≡◌, ◌≤◌, ◌<◌, ◌+◌, ◌/◌, ◌^◌, IfOk, IsTrue, Some, length, nat_le};
ghost use Rattle.std.specs.Option.{option_map_or};
ghost use Rattle.rule_book.specs.CupRounds.{locked_winners, winners_of};
ghost use Rattle.rule_book.specs.Entries.{entry_in};
ghost use Rattle.leagues_and_cups.specs.Shapes.{HasShape};
ghost use Rattle.season_book.specs.LeagueViews.{cup_shown, side_in};
ghost use Rattle.season_book.specs.declared.shown.Shown.TheVariants as shown_as;
ghost use Rattle.season_graph.specs.Followed.{AreEvaluated};
ghost use Rattle.season_graph.specs.Told.{side_told};
ghost use Rattle.season_nodes.specs.Season.{SeasonFacts};
ghost use Rattle.season_views.specs.Cells.{AreKeptAt};
ghost use Rattle.season_views.specs.Entries.{OfEachBook};
ghost use Rattle.season_views.specs.Reads.{reads_of, ties_of};

use crate::reading::tie_held;
use crate::seen::{Seen, SeenCells};
use fpl_base::{CupId, ListOf, Memory, ReadCount};
use leagues_and_cups::{rounds, rounds_follow};
use rule_book::{Bracket, Slots};
use season_book::{Shown, ShownCup};
use season_ledger::rows_tell;
use std::alloc::Global;
use std::sync::ledger::Ledger;

/// How many ties the round after so many rounds has.
pub fn ties(bracket: &Bracket, round: u8) -> u16
    requires shape { HasShape bracket.now }
    requires round { round < 10 }
    ensures { result ≡ length bracket.now.slots / 2 ^ (round + 1) }
{
    // What the type tells of the rounds of a cup, for the prover.
    let _rounds = rounds(bracket);
    (bracket.slots.as_slice().len() >> (round + 1)) as u16
}

/// Who goes on from each tie of the round after so many rounds, as the cells hold it.
pub fn winners_held<L: Ledger>(
    alloc: Global,
    cells: &SeenCells<L>,
    id: CupId,
    bracket: &Bracket,
    round: u8,
    steps: &mut ReadCount<L>,
) -> Result<Slots, Memory>
    requires shape { HasShape bracket.now }
    requires round { round < 10 }
    ensures value { IfOk result
        (λ winners. (b : SeasonFacts) → AreEvaluated b cells.now
        → entry_in b.cups id ≡ Some bracket.now
        → bracket.now.start + round ≤ b.calendar.locked
        → winners ≡ winners_of bracket.now (side_told b) (round + 1)) }
    ensures cost { steps.new ≤ steps.old + length bracket.now.slots / 2 ^ (round + 1) }
{
    let count = ties(bracket, round);
    let mut winners = Slots::with_room(alloc, usize::from(count))?;
    for place in 0..count {
        winners.push(tie_held(cells, id, round, place, steps))?;
    }
    Ok(winners)
}

/// Whether the gameweek of the round after so many rounds is locked.
pub fn is_played<L: Ledger>(seen: &Seen<L>, bracket: &Bracket, round: u8) -> bool
    requires { round < 10 }
    ensures value { result
        ≡ nat_le (bracket.now.start + (round + 1)) (seen.now.facts.calendar.locked + 1) }
    ensures gameweek { IsTrue result → bracket.now.start + round ≤ seen.now.facts.calendar.locked }
    ensures first { 1 ≤ bracket.now.start }
{
    bracket.start.get() + round <= seen.calendar().locked()
}

// The winners of the round after so many rounds; `None` where its gameweek is open.
fn winners_shown<L: Ledger>(
    alloc: Global,
    seen: &Seen<L>,
    cells: &SeenCells<L>,
    id: CupId,
    bracket: &Bracket,
    round: u8,
    steps: &mut ReadCount<L>,
) -> Result<Option<Slots>, Memory>
    requires profile { seen.now.managers.profile ≡ seen.now.facts.profile }
    requires kept { AreKeptAt seen.now.facts seen.now.managers id bracket.now cells.now }
    requires shape { HasShape bracket.now }
    requires round { round < 10 }
    ensures value { IfOk result (λ winners. OfEachBook seen.now.facts seen.now.managers
        (λ entries. winners
        ≡ locked_winners bracket.now (side_in seen.now.facts entries) seen.now.facts.calendar.locked
        (round + 1))) }
    ensures cost { OfEachBook seen.now.facts seen.now.managers
        (λ entries. steps.new
        ≤ steps.old
        + option_map_or length
        (locked_winners bracket.now (side_in seen.now.facts entries) seen.now.facts.calendar.locked
        (round + 1)) 0) }
{
    // The laws that rows tell what their histories do, how many winners a round has, and that the ids of players rise, for
    // the prover.
    rows_tell();
    rounds_follow();
    let _count = seen.players().len();
    if is_played(seen, bracket, round) {
        Ok(Some(winners_held(alloc, cells, id, bracket, round, steps)?))
    } else {
        Ok(None)
    }
}

/// A cup with the winners of its rounds, tie by tie; `None` for a round whose gameweek is open. It has the number `id`
/// among those that the cells are kept of. Who goes on from a tie is read of its cell. Each cell that it reads is a counted
/// read (docs/RULES.md, "Cups").
pub fn cup<L: Ledger>(
    alloc: Global,
    seen: &Seen<L>,
    cells: &SeenCells<L>,
    id: CupId,
    bracket: &Bracket,
    steps: &mut ReadCount<L>,
) -> Result<ShownCup, Memory>
    requires profile { seen.now.managers.profile ≡ seen.now.facts.profile }
    requires kept { AreKeptAt seen.now.facts seen.now.managers id bracket.now cells.now }
    requires shape { HasShape bracket.now }
    ensures value { IfOk result (λ shown. OfEachBook seen.now.facts seen.now.managers
        (λ entries. shown ≡ cup_shown seen.now.facts entries bracket.now)) }
    ensures cost { OfEachBook seen.now.facts seen.now.managers
        (λ entries. steps.new
        ≤ steps.old + ties_of (cup_shown seen.now.facts entries bracket.now).rounds) }
{
    let mut shown = ListOf::with_room(alloc, 10)?;
    for round in 0..rounds(bracket) {
        let winners = winners_shown(alloc, seen, cells, id, bracket, round, steps)?;
        shown.push(winners)?;
    }
    Ok(ShownCup {
        start: bracket.start,
        rounds: shown,
    })
}

/// The same, as what a view shows.
pub fn shown_cup<L: Ledger>(
    alloc: Global,
    seen: &Seen<L>,
    cells: &SeenCells<L>,
    id: CupId,
    bracket: &Bracket,
    steps: &mut ReadCount<L>,
) -> Result<Shown, Memory>
    requires profile { seen.now.managers.profile ≡ seen.now.facts.profile }
    requires kept { AreKeptAt seen.now.facts seen.now.managers id bracket.now cells.now }
    requires shape { HasShape bracket.now }
    ensures value { IfOk result (λ shown. OfEachBook seen.now.facts seen.now.managers
        (λ entries. shown ≡ shown_as.Cup (cup_shown seen.now.facts entries bracket.now))) }
    ensures cost { OfEachBook seen.now.facts seen.now.managers
        (λ entries. steps.new
        ≤ steps.old + reads_of (shown_as.Cup (cup_shown seen.now.facts entries bracket.now))) }
{
    Ok(Shown::Cup(cup(alloc, seen, cells, id, bracket, steps)?))
}
