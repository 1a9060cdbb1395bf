// The cells of a host, which follow what is changed.
ghost use Rattle.std.specs.Prelude.{◌≡◌, ◌≢◌, ◌≤◌, ◌+◌, [], false, true, Option, IfOk, IsOk, OnOk};
ghost use Rattle.season_book.specs.Book.{Book};
ghost use Rattle.season_book.specs.Commands.{IsCommand};
ghost use Rattle.season_book.specs.Doing.{IsOutLate, IsStoreless};
ghost use Rattle.season_book.specs.declared.answer.Answer.TheVariants as answer_of;
ghost use Rattle.season_book.specs.declared.request.Request.TheVariants as request_of;
ghost use Rattle.season_nodes.specs.Season.{SeasonFacts};
ghost use Rattle.season_cells.specs.Correcting.{IsCheap, IsCorrected};
ghost use Rattle.season_cells.specs.Kept.{AreCellsOf};
ghost use Rattle.season_cells.specs.Leading.{LeadsTo};
ghost use Rattle.season_running.specs.Standing.{Follows, HostRows, Running, StandsIn, passed};
ghost use Rattle.season_host.specs.Accepted.{MayEndIn, locks_more};
ghost use Rattle.season_host.specs.Cells.{AreCellsNow, AreCellsOfHost, AreCorrected, AreCorrectedNow, IsChange, IsCheapCommand, IsCheapNow, LeadsNow, Locks, LocksNow, running_in, running_seen};
ghost use Rattle.season_host.specs.declared.change.Change.TheVariants as change_of;

use crate::change::Change;
use crate::house::House;
use fpl_base::{Caller, Memory, Moment, ReadCount};
use season_book::{Answer, Command};
use season_cells::{KeptCells, Plan};
use season_graph::calendar_changes;
use season_records::Slot;
use season_running::RunningSeason;
use std::alloc::Global;
use std::sync::ledger::Ledger;

/// An answer to a command, the slots of the records that it may have changed, and whether the cells followed. Where they did
/// not, memory ran out, and they have to be made anew.
#[derive(Drop)]
pub struct Settled {
    pub answer: Answer,
    pub slots: Vec<Slot>,
    pub followed: bool,
}

/// What a moment did: whether it locked gameweeks that were open, and whether the cells followed. Where they did not, memory
/// ran out, and they have to be made anew.
#[derive(Clone, Copy, Debug, PartialEq, Eq)]
pub struct Passed {
    pub locks: bool,
    pub followed: bool,
}

/// The cells of the season that runs, made of what is kept of it alone; none where none runs.
pub fn cells_of<L: Ledger>(
    alloc: Global,
    running: &Option<RunningSeason>,
    steps: &mut ReadCount<L>,
) -> Result<Option<KeptCells>, Memory>
    ensures { IfOk result (AreCellsNow running.now) }
{
    match running {
        Some(running) => Ok(Some(cells_in(alloc, running, steps)?)),
        None => Ok(None),
    }
}

// The cells of a season that runs.
fn cells_in<L: Ledger>(
    alloc: Global,
    running: &RunningSeason,
    steps: &mut ReadCount<L>,
) -> Result<KeptCells, Memory>
    ensures { IfOk result (AreCellsOf (running_seen running.now)) }
{
    KeptCells::anew(
        alloc,
        running.season(),
        running.managers(),
        running.leagues(),
        running.cups(),
        steps,
    )
}

/// The answer to a command, once the gameweeks of its moment are locked, as `House::answer_command` gives it; the cells
/// follow what it changed, and nothing else of them is evaluated.
pub fn answer_command<L: Ledger>(
    alloc: Global,
    house: &mut House,
    cells: &mut Option<KeptCells>,
    caller: &Caller,
    now: Moment,
    number: u64,
    command: &Command,
    steps: &mut ReadCount<L>,
) -> Settled
    ghost before: { HostRows }
    requires before { house.old ≡ before }
    requires numbered { 1 ≤ number }
    requires command { IsCommand command.now }
    requires cells { AreCellsOfHost before cells.old }
    ensures answered { Follows house.old house.new
        (λ book after.
        MayEndIn house.old.operator book caller.now now number command.now result.answer
        result.slots.items after) }
    ensures late { (book : Book) → StandsIn house.old book
        → IsOutLate house.old.operator book caller.now now
        (request_of.Command number command.now) result.answer }
    ensures operator { house.new.operator ≡ house.old.operator }
    ensures storeless { IsStoreless result.answer }
    ensures granted { (book : Book) → StandsIn house.old book → result.slots.items ≡ []
        → result.followed ≡ true }
    ensures cells { result.followed ≡ true → AreCellsOfHost house.new cells.new }
    ensures corrected { result.followed ≡ true
        → AreCorrected house.old house.new cells.old cells.new }
    ensures cheap { result.followed ≡ true
        → IsCheapCommand house.old house.new command.now steps.old steps.new }
    ensures refused { (book : Book) → StandsIn house.old book → result.slots.items ≡ []
        → result.answer ≢ answer_of.Memory → steps.new ≤ steps.old + 8 }
{
    let answered = house.answer_command(caller, now, number, command, steps);
    let followed = follow(alloc, cells, house, &answered.change, steps);
    Settled {
        answer: answered.answer,
        slots: answered.slots,
        followed: followed.is_ok(),
    }
}

// Follows what an answer changed.
fn follow<L: Ledger>(
    alloc: Global,
    cells: &mut Option<KeptCells>,
    house: &House,
    change: &Change,
    steps: &mut ReadCount<L>,
) -> Result<(), Memory>
    ghost before: { HostRows }
    requires cells { AreCellsOfHost before cells.old }
    requires change { IsChange before house.now change.now }
    ensures nothing { change.now ≡ change_of.Nothing → IsOk result }
    ensures cells { OnOk result (AreCellsOfHost house.now cells.new) }
    ensures corrected { OnOk result (AreCorrected before house.now cells.old cells.new) }
    ensures cheap { OnOk result
        (IsCheapNow (running_in before) (running_in house.now) steps.old steps.new) }
    ensures still { change.now ≡ change_of.Nothing → steps.new ≡ steps.old }
{
    match change {
        Change::Nothing => Ok(()),
        Change::Season => {
            *cells = cells_of(alloc, house.running(), steps)?;
            Ok(())
        }
        Change::Plan(plan) => follow_plan(cells, house.running(), plan, steps),
    }
}

// Follows what a plan says, where a season runs.
fn follow_plan<L: Ledger>(
    cells: &mut Option<KeptCells>,
    running: &Option<RunningSeason>,
    plan: &Plan,
    steps: &mut ReadCount<L>,
) -> Result<(), Memory>
    ghost before: { Option Running }
    requires cells { AreCellsNow before cells.old }
    requires leads { LeadsNow before running.now plan.now }
    ensures cells { OnOk result (AreCellsNow running.now cells.new) }
    ensures corrected { OnOk result (AreCorrectedNow before running.now cells.old cells.new) }
    ensures cheap { OnOk result (IsCheapNow before running.now steps.old steps.new) }
{
    if let Some(running) = running {
        if let Some(cells) = cells {
            follow_in(cells, running, plan, steps)?;
        }
    }
    Ok(())
}

// The same of the season that runs.
fn follow_in<L: Ledger>(
    cells: &mut KeptCells,
    running: &RunningSeason,
    plan: &Plan,
    steps: &mut ReadCount<L>,
) -> Result<(), Memory>
    ghost before: { SeasonFacts }
    requires cells { AreCellsOf before cells.old }
    requires leads { LeadsTo before (running_seen running.now) plan.now }
    ensures cells { OnOk result (AreCellsOf (running_seen running.now) cells.new) }
    ensures corrected { OnOk result
        (IsCorrected before (running_seen running.now) cells.old.cells cells.new.cells) }
    ensures cheap { OnOk result (IsCheap before (running_seen running.now) steps.old steps.new) }
{
    cells.follow(
        plan,
        running.season(),
        running.managers(),
        running.leagues(),
        running.cups(),
        steps,
    )
}

/// Locks the gameweeks whose deadlines have passed, as `House::pass` does; the cells follow.
pub fn pass<L: Ledger>(
    house: &mut House,
    cells: &mut Option<KeptCells>,
    now: Moment,
    steps: &mut ReadCount<L>,
) -> Passed
    ghost before: { HostRows }
    requires before { house.old ≡ before }
    requires cells { AreCellsOfHost before cells.old }
    ensures rows { house.new ≡ passed now house.old }
    ensures more { result.locks ≡ locks_more house.old.facts now }
    ensures nothing { result.locks ≡ false → result.followed ≡ true }
    ensures stays { result.locks ≡ false → cells.new ≡ cells.old }
    ensures still { result.locks ≡ false → steps.new ≡ steps.old }
    ensures cells { result.followed ≡ true → AreCellsOfHost house.new cells.new }
    ensures corrected { result.locks ≡ true → result.followed ≡ true
        → AreCorrected house.old house.new cells.old cells.new }
    ensures cheap { result.locks ≡ true → result.followed ≡ true
        → IsCheapNow (running_in house.old) (running_in house.new) steps.old steps.new }
{
    let first = house.locked();
    if house.pass(now) {
        let followed = follow_locks(cells, house.running(), first, steps);
        Passed {
            locks: true,
            followed: followed.is_ok(),
        }
    } else {
        Passed {
            locks: false,
            followed: true,
        }
    }
}

// Follows a moment, before which so many gameweeks were locked.
fn follow_locks<L: Ledger>(
    cells: &mut Option<KeptCells>,
    running: &Option<RunningSeason>,
    first: u8,
    steps: &mut ReadCount<L>,
) -> Result<(), Memory>
    ghost before: { Option Running }
    requires cells { AreCellsNow before cells.old }
    requires locks { LocksNow before running.now first }
    ensures cells { OnOk result (AreCellsNow running.now cells.new) }
    ensures corrected { OnOk result (AreCorrectedNow before running.now cells.old cells.new) }
    ensures cheap { OnOk result (IsCheapNow before running.now steps.old steps.new) }
{
    if let Some(running) = running {
        if let Some(cells) = cells {
            follow_locks_in(cells, running, first, steps)?;
        }
    }
    Ok(())
}

// The same of the season that runs.
fn follow_locks_in<L: Ledger>(
    cells: &mut KeptCells,
    running: &RunningSeason,
    first: u8,
    steps: &mut ReadCount<L>,
) -> Result<(), Memory>
    ghost before: { Running }
    requires cells { AreCellsOf (running_seen before) cells.old }
    requires locks { Locks before running.now first }
    ensures cells { OnOk result (AreCellsOf (running_seen running.now) cells.new) }
    ensures corrected { OnOk result
        (IsCorrected (running_seen before) (running_seen running.now) cells.old.cells
        cells.new.cells) }
    ensures cheap { OnOk result
        (IsCheap (running_seen before) (running_seen running.now) steps.old steps.new) }
{
    // The law of what a moment changes, for the prover, and that the calendar is lawful.
    calendar_changes();
    running.season().keeps_facts();
    cells.follow_locks(
        first,
        running.season(),
        running.managers(),
        running.leagues(),
        running.cups(),
        steps,
    )
}
