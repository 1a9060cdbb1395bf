// A command of the files beside what the season has: added, held against it, or the end of the load.
ghost use Rattle.std.specs.Prelude.{◌≡◌, ◌≤◌, ◌++◌, IfErr, IfOk, OnOk, false};
ghost use Rattle.fpl_base.specs.Causes.{Rose};
ghost use Rattle.season_book.specs.Commands.{IsCommand};
ghost use Rattle.season_book.specs.Hosts.{IsRequest};
ghost use Rattle.season_book.specs.declared.answer.Answer.TheVariants as answer_of;
ghost use Rattle.season_book.specs.declared.request.Request.TheVariants as request_of;
ghost use Rattle.request_handler.specs.Kept.{Leads, kept_as};
ghost use Rattle.fpl_loading.specs.declared.adding.Stop.TheVariants as stop_of;
ghost use Rattle.fpl_loading.specs.More.{IsAdded, IsHeld, IsStep, counted, found_there, is_done, with_row};
ghost use Rattle.fpl_loading.specs.Standing.{next_row, view_of};

use crate::notes::Place;
use crate::standing::{lacks, rows_in, rows_same, view_of};
use fpl_base::{Caller, Clock, Keeper, ListOf, Memory, ReadCount};
use local_requests::ask;
use season_book::{Answer, Command, Request};
use season_keeping::Host;
use std::alloc::Global;
use std::sync::ledger::Ledger;

/// Every number of a command is at most this one.
const MOST: u64 = 9_223_372_036_854_775_807;

/// What a command adds to a load: whether it was asked, how many rows it loaded, how many say what the season says, and where
/// the others stand.
#[derive(Drop)]
pub struct Added {
    pub asked: u64,
    pub loaded: u64,
    pub there: u64,
    pub differs: ListOf<Place>,
}

/// What stops a load.
#[derive(Drop)]
pub enum Stop {
    /// An answer.
    Told(Answer),
    /// Want of memory.
    Memory,
}

/// What the commands of a load added so far, and the operator's last number.
#[derive(Drop)]
pub struct Tally {
    pub number: u64,
    pub loaded: u64,
    pub there: u64,
    pub differs: ListOf<Place>,
}

impl Tally {
    // Counts what one more command added.
    pub(crate) fn count(&mut self, added: &Added) -> Result<(), Memory>
        ensures { OnOk result (self.new ≡ counted self.old added.now) }
    {
        let Some(number) = self.number.checked_add(added.asked) else {
            return Err(Memory);
        };
        let Some(loaded) = self.loaded.checked_add(added.loaded) else {
            return Err(Memory);
        };
        let Some(there) = self.there.checked_add(added.there) else {
            return Err(Memory);
        };
        append(&mut self.differs, added.differs.as_slice())?;
        self.number = number;
        self.loaded = loaded;
        self.there = there;
        Ok(())
    }
}

fn append(places: &mut ListOf<Place>, more: &[Place]) -> Result<(), Memory>
    ensures { OnOk result (places.new ≡ places.old ++ more.now) }
{
    for place in more {
        places.push(*place)?;
    }
    Ok(())
}

// Asks what the season has of a command that stands at this place, and the command itself where it has nothing. `number` is
// the operator's last one.
pub(crate) fn step<C: Clock, K: Keeper, L: Ledger>(
    alloc: Global,
    host: &mut Host,
    number: u64,
    place: Place,
    command: Command,
    clock: &mut C,
    keeper: &mut K,
    steps: &mut ReadCount<L>,
) -> Result<Added, Stop>
    requires fresh { host.old.stale ≡ false }
    requires lawful { IsCommand command }
    ensures step { Leads K.tells K.serves K.holds K.passes
        (kept_as host.old (C.left clock.old) (K.faults keeper.old) keeper.old)
        (kept_as host.new (C.left clock.new) (K.faults keeper.new) keeper.new)
        (IsStep number place command result) }
    ensures fresh { OnOk result (host.new.stale ≡ false) }
    ensures keeper { IfErr result (λ why. why ≡ stop_of.Told answer_of.Keeper
        → Rose (K.faults keeper.old) (K.faults keeper.new)) }
    ensures later { K.faults keeper.old ≤ K.faults keeper.new }
{
    let asked = request_of(&command);
    let told = ask(host, keeper, clock, steps, Caller::Operator, &asked);
    if lacks(&command, &told) {
        add(alloc, host, number, command, clock, keeper, steps)
    } else {
        hold(alloc, place, &command, told)
    }
}

fn request_of(command: &Command) -> Request
    ensures value { result ≡ request_of.View (view_of command.now) }
    ensures lawful { IsRequest result }
{
    Request::View(view_of(command))
}

// Asks a command that the season lacks, under the number behind this one.
fn add<C: Clock, K: Keeper, L: Ledger>(
    alloc: Global,
    host: &mut Host,
    number: u64,
    command: Command,
    clock: &mut C,
    keeper: &mut K,
    steps: &mut ReadCount<L>,
) -> Result<Added, Stop>
    requires fresh { host.old.stale ≡ false }
    requires lawful { IsCommand command }
    ensures added { Leads K.tells K.serves K.holds K.passes
        (kept_as host.old (C.left clock.old) (K.faults keeper.old) keeper.old)
        (kept_as host.new (C.left clock.new) (K.faults keeper.new) keeper.new)
        (IsAdded number command result) }
    ensures fresh { OnOk result (host.new.stale ≡ false) }
    ensures keeper { IfErr result (λ why. why ≡ stop_of.Told answer_of.Keeper
        → Rose (K.faults keeper.old) (K.faults keeper.new)) }
    ensures later { K.faults keeper.old ≤ K.faults keeper.new }
{
    if number >= MOST {
        return Err(Stop::Memory);
    }
    let rows = rows_in(&command);
    let asked = Request::Command {
        number: number + 1,
        command,
    };
    let told = ask(host, keeper, clock, steps, Caller::Operator, &asked);
    if is_done(&told) {
        Ok(Added {
            asked: 1,
            loaded: rows,
            there: 0,
            differs: ListOf::new(alloc),
        })
    } else {
        Err(Stop::Told(told))
    }
}

// Holds the rows of a command that stands at this place against what is told of what the season has.
fn hold(alloc: Global, place: Place, command: &Command, told: Answer) -> Result<Added, Stop>
    ensures { IsHeld place command.now told result }
{
    match rows_same(alloc, command, &told) {
        Ok(Some(rows)) => match held(alloc, place, rows.as_slice()) {
            Ok(added) => Ok(added),
            Err(Memory) => Err(Stop::Memory),
        },
        Ok(None) => Err(Stop::Told(told)),
        Err(Memory) => Err(Stop::Memory),
    }
}

fn is_done(told: &Answer) -> bool
    ensures { result ≡ is_done told.now }
{
    matches!(told, Answer::Done { .. })
}

// What rows add that the season has, the first of them at this place.
fn held(alloc: Global, place: Place, rows: &[bool]) -> Result<Added, Memory>
    ensures { IfOk result (λ added. added ≡ found_there place rows.now) }
{
    let mut at = place;
    let mut added = Added {
        asked: 0,
        loaded: 0,
        there: 0,
        differs: ListOf::new(alloc),
    };
    for same in rows {
        hold_row(&mut added, at, *same)?;
        at = next_row(at)?;
    }
    Ok(added)
}

fn hold_row(added: &mut Added, at: Place, same: bool) -> Result<(), Memory>
    ensures { OnOk result (added.new ≡ with_row added.old at same) }
{
    if same {
        let Some(there) = added.there.checked_add(1) else {
            return Err(Memory);
        };
        added.there = there;
    } else {
        added.differs.push(at)?;
    }
    Ok(())
}

fn next_row(place: Place) -> Result<Place, Memory>
    ensures { IfOk result (λ next. next ≡ next_row place) }
{
    match place.row.checked_add(1) {
        Some(row) => Ok(Place {
            file: place.file,
            row,
        }),
        None => Err(Memory),
    }
}
