// The load of what the season lacks.
ghost use Rattle.std.specs.Prelude.{◌≡◌, ◌≤◌, ◌⊎◌, All, Err, IfOk, None, false, string_bytes};
ghost use Rattle.fpl_base.specs.Causes.{Rose};
ghost use Rattle.season_book.specs.Commands.{IsCommand};
ghost use Rattle.season_book.specs.declared.answer.Answer.TheVariants as answer_of;
ghost use Rattle.request_handler.specs.Kept.{Leads, kept_as};
ghost use Rattle.fpl_loading.specs.declared.adding.Stop.TheVariants as stop_of;
ghost use Rattle.fpl_loading.specs.More.{CountsRows, IsLoadOfMore, IsNamed, LoadsBy, StopsBy, differs_text, more_text};

use crate::adding::{Stop, Tally, step};
use crate::faults::row_line;
use crate::loading::loaded;
use crate::notes::{LoadEnd, Place, cause_of, place_behind};
use fpl_base::{Caller, Clock, Keeper, ListOf, Memory, ReadCount, Sink};
use local_requests::status::{DONE, MEMORY, WRITE_FAULT};
use local_requests::{halted, print};
use season_book::{Answer, Command};
use season_keeping::Host;
use std::alloc::{AllocError, Global};
use std::sync::ledger::Ledger;

/// Asks commands of a host as the operator, as `loaded` does, or with `more` as `loaded_more`.
pub fn loaded_by<W: Sink, C: Clock, K: Keeper, L: Ledger>(
    alloc: Global,
    host: &mut Host,
    more: bool,
    commands: Vec<Command>,
    output: &mut W,
    clock: &mut C,
    keeper: &mut K,
    steps: &mut ReadCount<L>,
) -> LoadEnd
    requires fresh { host.old.stale ≡ false }
    requires lawful { All IsCommand commands.items }
    ensures loaded { Leads K.tells K.serves K.holds K.passes
        (kept_as host.old (C.left clock.old) (K.faults keeper.old) keeper.old)
        (kept_as host.new (C.left clock.new) (K.faults keeper.new) keeper.new)
        (LoadsBy more commands.items (W.taken output.old) (W.taken output.new) result.status
        result.note) }
    ensures statuses { (result.status ≡ 0) ⊎ (result.status ≡ 3) ⊎ (result.status ≡ 4)
        ⊎ (result.status ≡ 6) ⊎ (result.status ≡ 13) }
    ensures keeper { result.status ≡ 4 → Rose (K.faults keeper.old) (K.faults keeper.new) }
    ensures write { result.status ≡ 3 → Rose (W.faults output.old) (W.faults output.new) }
    ensures later { K.faults keeper.old ≤ K.faults keeper.new }
{
    if more {
        loaded_more(alloc, host, commands, output, clock, keeper, steps)
    } else {
        loaded(alloc, host, commands, output, clock, keeper, steps)
    }
}

/// Asks the operator's next commands for what the season lacks of these, one after another. A row of what it has is passed over,
/// and named where it says another thing. Behind the last of them it writes how many rows were loaded, how many were there, and
/// how many differ; an answer that ends the load is written behind the rows that were named. It answers the exit status, and
/// what whoever loads should know beside.
pub fn loaded_more<W: Sink, C: Clock, K: Keeper, L: Ledger>(
    alloc: Global,
    host: &mut Host,
    commands: Vec<Command>,
    output: &mut W,
    clock: &mut C,
    keeper: &mut K,
    steps: &mut ReadCount<L>,
) -> LoadEnd
    requires fresh { host.old.stale ≡ false }
    requires lawful { All IsCommand commands.items }
    ensures loaded { Leads K.tells K.serves K.holds K.passes
        (kept_as host.old (C.left clock.old) (K.faults keeper.old) keeper.old)
        (kept_as host.new (C.left clock.new) (K.faults keeper.new) keeper.new)
        (IsLoadOfMore commands.items (W.taken output.old) (W.taken output.new) result.status
        result.note) }
    ensures statuses { (result.status ≡ 0) ⊎ (result.status ≡ 3) ⊎ (result.status ≡ 4)
        ⊎ (result.status ≡ 6) ⊎ (result.status ≡ 13) }
    ensures keeper { result.status ≡ 4 → Rose (K.faults keeper.old) (K.faults keeper.new) }
    ensures write { result.status ≡ 3 → Rose (W.faults output.old) (W.faults output.new) }
    ensures later { K.faults keeper.old ≤ K.faults keeper.new }
{
    let number = host.last(Caller::Operator);
    let mut tally = Tally {
        number,
        loaded: 0,
        there: 0,
        differs: ListOf::new(alloc),
    };
    let mut place = Place { file: 0, row: 0 };
    for command in commands {
        let here = place_behind(place, &command);
        place = here;
        match step(
            alloc,
            host,
            tally.number,
            here,
            command,
            clock,
            keeper,
            steps,
        ) {
            Ok(added) => {
                if tally.count(&added).is_err() {
                    return out_of_memory();
                }
            }
            Err(why) => return stopped(alloc, here, tally.differs.as_slice(), why, output),
        }
    }
    let status = counted(alloc, &tally, output);
    LoadEnd { status, note: None }
}

fn out_of_memory() -> LoadEnd
    ensures { (result.status ≡ 6) × (result.note ≡ None) }
{
    LoadEnd {
        status: MEMORY,
        note: None,
    }
}

// Ends a load by what stopped it at a place.
fn stopped<W: Sink>(
    alloc: Global,
    place: Place,
    differs: &[Place],
    why: Stop,
    output: &mut W,
) -> LoadEnd
    ensures stops { StopsBy place differs.now why result.status (W.taken output.old)
        (W.taken output.new) result.note }
    ensures statuses { (result.status ≡ 3) ⊎ (result.status ≡ 4) ⊎ (result.status ≡ 6)
        ⊎ (result.status ≡ 13) }
    ensures keeper { result.status ≡ 4 → why ≡ stop_of.Told answer_of.Keeper }
    ensures write { result.status ≡ 3 → Rose (W.faults output.old) (W.faults output.new) }
{
    match why {
        Stop::Told(told) => {
            let note = cause_of(place, &told);
            let status = match name_all(alloc, differs, output) {
                Ok(()) => halted(alloc, &told, output),
                Err(status) => status,
            };
            LoadEnd { status, note }
        }
        Stop::Memory => out_of_memory(),
    }
}

// Names the rows that differ, and writes the counts behind them.
fn counted<W: Sink>(alloc: Global, tally: &Tally, output: &mut W) -> u8
    ensures counts { CountsRows tally.now result (W.taken output.old) (W.taken output.new) }
    ensures statuses { (result ≡ 0) ⊎ (result ≡ 3) ⊎ (result ≡ 6) }
    ensures write { result ≡ 3 → Rose (W.faults output.old) (W.faults output.new) }
{
    let differs = tally.differs.as_slice();
    match name_all(alloc, differs, output) {
        Ok(()) => match more_line(alloc, tally.loaded, tally.there, differs.len() as u64) {
            Ok(text) => print(output, text.as_bytes(), DONE),
            Err(AllocError) => MEMORY,
        },
        Err(status) => status,
    }
}

// Writes a line for each row that differs, or answers the status with which the load ends.
fn name_all<W: Sink>(alloc: Global, differs: &[Place], output: &mut W) -> Result<(), u8>
    ensures named { IsNamed differs.now result (W.taken output.old) (W.taken output.new) }
    ensures write { result ≡ Err 3 → Rose (W.faults output.old) (W.faults output.new) }
    ensures later { W.faults output.old ≤ W.faults output.new }
{
    match differs_lines(alloc, differs) {
        Ok(text) => match output.write(text.as_bytes()) {
            Ok(()) => Ok(()),
            Err(_) => Err(WRITE_FAULT),
        },
        Err(Memory) => Err(MEMORY),
    }
}

fn differs_lines(alloc: Global, places: &[Place]) -> Result<String, Memory>
    ensures { IfOk result (λ text. string_bytes text ≡ differs_text places.now) }
{
    let mut text = String::new(alloc);
    for place in places {
        let row = row_line(alloc, place.file, place.row)?;
        text.push_str("differs: ")?;
        text.push_str(row.as_str())?;
    }
    Ok(text)
}

fn more_line(alloc: Global, loaded: u64, there: u64, differs: u64) -> Result<String, AllocError>
    ensures { IfOk result (λ text. string_bytes text ≡ more_text loaded there differs) }
{
    format!(in alloc; "loaded {}, there {}, differs {}\n", loaded, there, differs)
}
