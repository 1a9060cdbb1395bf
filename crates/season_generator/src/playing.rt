// Steps of a made-up season, asked one after another.
ghost use Rattle.std.specs.Prelude.{◌≡◌, ◌≤◌, ◌<◌, ◌-◌, ◌^◌, ◌⊎◌, Err, IfErr, IfOk, OnOk, Option, Some, false};
ghost use Rattle.fpl_base.specs.Causes.{Rose};
ghost use Rattle.fpl_base.specs.Moments.{Moments};
ghost use Rattle.season_book.specs.Commands.{IsCommand};
ghost use Rattle.season_generator.specs.Made.{step_of};
ghost use Rattle.request_handler.specs.Kept.{Leads, kept_as};
ghost use Rattle.season_generator.specs.Generating.{IsPlayed, PlaysOn, is_done};

use crate::made::{MadeUpSeason, Step};
use fpl_base::{Keeper, Memory, ReadCount, Sink};
use local_requests::status::MEMORY;
use local_requests::{ask_at, halted};
use season_book::{Answer, Request};
use season_keeping::Host;
use std::alloc::Global;
use std::sync::ledger::Ledger;

// Plays the steps from one number up to another. `Err` has the exit status.
pub(crate) fn play<W: Sink, K: Keeper, L: Ledger>(
    alloc: Global,
    host: &mut Host,
    season: &mut MadeUpSeason,
    from: u32,
    to: u32,
    output: &mut W,
    keeper: &mut K,
    steps: &mut ReadCount<L>,
) -> Result<(), u8>
    requires fresh { host.old.stale ≡ false }
    requires order { from ≤ to }
    requires within { to ≤ 2122 }
    ensures played { (moments : Option Moments) → Leads K.tells K.serves K.holds K.passes
        (kept_as host.old moments (K.faults keeper.old) keeper.old)
        (kept_as host.new moments (K.faults keeper.new) keeper.new)
        (PlaysOn season.old from (to - from) (W.taken output.old) (W.taken output.new) result) }
    ensures same { season.new ≡ season.old }
    ensures fresh { OnOk result (host.new.stale ≡ false) }
    ensures output { OnOk result (output.new ≡ output.old) }
    ensures statuses { IfErr result
        (λ status. (status ≡ 3) ⊎ (status ≡ 4) ⊎ (status ≡ 6) ⊎ (status ≡ 13)) }
    ensures keeper { result ≡ Err 4 → Rose (K.faults keeper.old) (K.faults keeper.new) }
    ensures write { result ≡ Err 3 → Rose (W.faults output.old) (W.faults output.new) }
    ensures later { K.faults keeper.old ≤ K.faults keeper.new }
{
    for number in from..to {
        play_one(alloc, host, season, number, output, keeper, steps)?;
    }
    Ok(())
}

// Plays the step of this number.
fn play_one<W: Sink, K: Keeper, L: Ledger>(
    alloc: Global,
    host: &mut Host,
    season: &mut MadeUpSeason,
    number: u32,
    output: &mut W,
    keeper: &mut K,
    steps: &mut ReadCount<L>,
) -> Result<(), u8>
    requires fresh { host.old.stale ≡ false }
    requires within { number < 2122 }
    ensures played { (moments : Option Moments) → Leads K.tells K.serves K.holds K.passes
        (kept_as host.old moments (K.faults keeper.old) keeper.old)
        (kept_as host.new moments (K.faults keeper.new) keeper.new)
        (IsPlayed season.old number (W.taken output.old) (W.taken output.new) result) }
    ensures same { season.new ≡ season.old }
    ensures fresh { OnOk result (host.new.stale ≡ false) }
    ensures output { OnOk result (output.new ≡ output.old) }
    ensures statuses { IfErr result
        (λ status. (status ≡ 3) ⊎ (status ≡ 4) ⊎ (status ≡ 6) ⊎ (status ≡ 13)) }
    ensures keeper { result ≡ Err 4 → Rose (K.faults keeper.old) (K.faults keeper.new) }
    ensures write { result ≡ Err 3 → Rose (W.faults output.old) (W.faults output.new) }
    ensures later { K.faults keeper.old ≤ K.faults keeper.new }
{
    let step = match made(alloc, season, number) {
        Ok(step) => step,
        Err(Memory) => return Err(MEMORY),
    };
    let request = Request::Command {
        number: step.number,
        command: step.command,
    };
    let told = ask_at(host, keeper, steps, step.caller, step.moment, &request);
    if is_done(&told) {
        return Ok(());
    }
    Err(halted(alloc, &told, output))
}

// The step of this number, which there is.
fn made(alloc: Global, season: &mut MadeUpSeason, number: u32) -> Result<Step, Memory>
    requires { number < 2122 }
    ensures step { IfOk result (λ step. Some step ≡ step_of season.old number) }
    ensures lawful { IfOk result (λ step.
        (1 ≤ step.number) × (step.number ≤ 2 ^ 63 - 1) × IsCommand step.command) }
    ensures same { season.new ≡ season.old }
{
    match season.step(alloc, number)? {
        Some(step) => Ok(step),
        None => unreachable!(),
    }
}

fn is_done(told: &Answer) -> bool
    ensures { result ≡ is_done told.now }
{
    matches!(told, Answer::Done { .. })
}
