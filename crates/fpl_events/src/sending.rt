// Lines that changed, sent as the operator's next commands.
ghost use Rattle.std.specs.Prelude.{◌≡◌, ◌≤◌, ◌-◌, ◌^◌, ◌⊎◌, Err, IfErr, IfOk, OnErr, OnOk, false, length, true};
ghost use Rattle.fpl_base.specs.Causes.{Rose};
ghost use Rattle.fpl_base.specs.declared.kinds.Caller.TheVariants as caller_of;
ghost use Rattle.season_book.specs.Book.{last_number};
ghost use Rattle.season_book.specs.Commands.{IsCommand};
ghost use Rattle.season_book.specs.declared.answer.Answer.TheVariants as answer_of;
ghost use Rattle.season_book.specs.declared.request.Request.TheVariants as request_of;
ghost use Rattle.season_keeping.specs.Answering.{IsCaused};
ghost use Rattle.request_handler.specs.Kept.{Leads, kept_as};
ghost use Rattle.local_requests.specs.Asking.{IsHeard};
ghost use Rattle.fpl_events.specs.Sending.{IsSent, SendsAll, SendsChanged, SendsOn, is_done, line_command, next_number};

use fpl_base::{Caller, Clock, Keeper, Memory, PlayerId, ReadCount, Sink};
use local_requests::status::MEMORY;
use local_requests::{ask, halted};
use match_events::MatchEvents;
use season_book::{Answer, Command, Request};
use season_keeping::Host;
use std::alloc::Global;
use std::sync::ledger::Ledger;

/// The greatest number that a command may have.
const GREATEST: u64 = 9_223_372_036_854_775_807;

// Sends the lines that changed. `Ok` has how many there were, `Err` the exit status.
pub(crate) fn send_changed<W: Sink, C: Clock, K: Keeper, L: Ledger>(
    alloc: Global,
    host: &mut Host,
    fixture: u32,
    events: &mut MatchEvents,
    output: &mut W,
    clock: &mut C,
    keeper: &mut K,
    steps: &mut ReadCount<L>,
) -> Result<u64, u8>
    requires fresh { host.old.stale ≡ false }
    ensures sent { Leads K.tells K.serves K.holds K.passes
        (kept_as host.old (C.left clock.old) (K.faults keeper.old) keeper.old)
        (kept_as host.new (C.left clock.new) (K.faults keeper.new) keeper.new)
        (SendsChanged fixture events.old events.new (W.taken output.old) (W.taken output.new)
        result) }
    ensures events { OnOk result (events.new ≡ record events.old { told = events.old.events }) }
    ensures few { IfOk result (λ sent. sent ≤ 400) }
    ensures fresh { OnOk result (host.new.stale ≡ false) }
    ensures output { OnOk result (output.new ≡ output.old) }
    ensures statuses { IfErr result
        (λ status. (status ≡ 3) ⊎ (status ≡ 4) ⊎ (status ≡ 6) ⊎ (status ≡ 13)) }
    ensures keeper { result ≡ Err 4 → Rose (K.faults keeper.old) (K.faults keeper.new) }
    ensures write { result ≡ Err 3 → Rose (W.faults output.old) (W.faults output.new) }
    ensures later { K.faults keeper.old ≤ K.faults keeper.new }
{
    match events.take_changed() {
        Ok(players) => send_all(
            alloc,
            host,
            fixture,
            events,
            players.as_slice(),
            output,
            clock,
            keeper,
            steps,
        ),
        Err(Memory) => Err(MEMORY),
    }
}

// Sends the lines of these players. `Ok` has how many there were, `Err` the exit status.
fn send_all<W: Sink, C: Clock, K: Keeper, L: Ledger>(
    alloc: Global,
    host: &mut Host,
    fixture: u32,
    events: &MatchEvents,
    players: &[PlayerId],
    output: &mut W,
    clock: &mut C,
    keeper: &mut K,
    steps: &mut ReadCount<L>,
) -> Result<u64, u8>
    requires fresh { host.old.stale ≡ false }
    requires few { length players.now ≤ 400 }
    ensures sent { Leads K.tells K.serves K.holds K.passes
        (kept_as host.old (C.left clock.old) (K.faults keeper.old) keeper.old)
        (kept_as host.new (C.left clock.new) (K.faults keeper.new) keeper.new)
        (SendsAll fixture events.now players.now (W.taken output.old) (W.taken output.new)
        result) }
    ensures few { IfOk result (λ sent. sent ≤ 400) }
    ensures fresh { OnOk result (host.new.stale ≡ false) }
    ensures output { OnOk result (output.new ≡ output.old) }
    ensures statuses { IfErr result
        (λ status. (status ≡ 3) ⊎ (status ≡ 4) ⊎ (status ≡ 6) ⊎ (status ≡ 13)) }
    ensures keeper { result ≡ Err 4 → Rose (K.faults keeper.old) (K.faults keeper.new) }
    ensures write { result ≡ Err 3 → Rose (W.faults output.old) (W.faults output.new) }
    ensures later { K.faults keeper.old ≤ K.faults keeper.new }
{
    match send_lines(
        alloc, host, fixture, events, players, output, clock, keeper, steps,
    ) {
        Ok(()) => Ok(players.len() as u64),
        Err(status) => Err(status),
    }
}

// Sends the lines of these players, one after another. `Err` has the exit status.
fn send_lines<W: Sink, C: Clock, K: Keeper, L: Ledger>(
    alloc: Global,
    host: &mut Host,
    fixture: u32,
    events: &MatchEvents,
    players: &[PlayerId],
    output: &mut W,
    clock: &mut C,
    keeper: &mut K,
    steps: &mut ReadCount<L>,
) -> Result<(), u8>
    requires fresh { host.old.stale ≡ false }
    ensures sent { Leads K.tells K.serves K.holds K.passes
        (kept_as host.old (C.left clock.old) (K.faults keeper.old) keeper.old)
        (kept_as host.new (C.left clock.new) (K.faults keeper.new) keeper.new)
        (SendsOn fixture events.now players.now (W.taken output.old) (W.taken output.new)
        result) }
    ensures fresh { OnOk result (host.new.stale ≡ false) }
    ensures output { OnOk result (output.new ≡ output.old) }
    ensures statuses { IfErr result
        (λ status. (status ≡ 3) ⊎ (status ≡ 4) ⊎ (status ≡ 6) ⊎ (status ≡ 13)) }
    ensures keeper { result ≡ Err 4 → Rose (K.faults keeper.old) (K.faults keeper.new) }
    ensures write { result ≡ Err 3 → Rose (W.faults output.old) (W.faults output.new) }
    ensures later { K.faults keeper.old ≤ K.faults keeper.new }
{
    for place in 0..players.len() {
        match send_line(
            alloc,
            host,
            fixture,
            events,
            players[place],
            output,
            clock,
            keeper,
            steps,
        ) {
            Ok(()) => {}
            Err(status) => return Err(status),
        }
    }
    Ok(())
}

// Sends the line of a player. `Err` has the exit status.
fn send_line<W: Sink, C: Clock, K: Keeper, L: Ledger>(
    alloc: Global,
    host: &mut Host,
    fixture: u32,
    events: &MatchEvents,
    player: PlayerId,
    output: &mut W,
    clock: &mut C,
    keeper: &mut K,
    steps: &mut ReadCount<L>,
) -> Result<(), u8>
    requires fresh { host.old.stale ≡ false }
    ensures sent { Leads K.tells K.serves K.holds K.passes
        (kept_as host.old (C.left clock.old) (K.faults keeper.old) keeper.old)
        (kept_as host.new (C.left clock.new) (K.faults keeper.new) keeper.new)
        (IsSent fixture events.now player (W.taken output.old) (W.taken output.new) result) }
    ensures fresh { OnOk result (host.new.stale ≡ false) }
    ensures output { OnOk result (output.new ≡ output.old) }
    ensures statuses { IfErr result
        (λ status. (status ≡ 3) ⊎ (status ≡ 4) ⊎ (status ≡ 6) ⊎ (status ≡ 13)) }
    ensures keeper { result ≡ Err 4 → Rose (K.faults keeper.old) (K.faults keeper.new) }
    ensures write { result ≡ Err 3 → Rose (W.faults output.old) (W.faults output.new) }
    ensures later { K.faults keeper.old ≤ K.faults keeper.new }
{
    let command = line_command(fixture, events, player);
    let told = ask_next(host, command, clock, keeper, steps);
    if is_done(&told) {
        return Ok(());
    }
    Err(halted(alloc, &told, output))
}

// Asks a command as the operator, under his next number.
fn ask_next<C: Clock, K: Keeper, L: Ledger>(
    host: &mut Host,
    command: Command,
    clock: &mut C,
    keeper: &mut K,
    steps: &mut ReadCount<L>,
) -> Answer
    requires fresh { host.old.stale ≡ false }
    requires lawful { IsCommand command }
    ensures heard { Leads K.tells K.serves K.holds K.passes
        (kept_as host.old (C.left clock.old) (K.faults keeper.old) keeper.old)
        (kept_as host.new (C.left clock.new) (K.faults keeper.new) keeper.new)
        (λ served behind. IsHeard served caller_of.Operator
        (request_of.Command (next_number (last_number served.host.book caller_of.Operator))
        command) result behind) }
    ensures stale { host.new.stale ≡ true
        → (result ≡ answer_of.Memory) ⊎ (result ≡ answer_of.Keeper) }
    ensures caused { IsCaused
        (record { before = K.faults keeper.old; behind = K.faults keeper.new }) result }
    ensures later { K.faults keeper.old ≤ K.faults keeper.new }
{
    let number = next_number(host.last(Caller::Operator));
    let asked = Request::Command { number, command };
    ask(host, keeper, clock, steps, Caller::Operator, &asked)
}

// The number of the next command behind the last one; the greatest number stays.
fn next_number(last: u64) -> u64
    ensures next { result ≡ next_number last }
    ensures range { (1 ≤ result) × (result ≤ 2 ^ 63 - 1) }
{
    if last < GREATEST { last + 1 } else { GREATEST }
}

// The command that sends a player's line by the events.
fn line_command(fixture: u32, events: &MatchEvents, player: PlayerId) -> Command
    ensures line { result ≡ line_command fixture events.now player }
    ensures lawful { IsCommand result }
{
    match events.line(player) {
        Some(line) => Command::Line {
            fixture,
            player,
            line,
        },
        None => Command::Drop { fixture, player },
    }
}

fn is_done(told: &Answer) -> bool
    ensures { result ≡ is_done told.now }
{
    matches!(told, Answer::Done { .. })
}
