// The command that serves connections, one after another.
ghost use Rattle.std.specs.Prelude.{◌≡◌, ◌≤◌, ◌<◌, ◌⊎◌, IfSome, MatchOption, None, OnErr, OnOk, length};
ghost use Rattle.fpl_base.specs.Causes.{Rose};
ghost use Rattle.request_handler.specs.Kept.{LeadsAll, kept_as};
ghost use Rattle.request_handler.specs.Looks.{counted_as};
ghost use Rattle.request_handler.specs.Replying.{IsReplyUntil};
ghost use Rattle.request_handler.specs.Whole.{IsKeptReply};
ghost use Rattle.fpl_run.specs.Reading.{CountOn, CountOne, ServeCounts};
ghost use Rattle.fpl_run.specs.Serve.{IsAskedOnce, OneFewer, Serves, ServesOn, doors_as};

use crate::opening::unopened;
use crate::talk::talk;
use fpl_base::{Clock, Doors, Failed, Keeper, Key, ReadCount, Sink};
use fpl_http::{Buffers, Ending};
use local_requests::status::{DONE, DOORS, MEMORY};
use request_handler::{
    HostWithScratch, ReadsFirst, RequestHandler, looks_read_few, opened, sessions_answer,
};
use std::alloc::Global;
use std::sync::ledger::Ledger;

/// Serves so many connections for the operator with this key, and answers the exit status. The memory of a session is taken
/// for the first of them, and used again by the others. Reads are counted for messages; those by which the host is opened are
/// counted apart.
pub fn serve<W: Sink, C: Clock, K: Keeper, D: Doors, L: Ledger>(
    alloc: Global,
    key: &Key,
    connections: u64,
    output: &mut W,
    clock: &mut C,
    keeper: &mut K,
    doors: &mut D,
    steps: &mut ReadCount<L>,
) -> u8
    requires { MatchOption (D.coming doors.old) ((d : D) → D.coming d ≡ None)
        (λ all. connections ≤ length all) }
    ensures served { Serves K.tells K.serves K.holds K.passes K.faults keeper.old keeper.new key.now
        connections
        (doors_as (D.coming doors.old) (D.given_back doors.old) (D.faults doors.old))
        (doors_as (D.coming doors.new) (D.given_back doors.new) (D.faults doors.new))
        (C.left clock.old) (C.left clock.new) (W.taken output.old) (W.taken output.new) result
        steps.old steps.new }
    ensures reads { ServeCounts K.tells K.holds K.passes keeper.old keeper.new key.now connections
        (doors_as (D.coming doors.old) (D.given_back doors.old) (D.faults doors.old))
        (doors_as (D.coming doors.new) (D.given_back doors.new) (D.faults doors.new))
        (C.left clock.old) (C.left clock.new) steps.old steps.new }
    ensures statuses { (result ≡ 0) ⊎ (result ≡ 3) ⊎ (result ≡ 4) ⊎ (result ≡ 5) ⊎ (result ≡ 6)
        ⊎ (result ≡ 8) }
    ensures write { result ≡ 3 → Rose (W.faults output.old) (W.faults output.new) }
    ensures keeper { result ≡ 4 → Rose (K.faults keeper.old) (K.faults keeper.new) }
    ensures doors { result ≡ 8 → Rose (D.faults doors.old) (D.faults doors.new) }
{
    // The law on what looks count, for the prover.
    looks_read_few::<K>();
    match opened(alloc, key, keeper) {
        Ok((handler, mut host)) => serve_all(
            alloc,
            &handler,
            &mut host,
            connections,
            clock,
            keeper,
            doors,
            steps,
        ),
        Err(fault) => unopened(alloc, fault, output),
    }
}

// Serves so many connections, one after another.
fn serve_all<C: Clock, K: Keeper, D: Doors, L: Ledger>(
    alloc: Global,
    handler: &RequestHandler,
    host: &mut HostWithScratch,
    connections: u64,
    clock: &mut C,
    keeper: &mut K,
    doors: &mut D,
    steps: &mut ReadCount<L>,
) -> u8
    requires { MatchOption (D.coming doors.old) ((d : D) → D.coming d ≡ None)
        (λ all. connections ≤ length all) }
    ensures served { LeadsAll K.tells K.serves K.holds K.passes
        (kept_as host.old.host (C.left clock.old) (K.faults keeper.old) keeper.old)
        (kept_as host.new.host (C.left clock.new) (K.faults keeper.new) keeper.new)
        (ServesOn IsReplyUntil connections
        (doors_as (D.coming doors.old) (D.given_back doors.old) (D.faults doors.old))
        (doors_as (D.coming doors.new) (D.given_back doors.new) (D.faults doors.new)) result)
        (ServesOn IsKeptReply connections
        (doors_as (D.coming doors.old) (D.given_back doors.old) (D.faults doors.old))
        (doors_as (D.coming doors.new) (D.given_back doors.new) (D.faults doors.new)) result) }
    ensures counts { CountOn connections
        (doors_as (D.coming doors.old) (D.given_back doors.old) (D.faults doors.old))
        (doors_as (D.coming doors.new) (D.given_back doors.new) (D.faults doors.new))
        (counted_as (kept_as host.old.host (C.left clock.old) (K.faults keeper.old) keeper.old)
        steps.old)
        (counted_as (kept_as host.new.host (C.left clock.new) (K.faults keeper.new) keeper.new)
        steps.new) }
    ensures statuses { (result ≡ 0) ⊎ (result ≡ 6) ⊎ (result ≡ 8) }
    ensures doors { result ≡ 8 → Rose (D.faults doors.old) (D.faults doors.new) }
{
    let mut buffers = Buffers::new();
    for _ in 0..connections {
        match serve_one(
            alloc,
            &mut buffers,
            handler,
            host,
            clock,
            keeper,
            doors,
            steps,
        ) {
            Ok(ending) => {
                if ending == Ending::Memory {
                    return MEMORY;
                }
            }
            Err(Failed) => return DOORS,
        }
    }
    DONE
}

// Serves the next connection, and gives it back.
fn serve_one<C: Clock, K: Keeper, D: Doors, L: Ledger>(
    alloc: Global,
    buffers: &mut Buffers,
    handler: &RequestHandler,
    host: &mut HostWithScratch,
    clock: &mut C,
    keeper: &mut K,
    doors: &mut D,
    steps: &mut ReadCount<L>,
) -> Result<Ending, Failed>
    requires { IfSome (D.coming doors.old) (λ all. 0 < length all) }
    ensures served { LeadsAll K.tells K.serves K.holds K.passes
        (kept_as host.old.host (C.left clock.old) (K.faults keeper.old) keeper.old)
        (kept_as host.new.host (C.left clock.new) (K.faults keeper.new) keeper.new)
        (IsAskedOnce IsReplyUntil
        (doors_as (D.coming doors.old) (D.given_back doors.old) (D.faults doors.old))
        (doors_as (D.coming doors.new) (D.given_back doors.new) (D.faults doors.new)) result)
        (IsAskedOnce IsKeptReply
        (doors_as (D.coming doors.old) (D.given_back doors.old) (D.faults doors.old))
        (doors_as (D.coming doors.new) (D.given_back doors.new) (D.faults doors.new)) result) }
    ensures counts { CountOne
        (doors_as (D.coming doors.old) (D.given_back doors.old) (D.faults doors.old))
        (doors_as (D.coming doors.new) (D.given_back doors.new) (D.faults doors.new)) result
        (counted_as (kept_as host.old.host (C.left clock.old) (K.faults keeper.old) keeper.old)
        steps.old)
        (counted_as (kept_as host.new.host (C.left clock.new) (K.faults keeper.new) keeper.new)
        steps.new) }
    ensures coming { OnOk result (OneFewer (D.coming doors.old) (D.coming doors.new)) }
    ensures kept { OnOk result (D.faults doors.new ≡ D.faults doors.old) }
    ensures cause { OnErr result (Rose (D.faults doors.old) (D.faults doors.new)) }
{
    // The law on which messages a session answers, for the prover.
    sessions_answer::<ReadsFirst<K>>();
    let (mut source, mut sink) = doors.next()?;
    let ending = talk(
        alloc,
        buffers,
        handler,
        host,
        keeper,
        &mut source,
        &mut sink,
        clock,
        steps,
    );
    doors.give_back(source, sink);
    Ok(ending)
}
