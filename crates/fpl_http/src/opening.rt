// The whole session.
ghost use Rattle.std.specs.Prelude.{◌≡◌, ◌≢◌, ◌≤◌, ◌<◌, IfSome, false, true};
ghost use Rattle.fpl_base.specs.Causes.{Rose};
ghost use Rattle.fpl_http.specs.Replies.{Speaks};
ghost use Rattle.fpl_http.specs.Sessions.{EndsAs, SessionOf, SessionOver};

use crate::converse::converse;
use crate::ending::Ending;
use crate::laws::two_readings_are_one;
use crate::places::Buffers;
use crate::service::Service;
use fpl_base::{Clock, Keeper, Memory, ReadCount, Sink, Source};
use std::alloc::Global;
use std::sync::ledger::Ledger;

/// Answers the messages of a source into a sink, one after another. It reads pieces of 65,536 bytes, and takes 2^32 bytes
/// at most. The answers to what a piece brought are written together, before the next read, and earlier where they are
/// more than 262,144 bytes. A response that finds no memory is the fixed one of status 507, bytes that are no message
/// are answered with the body `{"error":"bytes"}`, and nothing behind a message that closes is answered. What it keeps is in
/// the buffers, which the sessions that follow it use again: of what another left in them nothing is heard or told.
pub fn session<R: Service<H, K, C, L>, H, K: Keeper, S: Source, W: Sink, C: Clock, L: Ledger>(
    alloc: Global,
    buffers: &mut Buffers,
    service: &R,
    host: &mut H,
    keeper: &mut K,
    src: &mut S,
    out: &mut W,
    clock: &mut C,
    steps: &mut ReadCount<L>,
) -> Ending
    requires { R.ready service.now (host.old, keeper.old, clock.old, steps.old) }
    ensures ready { R.ready service.now (host.new, keeper.new, clock.new, steps.new) }

    // What was answered, of the bytes that were taken and of all that the source had.
    ensures session { SessionOf (Speaks (R.answers service.now)) (S.left src.old) (S.left src.new)
        (R.see (host.old, keeper.old, clock.old, steps.old))
        (R.see (host.new, keeper.new, clock.new, steps.new))
        (W.taken out.old) (W.taken out.new) result }
    ensures over { IfSome (S.left src.old) (λ all. SessionOver (Speaks (R.answers service.now)) all
        (R.see (host.old, keeper.old, clock.old, steps.old))
        (R.see (host.new, keeper.new, clock.new, steps.new))
        (W.taken out.old) (W.taken out.new) result) }
    ensures exact { IfSome (S.left src.old) (λ all. EndsAs all result) }

    // Memory is wanting only where the buffers were not there, and they stay.
    ensures memory { result ≡ Ending.Memory → buffers.old ≡ false }
    ensures kept { buffers.old ≡ true → buffers.new ≡ true }

    // A fault is answered only where its count rose, and no count falls.
    ensures read_later { S.faults src.old ≤ S.faults src.new }
    ensures write_later { W.faults out.old ≤ W.faults out.new }
    ensures read { result ≡ Ending.Read → Rose (S.faults src.old) (S.faults src.new) }
    ensures write { result ≡ Ending.Write → Rose (W.faults out.old) (W.faults out.new) }
{
    // The law that a stream is read in one way, for the prover.
    two_readings_are_one();
    open_session(
        alloc, buffers, service, host, keeper, src, out, clock, steps,
    )
}

/// Takes what a session needs, and runs it.
fn open_session<R: Service<H, K, C, L>, H, K: Keeper, S: Source, W: Sink, C: Clock, L: Ledger>(
    alloc: Global,
    buffers: &mut Buffers,
    service: &R,
    host: &mut H,
    keeper: &mut K,
    src: &mut S,
    out: &mut W,
    clock: &mut C,
    steps: &mut ReadCount<L>,
) -> Ending
    requires { R.ready service.now (host.old, keeper.old, clock.old, steps.old) }
    ensures ready { R.ready service.now (host.new, keeper.new, clock.new, steps.new) }
    ensures session { SessionOf (Speaks (R.answers service.now)) (S.left src.old) (S.left src.new)
        (R.see (host.old, keeper.old, clock.old, steps.old))
        (R.see (host.new, keeper.new, clock.new, steps.new))
        (W.taken out.old) (W.taken out.new) result }
    ensures memory { result ≡ Ending.Memory → buffers.old ≡ false }
    ensures kept { buffers.old ≡ true → buffers.new ≡ true }
    ensures read_later { S.faults src.old ≤ S.faults src.new }
    ensures write_later { W.faults out.old ≤ W.faults out.new }
    ensures read { result ≡ Ending.Read → Rose (S.faults src.old) (S.faults src.new) }
    ensures write { result ≡ Ending.Write → Rose (W.faults out.old) (W.faults out.new) }
{
    match buffers.take(alloc) {
        Ok((mut places, mut piece)) => {
            let ending = converse(
                alloc,
                &mut places,
                &mut piece,
                service,
                host,
                keeper,
                src,
                out,
                clock,
                steps,
            );
            buffers.keep(places, piece);
            ending
        }
        Err(Memory) => Ending::Memory,
    }
}
