// One call of the decoder, and the answer to what it found.
ghost use Rattle.std.specs.Prelude.{◌≡◌, ◌≤◌, ◌++◌, ℕ, List, IsSome, Some, length};
ghost use Rattle.fpl_http.specs.Seen.{request_seen};
ghost use Rattle.fpl_http.specs.Stream.{Request};
ghost use Rattle.fpl_http.specs.Replies.{Speaks};
ghost use Rattle.fpl_http.specs.Turns.{Turned};

use crate::decoder::{Decoder, Message, Next};
use crate::outbox::Outbox;
use crate::places::Places;
use crate::service::Service;
use fpl_base::{Clock, Keeper, Memory, ReadCount};
use std::alloc::Global;
use std::sync::ledger::Ledger;

/// What came of calls of the decoder.
#[derive(Clone, Copy, Debug)]
pub enum Turn {
    /// Messages were answered, and others may stand behind them.
    Answered,
    /// More bytes have to come.
    Waits,
    /// The last message that was answered closes.
    Closed,
    /// Bytes are no message, and were answered with this status.
    Refused(u16),
}

const BYTES: &[u8] = b"{\"error\":\"bytes\"}";

/// Answers one message.
fn answer_message<R: Service<H, K, C, L>, H, K: Keeper, C: Clock, L: Ledger>(
    alloc: Global,
    service: &R,
    host: &mut H,
    keeper: &mut K,
    clock: &mut C,
    steps: &mut ReadCount<L>,
    outbox: &mut Outbox,
    message: &Message<'_>,
)
    requires room { length outbox.old ≤ 262144 }
    requires ready { R.ready service.now (host.old, keeper.old, clock.old, steps.old) }
    ensures ready { R.ready service.now (host.new, keeper.new, clock.new, steps.new) }
    ensures answered { (t : List ℕ)
        × Speaks (R.answers service.now) (R.see (host.old, keeper.old, clock.old, steps.old))
        (request_seen message.now) t (R.see (host.new, keeper.new, clock.new, steps.new))
        × (outbox.new ≡ outbox.old ++ t) }
{
    match service.reply(alloc, host, keeper, clock, steps, message) {
        Ok(reply) => outbox.respond(reply.status, &reply.body, message.closes),
        Err(Memory) => outbox.respond_without_memory(message.closes),
    }
}

/// Answers the message that the decoder found, and says whether it closes.
fn answer_found<R: Service<H, K, C, L>, H, K: Keeper, C: Clock, L: Ledger>(
    alloc: Global,
    decoder: &Decoder,
    service: &R,
    host: &mut H,
    keeper: &mut K,
    clock: &mut C,
    steps: &mut ReadCount<L>,
    outbox: &mut Outbox,
) -> bool
    requires found { IsSome decoder.now.found }
    requires room { length outbox.old ≤ 262144 }
    requires ready { R.ready service.now (host.old, keeper.old, clock.old, steps.old) }
    ensures ready { R.ready service.now (host.new, keeper.new, clock.new, steps.new) }
    ensures answered { (m : Request) × (t : List ℕ) × (decoder.now.found ≡ Some m)
        × Speaks (R.answers service.now) (R.see (host.old, keeper.old, clock.old, steps.old)) m t
        (R.see (host.new, keeper.new, clock.new, steps.new))
        × (outbox.new ≡ outbox.old ++ t) × (m.closes ≡ result) }
{
    let message = decoder.message().unwrap();
    answer_message(alloc, service, host, keeper, clock, steps, outbox, &message);
    message.closes
}

/// Calls the decoder once, and answers what it found.
pub fn take_turn<R: Service<H, K, C, L>, H, K: Keeper, C: Clock, L: Ledger>(
    alloc: Global,
    places: &mut Places,
    service: &R,
    host: &mut H,
    keeper: &mut K,
    clock: &mut C,
    steps: &mut ReadCount<L>,
) -> Turn
    requires room { length places.old.outbox ≤ 262144 }
    requires ready { R.ready service.now (host.old, keeper.old, clock.old, steps.old) }
    ensures ready { R.ready service.now (host.new, keeper.new, clock.new, steps.new) }
    ensures turned { Turned (Speaks (R.answers service.now)) places.old.decoder places.new.decoder
        (R.see (host.old, keeper.old, clock.old, steps.old))
        (R.see (host.new, keeper.new, clock.new, steps.new))
        (Some places.old.outbox) (Some places.new.outbox) result }
{
    match places.decoder.next() {
        Next::NeedMore => Turn::Waits,
        Next::Refused(status) => {
            places.outbox.respond(status, BYTES, true);
            Turn::Refused(status)
        }
        Next::Message => if answer_found(
            alloc,
            &places.decoder,
            service,
            host,
            keeper,
            clock,
            steps,
            &mut places.outbox,
        ) {
            Turn::Closed
        } else {
            Turn::Answered
        },
    }
}
