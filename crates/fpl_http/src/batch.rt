// Turns whose texts are written together.
ghost use Rattle.std.specs.Prelude.{◌≡◌, ◌≤◌, [], OnErr, Some};
ghost use Rattle.fpl_base.specs.Causes.{Rose};
ghost use Rattle.fpl_http.specs.Replies.{Speaks};
ghost use Rattle.fpl_http.specs.Turns.{Batched, Turned};

use crate::places::Places;
use crate::service::Service;
use crate::turn::{Turn, take_turn};
use fpl_base::{Clock, Failed, Keeper, ReadCount, Sink};
use std::alloc::Global;
use std::sync::ledger::Ledger;

/// Takes turns until the outbox is full, or there is nothing to answer.
fn take_turns<R: Service<H, K, C, L>, H, K: Keeper, C: Clock, L: Ledger>(
    alloc: Global,
    places: &mut Places,
    service: &R,
    host: &mut H,
    keeper: &mut K,
    clock: &mut C,
    steps: &mut ReadCount<L>,
) -> Turn
    requires empty { places.old.outbox ≡ [] }
    requires ready { R.ready service.now (host.old, keeper.old, clock.old, steps.old) }
    ensures ready { R.ready service.now (host.new, keeper.new, clock.new, steps.new) }
    ensures turned { Turned (Speaks (R.answers service.now)) places.old.decoder places.new.decoder
        (R.see (host.old, keeper.old, clock.old, steps.old))
        (R.see (host.new, keeper.new, clock.new, steps.new))
        (Some []) (Some places.new.outbox) result }
{
    loop {
        match take_turn(alloc, places, service, host, keeper, clock, steps) {
            Turn::Answered => {
                if places.outbox.is_full() {
                    return Turn::Answered;
                }
            }
            Turn::Waits => return Turn::Waits,
            Turn::Closed => return Turn::Closed,
            Turn::Refused(status) => return Turn::Refused(status),
        }
    }
}

/// Takes turns until the outbox is full, or there is nothing to answer, and writes their texts.
pub fn take_batch<R: Service<H, K, C, L>, H, K: Keeper, C: Clock, L: Ledger, W: Sink>(
    alloc: Global,
    places: &mut Places,
    service: &R,
    host: &mut H,
    keeper: &mut K,
    clock: &mut C,
    steps: &mut ReadCount<L>,
    out: &mut W,
) -> Result<Turn, Failed>
    requires empty { places.old.outbox ≡ [] }
    requires ready { R.ready service.now (host.old, keeper.old, clock.old, steps.old) }
    ensures empty { places.new.outbox ≡ [] }
    ensures ready { R.ready service.now (host.new, keeper.new, clock.new, steps.new) }
    ensures batched { Batched (Speaks (R.answers service.now)) places.old.decoder places.new.decoder
        (R.see (host.old, keeper.old, clock.old, steps.old))
        (R.see (host.new, keeper.new, clock.new, steps.new))
        (W.taken out.old) (W.taken out.new) result }
    ensures later { W.faults out.old ≤ W.faults out.new }
    ensures failed { OnErr result (Rose (W.faults out.old) (W.faults out.new)) }
{
    let turn = take_turns(alloc, places, service, host, keeper, clock, steps);
    let sent = places.outbox.send(out);
    match sent {
        Ok(()) => Ok(turn),
        Err(failed) => Err(failed),
    }
}
