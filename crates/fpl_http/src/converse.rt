// Piece after piece.
ghost use Rattle.std.specs.Prelude.{◌≡◌, ◌≢◌, ◌≤◌, ◌<◌, ◌-◌, [], length};
ghost use Rattle.fpl_base.specs.Causes.{Rose};
ghost use Rattle.fpl_http.specs.Held.{IsWaiting};
ghost use Rattle.fpl_http.specs.Replies.{Speaks};
ghost use Rattle.fpl_http.specs.Sessions.{SessionOf};

use crate::ending::Ending;
use crate::exchange::exchange;
use crate::places::Places;
use crate::service::Service;
use fpl_base::{Clock, Keeper, ReadCount, Sink, Source};
use std::alloc::Global;
use std::sync::ledger::Ledger;

/// How many bytes a session takes at most.
const MAX_BYTES: u64 = 4_294_967_296;

/// Reads pieces and answers their messages, until the session ends.
pub fn converse<R: Service<H, K, C, L>, H, K: Keeper, S: Source, W: Sink, C: Clock, L: Ledger>(
    alloc: Global,
    places: &mut Places,
    buffer: &mut [u8],
    service: &R,
    host: &mut H,
    keeper: &mut K,
    src: &mut S,
    out: &mut W,
    clock: &mut C,
    steps: &mut ReadCount<L>,
) -> Ending
    requires room { length buffer.old ≡ 65536 }
    requires empty { places.old.outbox ≡ [] }
    requires waiting { IsWaiting places.old.decoder }
    requires fresh { places.old.decoder.pending ≡ [] }
    requires ready { R.ready service.now (host.old, keeper.old, clock.old, steps.old) }
    ensures ready { R.ready service.now (host.new, keeper.new, clock.new, steps.new) }
    ensures session { SessionOf (Speaks (R.answers service.now)) (S.left src.old) (S.left src.new)
        (R.see (host.old, keeper.old, clock.old, steps.old))
        (R.see (host.new, keeper.new, clock.new, steps.new))
        (W.taken out.old) (W.taken out.new) result }
    ensures read_later { S.faults src.old ≤ S.faults src.new }
    ensures write_later { W.faults out.old ≤ W.faults out.new }
    ensures read { result ≡ Ending.Read → Rose (S.faults src.old) (S.faults src.new) }
    ensures write { result ≡ Ending.Write → Rose (W.faults out.old) (W.faults out.new) }
    ensures memory { result ≢ Ending.Memory }
{
    let mut taken = 0;
    while taken < MAX_BYTES {
        match exchange(
            alloc,
            places,
            buffer,
            service,
            host,
            keeper,
            src,
            out,
            clock,
            steps,
            MAX_BYTES - taken,
        ) {
            Ok(count) => taken += count,
            Err(ending) => return ending,
        }
    }
    Ending::Long
}
