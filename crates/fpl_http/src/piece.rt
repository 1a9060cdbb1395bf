// The messages that stand whole in a piece.
ghost use Rattle.std.specs.Prelude.{◌≡◌, ◌≤◌, ◌++◌, [], Some};
ghost use Rattle.fpl_base.specs.Causes.{Rose};
ghost use Rattle.fpl_http.specs.Held.{IsWaiting};
ghost use Rattle.fpl_http.specs.Replies.{Speaks};
ghost use Rattle.fpl_http.specs.Turns.{PieceServed};

use crate::batch::take_batch;
use crate::ending::Ending;
use crate::places::Places;
use crate::service::Service;
use crate::turn::Turn;
use fpl_base::{Clock, Keeper, ReadCount, Sink};
use std::alloc::Global;
use std::sync::ledger::Ledger;

/// Answers each message that the decoder holds whole, and says how the session ended, if it did.
fn answer_all<R: Service<H, K, C, L>, H, K: Keeper, C: Clock, L: Ledger, W: Sink>(
    alloc: Global,
    places: &mut Places,
    service: &R,
    host: &mut H,
    keeper: &mut K,
    clock: &mut C,
    steps: &mut ReadCount<L>,
    out: &mut W,
) -> Option<Ending>
    requires empty { places.old.outbox ≡ [] }
    requires ready { R.ready service.now (host.old, keeper.old, clock.old, steps.old) }
    ensures empty { places.new.outbox ≡ [] }
    ensures ready { R.ready service.now (host.new, keeper.new, clock.new, steps.new) }
    ensures served { PieceServed
        (Speaks (R.answers service.now)) places.old.decoder.pending places.new.decoder
        (R.see (host.old, keeper.old, clock.old, steps.old))
        (R.see (host.new, keeper.new, clock.new, steps.new))
        (W.taken out.old) (W.taken out.new) result }
    ensures later { W.faults out.old ≤ W.faults out.new }
    ensures failed { result ≡ Some Ending.Write → Rose (W.faults out.old) (W.faults out.new) }
{
    loop {
        match take_batch(alloc, places, service, host, keeper, clock, steps, out) {
            Ok(Turn::Answered) => {}
            Ok(Turn::Waits) => return None,
            Ok(Turn::Closed) => return Some(Ending::Closed),
            Ok(Turn::Refused(status)) => return Some(Ending::Refused(status)),
            Err(_) => return Some(Ending::Write),
        }
    }
}

/// Feeds a piece, answers each message that is whole, and says how the session ended, if it did.
pub fn serve_piece<R: Service<H, K, C, L>, H, K: Keeper, C: Clock, L: Ledger, W: Sink>(
    alloc: Global,
    places: &mut Places,
    service: &R,
    host: &mut H,
    keeper: &mut K,
    clock: &mut C,
    steps: &mut ReadCount<L>,
    out: &mut W,
    piece: &[u8],
) -> Option<Ending>
    requires empty { places.old.outbox ≡ [] }
    requires waiting { IsWaiting places.old.decoder }
    requires ready { R.ready service.now (host.old, keeper.old, clock.old, steps.old) }
    ensures empty { places.new.outbox ≡ [] }
    ensures ready { R.ready service.now (host.new, keeper.new, clock.new, steps.new) }
    ensures served { PieceServed (Speaks (R.answers service.now))
        (places.old.decoder.pending ++ piece.now) places.new.decoder
        (R.see (host.old, keeper.old, clock.old, steps.old))
        (R.see (host.new, keeper.new, clock.new, steps.new))
        (W.taken out.old) (W.taken out.new) result }
    ensures later { W.faults out.old ≤ W.faults out.new }
    ensures failed { result ≡ Some Ending.Write → Rose (W.faults out.old) (W.faults out.new) }
{
    let mut rest = piece;
    while !rest.is_empty() {
        let count = places.decoder.feed(rest);
        rest = &rest[count..];
        match answer_all(alloc, places, service, host, keeper, clock, steps, out) {
            Some(ending) => return Some(ending),
            None => {}
        }
    }
    None
}
