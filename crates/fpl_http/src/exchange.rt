// One read, and the answers to what it brought.
ghost use Rattle.std.specs.Prelude.{◌≡◌, ◌≤◌, ◌<◌, ◌⊎◌, [], Err, length, take, MatchResult, OnErr};
ghost use Rattle.std.specs.Io.KnownBytes.{Consumes, IsAtEnd};
ghost use Rattle.fpl_base.specs.Causes.{Rose};
ghost use Rattle.fpl_http.specs.Held.{IsWaiting};
ghost use Rattle.fpl_http.specs.Replies.{Speaks};
ghost use Rattle.fpl_http.specs.Turns.{Exchanged};

use crate::decoder::Decoder;
use crate::ending::Ending;
use crate::piece::serve_piece;
use crate::places::Places;
use crate::service::Service;
use fpl_base::{Clock, Failed, Keeper, ReadCount, Sink, Source};
use std::alloc::Global;
use std::sync::ledger::Ledger;

/// Reads into a place once, at most so many bytes.
fn read_piece<S: Source>(src: &mut S, into: &mut [u8], most: u64) -> Result<usize, Failed>
    requires most { 0 < most }
    requires room { 0 < length into.old }
    ensures taken { MatchResult result
        (λ n. Consumes (S.left src.old) (S.left src.new) (take n into.new) × (n ≤ length into.new)
        × (n ≤ most)
        × (n ≡ 0 → IsAtEnd (S.left src.new)))
        (λ _. Consumes (S.left src.old) (S.left src.new) []) }
    ensures once { S.one_read src.old src.new }
    ensures later { S.faults src.old ≤ S.faults src.new }
    ensures failed { OnErr result (Rose (S.faults src.old) (S.faults src.new)) }
{
    let room = (into.len() as u64).min(most) as usize;
    src.read(&mut into[..room])
}

/// How a session ends where the source does.
fn end_of_input(decoder: &Decoder) -> Ending
    ensures { ((result ≡ Ending.Done) × (decoder.now.pending ≡ []))
        ⊎ ((result ≡ Ending.Cut) × (0 < length decoder.now.pending)) }
{
    if decoder.idle() {
        Ending::Done
    } else {
        Ending::Cut
    }
}

/// Reads a piece of at most so many bytes by one call of the source, answers each message that is whole, and says how long
/// the piece was, or how the session ended.
pub fn exchange<R: Service<H, K, C, L>, H, K: Keeper, S: Source, W: Sink, C: Clock, L: Ledger>(
    alloc: Global,
    places: &mut Places,
    buffer: &mut [u8],
    service: &R,
    host: &mut H,
    keeper: &mut K,
    src: &mut S,
    out: &mut W,
    clock: &mut C,
    steps: &mut ReadCount<L>,
    most: u64,
) -> Result<u64, Ending>
    requires most { 0 < most }
    requires room { length buffer.old ≡ 65536 }
    requires empty { places.old.outbox ≡ [] }
    requires waiting { IsWaiting places.old.decoder }
    requires ready { R.ready service.now (host.old, keeper.old, clock.old, steps.old) }
    ensures empty { places.new.outbox ≡ [] }
    ensures ready { R.ready service.now (host.new, keeper.new, clock.new, steps.new) }
    ensures exchanged { Exchanged (Speaks (R.answers service.now)) most (S.left src.old)
        (S.left src.new)
        places.old.decoder places.new.decoder
        (R.see (host.old, keeper.old, clock.old, steps.old))
        (R.see (host.new, keeper.new, clock.new, steps.new))
        (W.taken out.old) (W.taken out.new) result }
    ensures once { S.one_read src.old src.new }
    ensures read_later { S.faults src.old ≤ S.faults src.new }
    ensures write_later { W.faults out.old ≤ W.faults out.new }
    ensures read { result ≡ Err Ending.Read → Rose (S.faults src.old) (S.faults src.new) }
    ensures write { result ≡ Err Ending.Write → Rose (W.faults out.old) (W.faults out.new) }
{
    match read_piece(src, buffer, most) {
        Err(_) => Err(Ending::Read),
        Ok(0) => Err(end_of_input(&places.decoder)),
        Ok(count) => match serve_piece(
            alloc,
            places,
            service,
            host,
            keeper,
            clock,
            steps,
            out,
            &buffer[..count],
        ) {
            Some(ending) => Err(ending),
            None => Ok(count as u64),
        },
    }
}
