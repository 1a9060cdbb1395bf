// The command that runs one session over the input and the output.
ghost use Rattle.std.specs.Prelude.{◌≡◌};
ghost use Rattle.fpl_base.specs.Causes.{Rose};
ghost use Rattle.fpl_run.specs.Pipe.{Pipes, status_of};
ghost use Rattle.fpl_run.specs.Reading.{PipeCounts};

use crate::opening::unopened;
use crate::talk::talk;
use fpl_base::{Clock, Keeper, Key, ReadCount, Sink, Source};
use fpl_http::{Buffers, Ending};
use local_requests::status::{CUT, DONE, MEMORY, READ_FAULT, REFUSED, TOO_LONG, WRITE_FAULT};
use request_handler::opened;
use std::alloc::Global;
use std::sync::ledger::Ledger;

/// Runs one session for the operator with this key, and answers the exit status. Reads are counted for messages; those by
/// which the host is opened are counted apart.
pub fn pipe<S: Source, W: Sink, C: Clock, K: Keeper, L: Ledger>(
    alloc: Global,
    key: &Key,
    input: &mut S,
    output: &mut W,
    clock: &mut C,
    keeper: &mut K,
    steps: &mut ReadCount<L>,
) -> u8
    ensures session { Pipes K.tells K.serves K.holds K.passes K.faults keeper.old keeper.new key.now
        (S.left input.old) (S.left input.new) (C.left clock.old) (C.left clock.new)
        (W.taken output.old) (W.taken output.new) result steps.old steps.new }
    ensures reads { PipeCounts K.tells K.holds K.passes keeper.old keeper.new key.now
        (S.left input.old) (S.left input.new) (C.left clock.old) (C.left clock.new) steps.old
        steps.new }
    ensures read { result ≡ 1 → Rose (S.faults input.old) (S.faults input.new) }
    ensures write { result ≡ 3 → Rose (W.faults output.old) (W.faults output.new) }
    ensures keeper { result ≡ 4 → Rose (K.faults keeper.old) (K.faults keeper.new) }
    ensures no_doors { result ≡ 8 → ⊥ }
    ensures no_shelf { result ≡ 9 → ⊥ }
{
    match opened(alloc, key, keeper) {
        Ok((handler, mut host)) => ended(talk(
            alloc,
            &mut Buffers::new(),
            &handler,
            &mut host,
            keeper,
            input,
            output,
            clock,
            steps,
        )),
        Err(fault) => unopened(alloc, fault, output),
    }
}

// The exit status behind a session.
fn ended(ending: Ending) -> u8
    ensures status { result ≡ status_of ending }
    ensures no_doors { result ≡ 8 → ⊥ }
    ensures no_shelf { result ≡ 9 → ⊥ }
    ensures no_keeper { result ≡ 4 → ⊥ }
{
    match ending {
        Ending::Done => DONE,
        Ending::Closed => DONE,
        Ending::Read => READ_FAULT,
        Ending::Write => WRITE_FAULT,
        Ending::Memory => MEMORY,
        Ending::Cut => CUT,
        Ending::Long => TOO_LONG,
        Ending::Refused(_) => REFUSED,
    }
}
