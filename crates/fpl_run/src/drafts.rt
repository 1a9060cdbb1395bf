// The command that plays a draft league.
ghost use Rattle.std.specs.Prelude.{◌≡◌, ◌≤◌, ◌⊎◌};
ghost use Rattle.fpl_base.specs.Causes.{Rose};
ghost use Rattle.fpl_run.specs.Drafts.{Drafted};

use crate::input::{InputFault, read_all};
use fpl_base::{Clock, Keeper, Key, ReadCount, Sink, Source};
use local_requests::status::{MEMORY, READ_FAULT, TOO_LONG};
use std::alloc::Global;
use std::sync::ledger::Ledger;

/// Plays a draft league of so many members by the rows that are the input, for the operator with this key, and answers the
/// exit status.
pub(crate) fn draft<S: Source, W: Sink, C: Clock, K: Keeper, L: Ledger>(
    alloc: Global,
    key: &Key,
    members: u8,
    input: &mut S,
    output: &mut W,
    clock: &mut C,
    keeper: &mut K,
    steps: &mut ReadCount<L>,
) -> u8
    requires few { (2 ≤ members) × (members ≤ 8) }
    ensures drafted { Drafted K.tells K.serves K.holds K.passes K.faults keeper.old keeper.new
        key.now members (S.left input.old) (S.left input.new) (C.left clock.old)
        (C.left clock.new) (W.taken output.old) (W.taken output.new) result }
    ensures read { result ≡ 1 → Rose (S.faults input.old) (S.faults input.new) }
    ensures write { result ≡ 3 → Rose (W.faults output.old) (W.faults output.new) }
    ensures keeper { result ≡ 4 → Rose (K.faults keeper.old) (K.faults keeper.new) }
    ensures statuses { (result ≡ 0) ⊎ (result ≡ 1) ⊎ (result ≡ 3) ⊎ (result ≡ 4) ⊎ (result ≡ 5)
        ⊎ (result ≡ 6) ⊎ (result ≡ 10) ⊎ (result ≡ 11) ⊎ (result ≡ 13) ⊎ (result ≡ 14) }
{
    match read_all(alloc, input) {
        Ok(bytes) => crate::draft_request::draft(
            alloc,
            key,
            members,
            bytes.as_slice(),
            output,
            clock,
            keeper,
            steps,
        ),
        Err(InputFault::Read) => READ_FAULT,
        Err(InputFault::Long) => TOO_LONG,
        Err(InputFault::Memory) => MEMORY,
    }
}
