// The command for draft leagues.
ghost use Rattle.std.specs.Prelude.{◌≡◌, ◌≤◌, ◌⊎◌};
ghost use Rattle.fpl_base.specs.Causes.{Rose};
ghost use Rattle.fpl_drafting.specs.Rows.{AreRowsOf};
ghost use Rattle.fpl_drafting.specs.Drafting.{IsDrafted};
ghost use Rattle.fpl_run.specs.Requests.{Drafts, RunsThrough};

use crate::opening::unopened;
use fpl_base::{Clock, Keeper, Key, ReadCount, Sink};
use fpl_drafting::{DraftRow, draft_rows, drafted};
use local_requests::unread_rows;
use season_keeping::Host;
use std::alloc::Global;
use std::sync::ledger::Ledger;

/// Plays a draft league of so many members by the rows of what they do, for the operator with this key, writes what becomes
/// of it, and answers the exit status.
pub fn draft<W: Sink, C: Clock, K: Keeper, L: Ledger>(
    alloc: Global,
    key: &Key,
    members: u8,
    bytes: &[u8],
    output: &mut W,
    clock: &mut C,
    keeper: &mut K,
    steps: &mut ReadCount<L>,
) -> u8
    requires few { (2 ≤ members) × (members ≤ 8) }
    ensures drafts { Drafts K.tells K.serves K.holds K.passes K.faults keeper.old keeper.new key.now
        members bytes.now (C.left clock.old) (C.left clock.new) (W.taken output.old)
        (W.taken output.new) result }
    ensures statuses { (result ≡ 0) ⊎ (result ≡ 3) ⊎ (result ≡ 4) ⊎ (result ≡ 5) ⊎ (result ≡ 6)
        ⊎ (result ≡ 11) ⊎ (result ≡ 13) ⊎ (result ≡ 14) }
    ensures write { result ≡ 3 → Rose (W.faults output.old) (W.faults output.new) }
    ensures keeper { result ≡ 4 → Rose (K.faults keeper.old) (K.faults keeper.new) }
{
    match draft_rows(alloc, bytes, members) {
        Ok(rows) => draft_all(
            alloc,
            key,
            members,
            rows.as_slice(),
            output,
            clock,
            keeper,
            steps,
        ),
        Err(fault) => unread_rows(alloc, fault, output),
    }
}

// Does these rows.
fn draft_all<W: Sink, C: Clock, K: Keeper, L: Ledger>(
    alloc: Global,
    key: &Key,
    members: u8,
    rows: &[DraftRow],
    output: &mut W,
    clock: &mut C,
    keeper: &mut K,
    steps: &mut ReadCount<L>,
) -> u8
    requires few { (2 ≤ members) × (members ≤ 8) }
    requires own { AreRowsOf members rows.now }
    ensures drafts { RunsThrough K.tells K.serves K.holds K.passes K.faults keeper.old keeper.new
        key.now (C.left clock.old) (C.left clock.new) (W.taken output.old) (W.taken output.new)
        result (IsDrafted members rows.now (W.taken output.old) (W.taken output.new) result) }
    ensures statuses { (result ≡ 0) ⊎ (result ≡ 3) ⊎ (result ≡ 4) ⊎ (result ≡ 5) ⊎ (result ≡ 6)
        ⊎ (result ≡ 13) ⊎ (result ≡ 14) }
    ensures write { result ≡ 3 → Rose (W.faults output.old) (W.faults output.new) }
    ensures keeper { result ≡ 4 → Rose (K.faults keeper.old) (K.faults keeper.new) }
{
    match Host::open(alloc, keeper, key, steps) {
        Ok(mut host) => drafted(
            alloc, &mut host, members, rows, output, clock, keeper, steps,
        ),
        Err(fault) => unopened(alloc, fault, output),
    }
}
