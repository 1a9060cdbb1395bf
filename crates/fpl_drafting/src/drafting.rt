// The command.
ghost use Rattle.std.specs.Prelude.{◌≡◌, ◌≤◌, ◌⊎◌, false};
ghost use Rattle.fpl_base.specs.Causes.{Rose};
ghost use Rattle.request_handler.specs.Kept.{Leads, kept_as};
ghost use Rattle.fpl_drafting.specs.Rows.{AreRowsOf};
ghost use Rattle.fpl_drafting.specs.Drafting.{IsDrafted, IsToldOf};

use crate::row::DraftRow;
use crate::steps::steps_done;
use crate::tabling::tabled;
use crate::telling::{tell_outcomes, tell_picks};
use draft_league::Draft;
use fpl_base::{Clock, Keeper, ReadCount, Sink};
use local_requests::status::DONE;
use season_keeping::Host;
use std::alloc::Global;
use std::sync::ledger::Ledger;

/// Does the rows of a draft league of so many members, one after another: for each pick and bid it asks the host, as the
/// operator, for the player who is to come. Behind the last row it writes the outcomes of all waivers, and then how many picks
/// were made where the draft is open, or the members' table, for which it asks the season and the points of their players. A
/// row that is refused ends the run, and so does an answer that shows nothing of a player. It answers the exit status.
pub fn drafted<W: Sink, C: Clock, K: Keeper, L: Ledger>(
    alloc: Global,
    host: &mut Host,
    members: u8,
    rows: &[DraftRow],
    output: &mut W,
    clock: &mut C,
    keeper: &mut K,
    steps: &mut ReadCount<L>,
) -> u8
    requires fresh { host.old.stale ≡ false }
    requires few { (2 ≤ members) × (members ≤ 8) }
    requires own { AreRowsOf members rows.now }
    ensures drafted { Leads K.tells K.serves K.holds K.passes
        (kept_as host.old (C.left clock.old) (K.faults keeper.old) keeper.old)
        (kept_as host.new (C.left clock.new) (K.faults keeper.new) keeper.new)
        (IsDrafted members rows.now (W.taken output.old) (W.taken output.new) result) }
    ensures statuses { (result ≡ 0) ⊎ (result ≡ 3) ⊎ (result ≡ 4) ⊎ (result ≡ 6) ⊎ (result ≡ 13)
        ⊎ (result ≡ 14) }
    ensures keeper { result ≡ 4 → Rose (K.faults keeper.old) (K.faults keeper.new) }
    ensures write { result ≡ 3 → Rose (W.faults output.old) (W.faults output.new) }
    ensures later { K.faults keeper.old ≤ K.faults keeper.new }
{
    let draft = Draft::new(alloc, members);
    match steps_done(alloc, host, rows, draft, output, clock, keeper, steps) {
        Ok(draft) => told(alloc, host, &draft, output, clock, keeper, steps),
        Err(status) => status,
    }
}

// Writes the outcomes of all waivers, and then how many picks were made where the draft is open, and else the table.
fn told<W: Sink, C: Clock, K: Keeper, L: Ledger>(
    alloc: Global,
    host: &mut Host,
    draft: &Draft,
    output: &mut W,
    clock: &mut C,
    keeper: &mut K,
    steps: &mut ReadCount<L>,
) -> u8
    requires fresh { host.old.stale ≡ false }
    ensures told { Leads K.tells K.serves K.holds K.passes
        (kept_as host.old (C.left clock.old) (K.faults keeper.old) keeper.old)
        (kept_as host.new (C.left clock.new) (K.faults keeper.new) keeper.new)
        (IsToldOf draft.now (W.taken output.old) (W.taken output.new) result) }
    ensures statuses { (result ≡ 0) ⊎ (result ≡ 3) ⊎ (result ≡ 4) ⊎ (result ≡ 6) ⊎ (result ≡ 13) }
    ensures keeper { result ≡ 4 → Rose (K.faults keeper.old) (K.faults keeper.new) }
    ensures write { result ≡ 3 → Rose (W.faults output.old) (W.faults output.new) }
    ensures later { K.faults keeper.old ≤ K.faults keeper.new }
{
    let written = tell_outcomes(alloc, draft.outcomes(), output);
    if written != DONE {
        return written;
    }
    if draft.is_over() {
        tabled(alloc, host, draft, output, clock, keeper, steps)
    } else {
        tell_picks(alloc, draft.picks(), output)
    }
}
