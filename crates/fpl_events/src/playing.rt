// The rows of a match, done one after another.
ghost use Rattle.std.specs.Prelude.{◌≡◌, ◌≤◌, ◌<◌, ◌^◌, ◌⊎◌, false, length};
ghost use Rattle.fpl_base.specs.Causes.{Rose};
ghost use Rattle.fpl_events.specs.Rows.{AreDoable};
ghost use Rattle.request_handler.specs.Kept.{Leads, kept_as};
ghost use Rattle.fpl_events.specs.Playing.{IsPlayed};

use crate::row::EventRow;
use crate::rows::row_done;
use crate::telling::tell;
use fpl_base::{Clock, Keeper, ReadCount, Sink};
use match_events::MatchEvents;
use season_keeping::Host;
use std::alloc::Global;
use std::sync::ledger::Ledger;

/// Does the rows of a match of so many minutes, one after another. Where a row sends, it asks as the operator, under his next
/// numbers, to put the line of each player whose line changed into the fixture, or to take it out of it. Behind the last row
/// it writes how many commands were done; a row whose event is refused ends the run, and so does an answer to a command that
/// is not done. What was done before stays. It answers the exit status.
pub fn played<W: Sink, C: Clock, K: Keeper, L: Ledger>(
    alloc: Global,
    host: &mut Host,
    fixture: u32,
    minutes: u8,
    rows: &[EventRow],
    output: &mut W,
    clock: &mut C,
    keeper: &mut K,
    steps: &mut ReadCount<L>,
) -> u8
    requires fresh { host.old.stale ≡ false }
    requires doable { AreDoable minutes 0 rows.now }
    requires few { length rows.now < 2 ^ 32 }
    ensures played { Leads K.tells K.serves K.holds K.passes
        (kept_as host.old (C.left clock.old) (K.faults keeper.old) keeper.old)
        (kept_as host.new (C.left clock.new) (K.faults keeper.new) keeper.new)
        (IsPlayed fixture minutes rows.now (W.taken output.old) (W.taken output.new) result) }
    ensures statuses { (result ≡ 0) ⊎ (result ≡ 3) ⊎ (result ≡ 4) ⊎ (result ≡ 6) ⊎ (result ≡ 13)
        ⊎ (result ≡ 14) }
    ensures keeper { result ≡ 4 → Rose (K.faults keeper.old) (K.faults keeper.new) }
    ensures write { result ≡ 3 → Rose (W.faults output.old) (W.faults output.new) }
    ensures later { K.faults keeper.old ≤ K.faults keeper.new }
{
    let mut events = MatchEvents::new(alloc, minutes);
    let mut sent = 0u64;
    for place in 0..rows.len() {
        match row_done(
            alloc,
            host,
            fixture,
            place + 1,
            &rows[place],
            &mut events,
            output,
            clock,
            keeper,
            steps,
        ) {
            Ok(more) => sent += more,
            Err(status) => return status,
        }
    }
    tell(alloc, sent, output)
}
