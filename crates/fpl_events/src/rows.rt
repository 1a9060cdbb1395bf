// One row, done on the events.
ghost use Rattle.std.specs.Prelude.{◌≡◌, ◌≤◌, ◌+◌, ◌-◌, ◌⊎◌, Err, IfErr, IfOk, OnOk, false, length, true};
ghost use Rattle.fpl_base.specs.Causes.{Rose};
ghost use Rattle.fpl_events.specs.Rows.{IsDoable, events_after};
ghost use Rattle.request_handler.specs.Kept.{Leads, kept_as};
ghost use Rattle.match_events.specs.Events.{is_event};
ghost use Rattle.match_events.specs.Sheets.{insert_refusal, remove_refusal, with_event, without_event};
ghost use Rattle.fpl_events.specs.Playing.{DoesRow, Edits, EndsBy};

use crate::row::EventRow;
use crate::sending::send_changed;
use fpl_base::{Clock, Keeper, ReadCount, Sink};
use local_requests::refused_row;
use local_requests::status::MEMORY;
use match_events::{Event, EventRefused, MatchEvents};
use season_keeping::Host;
use std::alloc::Global;
use std::sync::ledger::Ledger;

// Does the row of a number, from 1. `Ok` has how many commands it sent, `Err` the exit status.
pub(crate) fn row_done<W: Sink, C: Clock, K: Keeper, L: Ledger>(
    alloc: Global,
    host: &mut Host,
    fixture: u32,
    number: usize,
    row: &EventRow,
    events: &mut MatchEvents,
    output: &mut W,
    clock: &mut C,
    keeper: &mut K,
    steps: &mut ReadCount<L>,
) -> Result<u64, u8>
    requires fresh { host.old.stale ≡ false }
    requires doable { IsDoable events.old.minutes (length events.old.events) row.now }
    ensures done { Leads K.tells K.serves K.holds K.passes
        (kept_as host.old (C.left clock.old) (K.faults keeper.old) keeper.old)
        (kept_as host.new (C.left clock.new) (K.faults keeper.new) keeper.new)
        (DoesRow fixture number row.now events.old events.new (W.taken output.old)
        (W.taken output.new) result) }
    ensures minutes { OnOk result (events.new.minutes ≡ events.old.minutes) }
    ensures count { OnOk result
        (length events.new.events ≡ events_after (length events.old.events) row.now) }
    ensures few { IfOk result (λ sent. sent ≤ 400) }
    ensures fresh { OnOk result (host.new.stale ≡ false) }
    ensures output { OnOk result (output.new ≡ output.old) }
    ensures statuses { IfErr result (λ status.
        (status ≡ 3) ⊎ (status ≡ 4) ⊎ (status ≡ 6) ⊎ (status ≡ 13) ⊎ (status ≡ 14)) }
    ensures keeper { result ≡ Err 4 → Rose (K.faults keeper.old) (K.faults keeper.new) }
    ensures write { result ≡ Err 3 → Rose (W.faults output.old) (W.faults output.new) }
    ensures later { K.faults keeper.old ≤ K.faults keeper.new }
{
    match row {
        EventRow::Insert { place, event } => {
            inserted(alloc, number, *place, *event, events, output)
        }
        EventRow::Remove { place } => removed(alloc, number, *place, events, output),
        EventRow::Send => send_changed(alloc, host, fixture, events, output, clock, keeper, steps),
    }
}

// Inserts an event, in the row of a number.
fn inserted<W: Sink>(
    alloc: Global,
    number: usize,
    place: usize,
    event: Event,
    events: &mut MatchEvents,
    output: &mut W,
) -> Result<u64, u8>
    requires place { (1 ≤ place) × (place ≤ length events.old.events + 1) }
    requires event { is_event events.old.minutes event ≡ true }
    ensures done { Edits number (insert_refusal events.old.events place event)
        (record events.old { events = with_event events.old.events place event }) events.new
        (W.taken output.old) (W.taken output.new) result }
    ensures minutes { OnOk result (events.new.minutes ≡ events.old.minutes) }
    ensures count { OnOk result (length events.new.events ≡ length events.old.events + 1) }
    ensures none { IfOk result (λ sent. sent ≡ 0) }
    ensures output { OnOk result (output.new ≡ output.old) }
    ensures statuses { IfErr result (λ status. (status ≡ 3) ⊎ (status ≡ 6) ⊎ (status ≡ 14)) }
    ensures write { result ≡ Err 3 → Rose (W.faults output.old) (W.faults output.new) }
{
    match events.insert(place, event) {
        Ok(()) => Ok(0),
        Err(why) => Err(ended(alloc, number, why, output)),
    }
}

// Takes the event at a place away, in the row of a number.
fn removed<W: Sink>(
    alloc: Global,
    number: usize,
    place: usize,
    events: &mut MatchEvents,
    output: &mut W,
) -> Result<u64, u8>
    requires { (1 ≤ place) × (place ≤ length events.old.events) }
    ensures done { Edits number (remove_refusal events.old.events place)
        (record events.old { events = without_event events.old.events place }) events.new
        (W.taken output.old) (W.taken output.new) result }
    ensures minutes { OnOk result (events.new.minutes ≡ events.old.minutes) }
    ensures count { OnOk result (length events.new.events ≡ length events.old.events - 1) }
    ensures none { IfOk result (λ sent. sent ≡ 0) }
    ensures output { OnOk result (output.new ≡ output.old) }
    ensures statuses { IfErr result (λ status. (status ≡ 3) ⊎ (status ≡ 6) ⊎ (status ≡ 14)) }
    ensures write { result ≡ Err 3 → Rose (W.faults output.old) (W.faults output.new) }
{
    match events.remove(place) {
        Ok(()) => Ok(0),
        Err(why) => Err(ended(alloc, number, why, output)),
    }
}

// Ends the run by the row of a number whose event was refused.
fn ended<W: Sink>(alloc: Global, number: usize, why: EventRefused, output: &mut W) -> u8
    ensures ends { EndsBy number why result (W.taken output.old) (W.taken output.new) }
    ensures statuses { (result ≡ 3) ⊎ (result ≡ 6) ⊎ (result ≡ 14) }
    ensures write { result ≡ 3 → Rose (W.faults output.old) (W.faults output.new) }
{
    match why {
        EventRefused::Rule(rule) => refused_row(alloc, number, rule.number(), output),
        EventRefused::Memory => MEMORY,
    }
}
