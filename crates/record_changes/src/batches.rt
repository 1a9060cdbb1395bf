// What is committed of slots.
ghost use Rattle.std.specs.Prelude.{◌≡◌, Some, IfOk, OnOk};
ghost use Rattle.record_changes.specs.Batches.{AreToldInRange, KeepsBy, batch_by};

use crate::changes::delete;
use crate::competitions::{cup_op, last_op, league_op, member_op};
use crate::entries::{entry_op, team_op, transfer_op};
use crate::facts::{club_op, fixture_op, line_op, player_op, season_op};
use fpl_base::{Memory, Op};
use season_records::Slot;
use season_running::{Lasts, RunningSeason};
use std::alloc::Global;

/// What is committed of slots, as the running season, or none, and the last commands tell them: what is told of a slot is
/// put under its key, and what is not told is deleted. What is told of each has values in their ranges. Each slot costs a
/// look-up and what its record is long. It takes memory.
pub fn batch_of(
    alloc: Global,
    running: &Option<RunningSeason>,
    lasts: &Lasts,
    slots: &[Slot],
) -> Result<Vec<Op>, Memory>
    ensures batch { IfOk result (λ ops. ops.items ≡ batch_by running.now lasts.now slots.now) }
    ensures items { OnOk result (AreToldInRange running.now lasts.now slots.now) }
{
    let mut ops = Vec::with_capacity(alloc, slots.len())?;
    for slot in slots {
        ops.push(op_at(alloc, running, lasts, *slot)?)?;
    }
    Ok(ops)
}

// What is committed of one slot.
fn op_at(
    alloc: Global,
    running: &Option<RunningSeason>,
    lasts: &Lasts,
    slot: Slot,
) -> Result<Op, Memory>
    ensures { IfOk result (KeepsBy running.now lasts.now slot) }
{
    match running {
        Some(running) => op_in(alloc, running, lasts, slot),
        None => op_before(alloc, lasts, slot),
    }
}

// The same in a running season.
fn op_in(alloc: Global, running: &RunningSeason, lasts: &Lasts, slot: Slot) -> Result<Op, Memory>
    ensures { IfOk result (KeepsBy (Some running.now) lasts.now slot) }
{
    match slot {
        Slot::Season => season_op(alloc, running.season()),
        Slot::Club(club) => club_op(alloc, running.season(), club),
        Slot::Player(player) => player_op(alloc, running.season(), player),
        Slot::Fixture(fixture) => fixture_op(alloc, running.season(), fixture),
        Slot::Line(fixture, player) => line_op(alloc, running.season(), fixture, player),
        Slot::Entry(entry) => entry_op(alloc, running.managers(), entry),
        Slot::Team(entry, gameweek) => team_op(alloc, running.managers(), entry, gameweek),
        Slot::Transfer(entry, gameweek, number) => {
            transfer_op(alloc, running.managers(), entry, gameweek, number)
        }
        Slot::League(league) => league_op(alloc, running.leagues(), league),
        Slot::Member(league, entry) => member_op(alloc, running.leagues(), league, entry),
        Slot::Cup(cup) => cup_op(alloc, running.cups(), cup),
        Slot::Last(caller) => last_op(alloc, lasts, caller),
    }
}

// The same before the season: only last commands are told.
fn op_before(alloc: Global, lasts: &Lasts, slot: Slot) -> Result<Op, Memory>
    ensures { IfOk result (KeepsBy None lasts.now slot) }
{
    match slot {
        Slot::Last(caller) => last_op(alloc, lasts, caller),
        Slot::Season
        | Slot::Club(_)
        | Slot::Player(_)
        | Slot::Fixture(_)
        | Slot::Line(_, _)
        | Slot::Entry(_)
        | Slot::Team(_, _)
        | Slot::Transfer(_, _, _)
        | Slot::League(_)
        | Slot::Member(_, _)
        | Slot::Cup(_) => Ok(delete(slot)),
    }
}
