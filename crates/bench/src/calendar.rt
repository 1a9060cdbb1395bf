//! The calls on the calendar: `pass`, `fixture`, `standing`, `set_deadline`, `move_fixture` and `add_fixture`. So many
//! fixtures stand before, over 38 gameweeks in turn; `add_fixture` adds them all to a new calendar.

use crate::Plan;
use fpl_base::{ClubId, FixtureId, Gw, Moment, Refused};
use season_calendar::{Calendar, Fixture};
use std::alloc::{AllocError, Global};

const GAMEWEEKS: u8 = 38;

// As many seconds lie between two deadlines: a week.
const WEEK: u64 = 604_800;

#[derive(Clone, Copy)]
enum Call {
    Pass,
    Fixture,
    Standing,
    SetDeadline,
    MoveFixture,
    AddFixture,
}

/// Makes so many of these calls, and answers what they told together.
pub fn told_of(alloc: Global, word: &str, plan: Plan) -> Option<u64> {
    let call = call_of(word)?;
    let mut calendar = filled(alloc, plan.size)?;
    called(alloc, &mut calendar, plan, call)
}

fn call_of(word: &str) -> Option<Call> {
    match word {
        "pass" => Some(Call::Pass),
        "fixture" => Some(Call::Fixture),
        "standing" => Some(Call::Standing),
        "set_deadline" => Some(Call::SetDeadline),
        "move_fixture" => Some(Call::MoveFixture),
        "add_fixture" => Some(Call::AddFixture),
        _ => None,
    }
}

// The deadline of a gameweek: a week after the one before.
fn deadline(number: u8) -> Option<Moment> {
    Moment::new(WEEK * u64::from(number))
}

fn deadlines(alloc: Global) -> Result<Vec<Moment>, AllocError> {
    let mut deadlines = Vec::new(alloc);
    for number in 1..=GAMEWEEKS {
        if let Some(moment) = deadline(number) {
            deadlines.push(moment)?;
        }
    }
    Ok(deadlines)
}

// A calendar with fixtures 1 to so many.
fn filled(alloc: Global, fixtures: u32) -> Option<Calendar> {
    let deadlines = deadlines(alloc).ok()?;
    if deadlines.is_empty() || deadlines.len() > usize::from(GAMEWEEKS) {
        return None;
    }
    let mut calendar = Calendar::new(alloc, &deadlines, 0).ok()?;
    for id in 1..=fixtures {
        add(&mut calendar, id)?;
    }
    Some(calendar)
}

// The gameweek of a fixture in turn.
fn gameweek(id: u32) -> Option<Gw> {
    Gw::new((id % u32::from(GAMEWEEKS)) as u8 + 1)
}

// Adds a fixture to its gameweek, three days after the deadline.
fn add(calendar: &mut Calendar, id: u32) -> Option<()> {
    let g = gameweek(id)?;
    if g.get() > calendar.gameweeks() {
        return None;
    }
    let fixture = Fixture {
        id: FixtureId::new(id)?,
        home: ClubId::new(1)?,
        away: ClubId::new(2)?,
        gw: Some(g),
        kickoff: Moment::new(WEEK * u64::from(g.get()) + WEEK / 2)?,
    };
    if calendar.add_fixture(fixture).is_err() {
        return None;
    }
    Some(())
}

// Makes the calls, over all fixtures in turn, and answers what they told together.
fn called(alloc: Global, calendar: &mut Calendar, plan: Plan, call: Call) -> Option<u64> {
    let mut total = 0u64;
    for turn in 0..plan.times {
        let id = turn.wrapping_mul(97) % plan.size.max(1) + 1;
        total = total.wrapping_add(told_by(alloc, calendar, plan, call, id)?);
    }
    Some(total)
}

fn told_by(alloc: Global, calendar: &mut Calendar, plan: Plan, call: Call, id: u32) -> Option<u64> {
    let f = FixtureId::new(id)?;
    let g = gameweek(id)?;
    match call {
        Call::Pass => Some(u64::from(calendar.pass(Moment::new(0)?))),
        Call::Fixture => Some(u64::from(calendar.fixture(f)?.kickoff.get() > 0)),
        Call::Standing => Some(calendar.standing(g).len() as u64),
        Call::SetDeadline => set(calendar, g),
        Call::MoveFixture => shift(calendar, f, g),
        Call::AddFixture => Some(u64::from(filled(alloc, plan.size)?.gameweeks())),
    }
}

fn set(calendar: &mut Calendar, g: Gw) -> Option<u64> {
    if g.get() > calendar.gameweeks() {
        return None;
    }
    calendar
        .set_deadline(g, deadline(g.get())?, Moment::new(0)?)
        .ok()?;
    Some(1)
}

// Moves a fixture to the gameweek before its own, three days after that deadline, and back.
fn shift(calendar: &mut Calendar, f: FixtureId, g: Gw) -> Option<u64> {
    let kickoff = calendar.fixture(f)?.kickoff;
    if calendar.move_fixture(f, None, kickoff, false).is_err() {
        return None;
    }
    if g.get() > calendar.gameweeks() || calendar.fixture(f).is_none() {
        return None;
    }
    if calendar.move_fixture(f, Some(g), kickoff, false).is_err() {
        return None;
    }
    Some(2)
}
