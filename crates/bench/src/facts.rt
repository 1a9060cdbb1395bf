//! The calls on match facts: `line`, `players`, `put_line`, `add_line`, `put_sheet` and `set_finished`. So many fixtures
//! of 64 lines each stand before.
ghost use Rattle.std.specs.Prelude.{◌≡◌, ◌<◌};

use crate::Plan;
use fpl_base::{FixtureId, Memory, PlayerId, ReadCount, Refused};
use match_facts::{Line, MatchFacts};
use std::alloc::Global;
use std::marker::Brand;
use std::sync::ledger::{Blank, Ledger};

// How many lines a sheet has.
const LINES: u32 = 64;

#[derive(Clone, Copy)]
enum Call {
    Line,
    Players,
    PutLine,
    AddLine,
    PutSheet,
    SetFinished,
}

/// Makes so many of these calls, and answers how many lines or players they told together.
pub fn told_of(alloc: Global, word: &str, plan: Plan) -> Option<u64> {
    let call = call_of(word)?;
    match ran::<Brand>(alloc, plan, call, Blank::new(1)) {
        Ok(total) => Some(total),
        Err(Refused::Memory) | Err(Refused::Rule(_)) => None,
    }
}

// Fills the facts, and makes the calls.
fn ran<L: Ledger>(alloc: Global, plan: Plan, call: Call, blank: Blank) -> Result<u64, Refused>
    requires name { blank.name ≡ L.name }
    requires parts { blank.parts ≡ L.parts }
    requires some { 0 < blank.parts }
{
    let sheet = sheet(alloc)?;
    let mut facts = filled(alloc, plan.size, &sheet)?;
    let mut steps: ReadCount<L> = ReadCount::open(blank);
    called(&mut facts, plan, call, &sheet, &mut steps)
}

fn call_of(word: &str) -> Option<Call> {
    match word {
        "line" => Some(Call::Line),
        "players" => Some(Call::Players),
        "put_line" => Some(Call::PutLine),
        "add_line" => Some(Call::AddLine),
        "put_sheet" => Some(Call::PutSheet),
        "set_finished" => Some(Call::SetFinished),
        _ => None,
    }
}

// The lines of players 1 to 64.
fn sheet(alloc: Global) -> Result<Vec<(PlayerId, Line)>, Memory> {
    let mut sheet = Vec::new(alloc);
    for id in 1..=LINES {
        if let Some(player) = PlayerId::new(id) {
            sheet.push((player, Line { figures: [1; 28] }))?;
        }
    }
    Ok(sheet)
}

// Facts with this sheet for fixtures 1 to so many.
fn filled(alloc: Global, fixtures: u32, sheet: &[(PlayerId, Line)]) -> Result<MatchFacts, Refused> {
    let mut facts = MatchFacts::new(alloc);
    for id in 1..=fixtures {
        if let Some(fixture) = FixtureId::new(id) {
            facts.put_sheet(fixture, true, sheet, true)?;
        }
    }
    Ok(facts)
}

// Makes the calls, over all fixtures and players in turn, and answers how many lines or players they told.
fn called<L: Ledger>(
    facts: &mut MatchFacts,
    plan: Plan,
    call: Call,
    sheet: &[(PlayerId, Line)],
    steps: &mut ReadCount<L>,
) -> Result<u64, Refused> {
    let mut total = 0u64;
    for turn in 0..plan.times {
        let fixture = FixtureId::new(turn.wrapping_mul(97) % plan.size.max(1) + 1);
        let player = PlayerId::new(turn.wrapping_mul(31) % LINES + 1);
        if let (Some(fixture), Some(player)) = (fixture, player) {
            let told = made(facts, call, fixture, player, sheet, steps)?;
            total = total.wrapping_add(told);
        }
    }
    Ok(total)
}

fn made<L: Ledger>(
    facts: &mut MatchFacts,
    call: Call,
    fixture: FixtureId,
    player: PlayerId,
    sheet: &[(PlayerId, Line)],
    steps: &mut ReadCount<L>,
) -> Result<u64, Refused> {
    let line = Line { figures: [1; 28] };
    match call {
        Call::Line => Ok(u64::from(facts.line(fixture, player, steps).is_some())),
        Call::Players => Ok(facts.players_of(fixture).len() as u64),
        Call::PutLine => facts.put_line(fixture, true, player, &line).map(|_| 1),
        Call::AddLine => {
            facts.drop_line(fixture, player);
            facts.put_line(fixture, true, player, &line).map(|_| 1)
        }
        Call::PutSheet => facts.put_sheet(fixture, true, sheet, true).map(|_| 1),
        Call::SetFinished => facts.set_finished(fixture, true, false).map(|_| 1),
    }
}
