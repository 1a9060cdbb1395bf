ghost use Rattle.std.specs.Prelude.{◌≡◌, ◌<◌, ◌≤◌, IfOk, IfSome};
ghost use Rattle.season_book.specs.Commands.{IsCommand};
ghost use Rattle.season_generator.specs.Made.{caller_of, draws_before, moment_of, number_of, step_of};
ghost use Rattle.season_generator.specs.Places.{IsPlace};

use crate::commands::command_of;
use crate::draws::Draws;
use crate::places::{Place, place_of};
use fpl_base::{Caller, EntryId, Memory, Moment};
use season_book::Command;
use std::alloc::Global;
use std::marker::Model;

/// So many steps make the season.
pub const STEPS: u32 = 2122;

/// A command of a made-up season, with its number: who gives it, and at which moment.
#[derive(Drop)]
pub struct Step {
    pub caller: Caller,
    pub moment: Moment,
    pub number: u64,
    pub command: Command,
}

/// The made-up season of a seed. A contract sees the seed.
#[derive(Drop)]
pub struct MadeUpSeason {
    draws: Draws,
}

impl Model for MadeUpSeason {
    ghost use Rattle.std.specs.Prelude.{ℕ};

    ghost Value = { ℕ };

    ghost view = { λ s. s.draws.0 };
}

impl MadeUpSeason {
    /// The season of a seed.
    pub fn new(seed: u64) -> Self
        ensures { result ≡ seed }
    {
        MadeUpSeason {
            draws: Draws::new(seed),
        }
    }

    /// The step of this number, from 0; `Ok(None)` behind the last. Steps may be asked for in any order; in theirs each
    /// draw is made once.
    pub fn step(&mut self, alloc: Global, n: u32) -> Result<Option<Step>, Memory>
        ensures step { IfOk result (λ step. step ≡ step_of self.old n) }
        ensures lawful { IfOk result (λ step. IfSome step (λ s. IsCommand s.command)) }
        ensures same { self.new ≡ self.old }
    {
        let Some(place) = place_of(n) else {
            return Ok(None);
        };
        self.draws.go_to(draws_before(place));
        let command = command_of(alloc, &mut self.draws, place)?;
        Ok(Some(Step {
            caller: caller_of(place),
            moment: moment_of(place),
            number: number_of(place),
            command,
        }))
    }
}

// How many draws are taken before those of a step.
fn draws_before(place: Place) -> u32
    requires { IsPlace place }
    ensures value { result ≡ draws_before place }
    ensures range { result < 20000 }
{
    match place {
        Place::Player(p) => p - 1,
        Place::Squad(e) => 600 + 16 * (e - 1),
        Place::Sheet(f) => 8600 + 256 * (f - 1),
        _ => 8600,
    }
}

fn caller_of(place: Place) -> Caller
    requires { IsPlace place }
    ensures { result ≡ caller_of place }
{
    match place {
        Place::Squad(e) => Caller::Entry(entry(e)),
        Place::League => Caller::Entry(entry(1)),
        Place::Join(e) => Caller::Entry(entry(e)),
        _ => Caller::Operator,
    }
}

fn entry(e: u32) -> EntryId
    requires { 1 ≤ e }
    ensures { result ≡ e }
{
    match EntryId::new(e) {
        Some(e) => e,
        None => unreachable!(),
    }
}

fn moment_of(place: Place) -> Moment
    ensures { result ≡ moment_of place }
{
    match place {
        Place::Sheet(_) => moment(1_691_790_000),
        Place::Again => moment(1_691_790_000),
        _ => moment(1_691_700_000),
    }
}

pub(crate) fn moment(seconds: u64) -> Moment
    requires { seconds ≤ 253402300799 }
    ensures { result ≡ seconds }
{
    match Moment::new(seconds) {
        Some(moment) => moment,
        None => unreachable!(),
    }
}

fn number_of(place: Place) -> u64
    requires { IsPlace place }
    ensures { result ≡ number_of place }
{
    match place {
        Place::Season => 1,
        Place::Player(p) => 1 + u64::from(p),
        Place::Fixture(f) => 601 + u64::from(f),
        Place::Key(e) => 611 + u64::from(e),
        Place::Squad(_) => 1,
        Place::League => 2,
        Place::Join(_) => 2,
        Place::Sheet(f) => 1111 + u64::from(f),
        Place::Again => 1122,
    }
}
