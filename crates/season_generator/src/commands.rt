// The commands of a made-up season.
ghost use Rattle.std.specs.Prelude.{◌≡◌, ◌<◌, ◌≤◌, ◌+◌, ◌^◌, IfOk, true};
ghost use Rattle.season_generator.specs.Made.{clubs, command_at, draws_before, fixture_command, key_command, league_command, line_again, player_command, season_command, squad_command};
ghost use Rattle.season_generator.specs.Draws.{draws_at};
ghost use Rattle.season_generator.specs.Places.{IsPlace};
ghost use Rattle.season_book.specs.declared.command.Command.TheVariants as command;
ghost use Rattle.season_generator.specs.Made.{join_command, lines_at};

use crate::draws::Draws;
use crate::forms::{key_of, league_code, league_name, name_of};
use crate::made::moment;
use crate::places::Place;
use crate::sheets::{line_of, lines_of};
use crate::squads::{player, position_in, squad_by};
use fpl_base::{ClubId, FixtureId, Gw, Memory, Profile};
use rule_book::LeagueKind;
use season_book::{Clubs, Command, Moments};
use std::alloc::Global;

// The command of a place, behind the draws of those before it.
pub(crate) fn command_of(alloc: Global, draws: &mut Draws, place: Place) -> Result<Command, Memory>
    requires place { IsPlace place }
    requires draws { draws.old.1 ≡ draws_before place }
    ensures command { IfOk result (λ command. command ≡ command_at draws.old.0 place) }
    ensures seed { draws.new.0 ≡ draws.old.0 }
{
    match place {
        Place::Season => season(alloc),
        Place::Player(p) => player_of(alloc, draws, p),
        Place::Fixture(f) => Ok(fixture_of(f)),
        Place::Key(e) => entry_of(alloc, e),
        Place::Squad(e) => Ok(team_of(draws, e)),
        Place::League => league(alloc),
        Place::Join(_) => join(alloc),
        Place::Sheet(f) => sheet_of(alloc, draws, f),
        Place::Again => Ok(again(draws)),
    }
}

fn season(alloc: Global) -> Result<Command, Memory>
    ensures { IfOk result (λ command. command ≡ season_command) }
{
    let mut deadlines = Moments::new(alloc);
    deadlines.push(moment(1_691_775_000))?;
    Ok(Command::Season {
        profile: Profile::A,
        deadlines,
        split: 1,
        clubs: clubs_of(alloc)?,
    })
}

fn clubs_of(alloc: Global) -> Result<Clubs, Memory>
    ensures { IfOk result (λ list. list ≡ clubs 20) }
{
    let mut list = Clubs::new(alloc);
    for before in 0..20u32 {
        list.push((club(before + 1), name_of(alloc, "C", before + 1)?))?;
    }
    Ok(list)
}

fn club(id: u32) -> ClubId
    requires from_1 { 1 ≤ id }
    requires to_20 { id ≤ 20 }
    ensures { result ≡ id }
{
    match ClubId::new(id as u8) {
        Some(club) => club,
        None => unreachable!(),
    }
}

fn player_of(alloc: Global, draws: &mut Draws, p: u32) -> Result<Command, Memory>
    requires from_1 { 1 ≤ p }
    requires to_600 { p ≤ 600 }
    requires draws { draws.old.1 + 1 ≡ p }
    ensures command { IfOk result (λ command. command ≡ player_command draws.old.0 p) }
    ensures seed { draws.new.0 ≡ draws.old.0 }
{
    let drawn = draws.take();
    Ok(Command::Player {
        id: player(p),
        name: name_of(alloc, "P", p)?,
        position: position_in((p - 1) / 20),
        club: club((p - 1) % 20 + 1),
        price: (40 + drawn % 25) as u16,
    })
}

fn fixture_of(f: u32) -> Command
    requires from_1 { 1 ≤ f }
    requires to_10 { f ≤ 10 }
    ensures { result ≡ fixture_command f }
{
    Command::Fixture {
        id: fixture(f),
        home: club(2 * f - 1),
        away: club(2 * f),
        gameweek: Some(first_gameweek()),
        kickoff: moment(1_691_780_400),
    }
}

fn fixture(id: u32) -> FixtureId
    requires from_1 { 1 ≤ id }
    requires to_10 { id ≤ 10 }
    ensures { result ≡ id }
{
    match FixtureId::new(id) {
        Some(fixture) => fixture,
        None => unreachable!(),
    }
}

fn first_gameweek() -> Gw
    ensures { result ≡ 1 }
{
    match Gw::new(1) {
        Some(gameweek) => gameweek,
        None => unreachable!(),
    }
}

fn entry_of(alloc: Global, e: u32) -> Result<Command, Memory>
    ensures { IfOk result (λ command. command ≡ key_command e) }
{
    Ok(Command::Key {
        key: key_of(alloc, e)?,
        name: name_of(alloc, "E", e)?,
    })
}

fn team_of(draws: &mut Draws, e: u32) -> Command
    requires entry { e ≤ 500 }
    requires draws { draws.old.1 + 16 < 2 ^ 32 }
    ensures command { result ≡ squad_command e (draws_at draws.old.0 draws.old.1 16) }
    ensures seed { draws.new.0 ≡ draws.old.0 }
{
    let mut drawn = [0u32; 16];
    draws.take_into(&mut drawn);
    let players = squad_by(e, &drawn);
    let captain = players[1 + (drawn[15] % 10) as usize];
    Command::Squad {
        players,
        captain,
        vice: players[0],
    }
}

fn league(alloc: Global) -> Result<Command, Memory>
    ensures { IfOk result (λ command. command ≡ league_command) }
{
    Ok(Command::League {
        kind: LeagueKind::Classic,
        name: league_name(alloc)?,
        code: league_code(alloc)?,
        start: first_gameweek(),
    })
}

fn join(alloc: Global) -> Result<Command, Memory>
    ensures { IfOk result (λ command. command ≡ join_command) }
{
    Ok(Command::Join {
        league: 1,
        code: league_code(alloc)?,
    })
}

fn sheet_of(alloc: Global, draws: &mut Draws, f: u32) -> Result<Command, Memory>
    requires from_1 { 1 ≤ f }
    requires to_10 { f ≤ 10 }
    requires draws { draws.old.1 + 256 < 2 ^ 32 }
    ensures command { IfOk result
        (λ sheet. sheet ≡ command.Sheet f (lines_at draws.old.0 draws.old.1 f 32) true) }
    ensures seed { draws.new.0 ≡ draws.old.0 }
{
    Ok(Command::Sheet {
        fixture: f,
        lines: lines_of(alloc, draws, f)?,
        finished: true,
    })
}

// The first line of the first fixture, with 90 minutes and one goal more.
fn again(draws: &mut Draws) -> Command
    requires { draws.old.1 ≡ 8600 }
    ensures command { result ≡ line_again draws.old.0 }
    ensures seed { draws.new.0 ≡ draws.old.0 }
{
    let (player, mut line) = line_of(draws, 1, 0);
    line.figures[0] = 90;
    line.figures[1] += 1;
    Command::Line {
        fixture: 1,
        player,
        line,
    }
}
