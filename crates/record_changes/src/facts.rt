// What is committed of the facts.
ghost use Rattle.std.specs.Prelude.{◌≡◌, ◌<◌, ◌≤◌, Some, IfOk, IfSome, length, slice_get, option_copied};
ghost use Rattle.std.specs.Option.{option_map};
ghost use Rattle.rule_book.specs.ById.{at_id};
ghost use Rattle.season_records.specs.declared.slot.Slot.TheVariants as slot;
ghost use Rattle.season_records.specs.declared.item.Item.TheVariants as item;
ghost use Rattle.record_changes.specs.Batches.{Keeps, KeepsOfFacts};

use crate::changes::{delete, price_told, put};
use crate::seeking::line_at;
use fpl_base::{ClubId, Gw, Memory, Moment, Name, Op};
use rule_book::Player;
use season_book::Moments;
use season_calendar::Calendar;
use season_facts::Season;
use season_records::{Item, Slot, encode_player};
use std::alloc::Global;

// Of the season itself.
pub fn season_op(alloc: Global, season: &Season) -> Result<Op, Memory>
    ensures { IfOk result (KeepsOfFacts season.now slot.Season) }
{
    let calendar = season.calendar();
    let item = Item::Season {
        profile: season.profile(),
        split: calendar.split(),
        locked: calendar.locked(),
        deadlines: deadlines_of(alloc, calendar)?,
    };
    put(alloc, &item)
}

// The deadlines of a season, by gameweek.
fn deadlines_of(alloc: Global, calendar: &Calendar) -> Result<Moments, Memory>
    ensures all { IfOk result (λ moments. moments ≡ calendar.now.deadlines) }
    ensures few { IfOk result (λ moments. length moments ≤ 255) }
{
    let mut moments = Moments::new(alloc);
    for place in 0..calendar.gameweeks() {
        moments.push(deadline_at(calendar, place))?;
    }
    Ok(moments)
}

// The deadline at a place, counted from 0.
fn deadline_at(calendar: &Calendar, place: u8) -> Moment
    requires { place < length calendar.now.deadlines }
    ensures { slice_get calendar.now.deadlines place ≡ Some result }
{
    // That a calendar has at most 38 gameweeks, for the prover.
    let _known = calendar.gameweeks();
    calendar.deadline(Gw::new(place + 1).unwrap()).unwrap()
}

// Of a club.
pub fn club_op(alloc: Global, season: &Season, club: u32) -> Result<Op, Memory>
    ensures { IfOk result (KeepsOfFacts season.now (slot.Club club)) }
{
    let clubs = season.clubs()?;
    match club_at(clubs.as_slice(), club) {
        Some(row) => {
            let item = Item::Club {
                club: row.0,
                name: row.1.copy()?,
            };
            put(alloc, &item)
        }
        None => Ok(delete(Slot::Club(club))),
    }
}

// The club of a number with its name.
fn club_at(clubs: &[(ClubId, Name)], club: u32) -> Option<&(ClubId, Name)>
    ensures club { IfSome result (λ row. row.now.0 ≡ club) }
    ensures name { option_map (λ row. row.1) (option_copied result) ≡ at_id clubs.now club }
{
    for row in clubs {
        if u32::from(row.0.get()) == club {
            return Some(row);
        }
    }
    None
}

// Of a player.
pub fn player_op(alloc: Global, season: &Season, player: u32) -> Result<Op, Memory>
    ensures { IfOk result (KeepsOfFacts season.now (slot.Player player)) }
{
    match season.player(player) {
        Some(there) => put_player(alloc, there, price_told(there.price)?),
        None => Ok(delete(Slot::Player(player))),
    }
}

fn put_player(alloc: Global, there: &Player, price: u16) -> Result<Op, Memory>
    ensures { IfOk result
        (Keeps (slot.Player there.now.id)
        (Some (item.Player there.now.id there.now.position there.now.club price there.now.gone
        there.now.name))) }
{
    let (key, body) = encode_player(
        alloc,
        there.id,
        there.position,
        there.club,
        price,
        there.gone,
        &there.name,
    )?;
    Ok(Op::Put(key, body))
}

// Of a fixture, with its finished mark.
pub fn fixture_op(alloc: Global, season: &Season, fixture: u32) -> Result<Op, Memory>
    ensures { IfOk result (KeepsOfFacts season.now (slot.Fixture fixture)) }
{
    match season.fixture(fixture) {
        Some(there) => {
            let item = Item::Fixture {
                fixture: there.id,
                home: there.home,
                away: there.away,
                gameweek: there.gw,
                kickoff: there.kickoff,
                finished: season.is_finished(there.id),
            };
            put(alloc, &item)
        }
        None => Ok(delete(Slot::Fixture(fixture))),
    }
}

// Of the line of a player in a fixture.
pub fn line_op(alloc: Global, season: &Season, fixture: u32, player: u32) -> Result<Op, Memory>
    ensures { IfOk result (KeepsOfFacts season.now (slot.Line fixture player)) }
{
    match line_at(season.matches(), fixture, player) {
        Some(placed) => {
            let item = Item::Line {
                fixture: placed.fixture,
                player: placed.player,
                line: *placed.line,
            };
            put(alloc, &item)
        }
        None => Ok(delete(Slot::Line(fixture, player))),
    }
}
