// Records, read from their bodies.
ghost use Rattle.std.specs.Prelude.{◌≡◌, ◌+◌, ◌==◌, ◌&&◌, nat_le, length};
ghost use Rattle.record_fields.specs.Given.{IsGiven};
ghost use Rattle.record_fields.specs.Reading.{kept};
ghost use Rattle.season_records.specs.ItemReading.{season_in, club_in, player_in, fixture_in, line_in, entry_in, team_in, transfer_in, league_in, member_in, cup_in, last_in, item_in};
ghost use Rattle.season_records.specs.Items.{is_item};

use crate::orderable::is_orderable;
use crate::read_commands::command_at;
use crate::{Item, Slot};
use fpl_base::{ClubId, CupId, EntryId, FixtureId, Gw, LeagueId, PlayerId};
use record_fields::{
    Reading, Unread, club_id, cup_id, entry_id, fixture_id, gameweek_of, league_id, player_id,
};
use rule_book::Line;
use std::alloc::Global;

// The record of a slot.
pub fn item_in(alloc: Global, slot: Slot, body: &[u8]) -> Result<Item, Unread>
    ensures { IsGiven result (item_in slot body.now) }
{
    match slot {
        Slot::Season => season_in(alloc, body),
        Slot::Club(club) => club_in(alloc, club_id(club)?, body),
        Slot::Player(player) => player_in(alloc, player_id(player)?, body),
        Slot::Fixture(fixture) => fixture_in(fixture_id(fixture)?, body),
        Slot::Line(fixture, player) => line_in(fixture_id(fixture)?, player_id(player)?, body),
        Slot::Entry(entry) => entry_in(alloc, entry_id(entry)?, body),
        Slot::Team(entry, gameweek) => team_in(entry_id(entry)?, gameweek_of(gameweek)?, body),
        Slot::Transfer(entry, gameweek, number) => {
            transfer_in(entry_id(entry)?, gameweek_of(gameweek)?, number, body)
        }
        Slot::League(league) => league_in(alloc, league_id(league)?, body),
        Slot::Member(league, entry) => member_in(league_id(league)?, entry_id(entry)?, body),
        Slot::Cup(cup) => cup_in(alloc, cup_id(cup)?, body),
        Slot::Last(caller) => last_in(alloc, caller, body),
    }
}

#[tactic(auto, unfolding(crate::specs::ItemReading::season_in))]
fn season_in(alloc: Global, body: &[u8]) -> Result<Item, Unread>
    ensures { IsGiven result (season_in body.now) }
{
    let mut reading = Reading::of(body);
    let profile = reading.profile()?;
    let count = reading.u8()?;
    let split = reading.u8()?;
    let locked = reading.u8()?;
    let deadlines = reading.moments(alloc, count as usize)?;
    if !reading.is_done() {
        return Err(Unread::Nothing);
    }
    one_that_can_be(Item::Season {
        profile,
        split,
        locked,
        deadlines,
    })
}

#[tactic(auto, unfolding(crate::specs::ItemReading::club_in))]
fn club_in(alloc: Global, club: ClubId, body: &[u8]) -> Result<Item, Unread>
    ensures { IsGiven result (club_in club body.now) }
{
    let mut reading = Reading::of(body);
    let name = reading.short_name(alloc)?;
    if !reading.is_done() {
        return Err(Unread::Nothing);
    }
    Ok(Item::Club { club, name })
}

#[tactic(auto, unfolding(crate::specs::ItemReading::player_in))]
fn player_in(alloc: Global, player: PlayerId, body: &[u8]) -> Result<Item, Unread>
    ensures { IsGiven result (player_in player body.now) }
{
    let mut reading = Reading::of(body);
    let position = reading.position()?;
    let club = reading.club()?;
    let price = reading.u16()?;
    let gone = reading.flag()?;
    let name = reading.short_name(alloc)?;
    if !reading.is_done() {
        return Err(Unread::Nothing);
    }
    Ok(Item::Player {
        player,
        position,
        club,
        price,
        gone,
        name,
    })
}

#[tactic(auto, unfolding(crate::specs::ItemReading::fixture_in))]
fn fixture_in(fixture: FixtureId, body: &[u8]) -> Result<Item, Unread>
    ensures { IsGiven result (fixture_in fixture body.now) }
{
    let mut reading = Reading::of(body);
    let home = reading.club()?;
    let away = reading.club()?;
    let gameweek = reading.place()?;
    let kickoff = reading.moment()?;
    let finished = reading.flag()?;
    if !reading.is_done() {
        return Err(Unread::Nothing);
    }
    Ok(Item::Fixture {
        fixture,
        home,
        away,
        gameweek,
        kickoff,
        finished,
    })
}

#[tactic(auto, unfolding(crate::specs::ItemReading::line_in))]
fn line_in(fixture: FixtureId, player: PlayerId, body: &[u8]) -> Result<Item, Unread>
    ensures { IsGiven result (line_in fixture player body.now) }
{
    let mut reading = Reading::of(body);
    let figures = reading.figures()?;
    if !reading.is_done() {
        return Err(Unread::Nothing);
    }
    Ok(Item::Line {
        fixture,
        player,
        line: Line { figures },
    })
}

#[tactic(auto, unfolding(crate::specs::ItemReading::entry_in))]
fn entry_in(alloc: Global, entry: EntryId, body: &[u8]) -> Result<Item, Unread>
    ensures { IsGiven result (entry_in entry body.now) }
{
    let mut reading = Reading::of(body);
    let first = reading.place()?;
    let key = reading.short_key(alloc)?;
    let name = reading.short_name(alloc)?;
    if !reading.is_done() {
        return Err(Unread::Nothing);
    }
    Ok(Item::Entry {
        entry,
        first,
        key,
        name,
    })
}

#[tactic(auto, unfolding(crate::specs::ItemReading::team_in))]
fn team_in(entry: EntryId, gameweek: Gw, body: &[u8]) -> Result<Item, Unread>
    ensures { IsGiven result (team_in entry gameweek body.now) }
{
    let mut reading = Reading::of(body);
    let picks = reading.picks()?;
    let captain = reading.u8()?;
    let vice = reading.u8()?;
    let bank = reading.u32()?;
    let chip = reading.chip()?;
    if !reading.is_done() {
        return Err(Unread::Nothing);
    }
    Ok(Item::Team {
        entry,
        gameweek,
        picks,
        captain,
        vice,
        bank,
        chip,
    })
}

#[tactic(auto, unfolding(crate::specs::ItemReading::transfer_in))]
fn transfer_in(entry: EntryId, gameweek: Gw, number: u32, body: &[u8]) -> Result<Item, Unread>
    ensures { IsGiven result (transfer_in entry gameweek number body.now) }
{
    let mut reading = Reading::of(body);
    let out = reading.player()?;
    let into = reading.player()?;
    let sold = reading.u16()?;
    let bought = reading.u16()?;
    if !reading.is_done() {
        return Err(Unread::Nothing);
    }
    one_that_can_be(Item::Transfer {
        entry,
        gameweek,
        number,
        out,
        into,
        sold,
        bought,
    })
}

#[tactic(auto, unfolding(crate::specs::ItemReading::league_in))]
fn league_in(alloc: Global, league: LeagueId, body: &[u8]) -> Result<Item, Unread>
    ensures { IsGiven result (league_in league body.now) }
{
    let mut reading = Reading::of(body);
    let kind = reading.kind()?;
    let start = reading.gameweek()?;
    let creator = reading.entry()?;
    let count = reading.u8()?;
    let order = reading.order(alloc, count as usize)?;
    let code = reading.short_code(alloc)?;
    let name = reading.short_name(alloc)?;
    if !reading.is_done() {
        return Err(Unread::Nothing);
    }
    one_that_can_be(Item::League {
        league,
        kind,
        start,
        creator,
        order,
        code,
        name,
    })
}

#[tactic(auto, unfolding(crate::specs::ItemReading::member_in))]
fn member_in(league: LeagueId, entry: EntryId, body: &[u8]) -> Result<Item, Unread>
    ensures { IsGiven result (member_in league entry body.now) }
{
    if !body.is_empty() {
        return Err(Unread::Nothing);
    }
    Ok(Item::Member { league, entry })
}

#[tactic(auto, unfolding(crate::specs::ItemReading::cup_in))]
fn cup_in(alloc: Global, cup: CupId, body: &[u8]) -> Result<Item, Unread>
    ensures { IsGiven result (cup_in cup body.now) }
{
    let mut reading = Reading::of(body);
    let start = reading.gameweek()?;
    let count = reading.u16()?;
    let slots = reading.slots(alloc, count as usize)?;
    let ties = slots.as_slice().len().saturating_sub(1);
    let coins = reading.coins(alloc, ties)?;
    if !reading.is_done() {
        return Err(Unread::Nothing);
    }
    one_that_can_be(Item::Cup {
        cup,
        start,
        slots,
        coins,
    })
}

#[tactic(auto, unfolding(crate::specs::ItemReading::last_in))]
fn last_in(alloc: Global, caller: u32, body: &[u8]) -> Result<Item, Unread>
    ensures { IsGiven result (last_in caller body.now) }
{
    let mut reading = Reading::of(body);
    let number = reading.u64()?;
    let status = reading.u16()?;
    let made = reading.u32()?;
    let command = command_at(alloc, &mut reading)?;
    if !reading.is_done() {
        return Err(Unread::Nothing);
    }
    one_that_can_be(Item::Last {
        caller,
        number,
        status,
        made,
        command,
    })
}

// The item, where its lists have lengths that its body tells, and its command can be ordered.
fn one_that_can_be(item: Item) -> Result<Item, Unread>
    ensures { IsGiven result (kept is_item item) }
{
    if can_be(&item) {
        Ok(item)
    } else {
        Err(Unread::Nothing)
    }
}

pub fn can_be(item: &Item) -> bool
    ensures { result ≡ is_item item.now }
{
    match *item {
        Item::Season { ref deadlines, .. } => deadlines.as_slice().len() <= 255,
        Item::Transfer { number, .. } => number >= 1,
        Item::League { ref order, .. } => order.as_slice().len() <= 255,
        Item::Cup {
            ref slots,
            ref coins,
            ..
        } => are_as_many(slots.as_slice(), coins.as_slice()),
        Item::Last { ref command, .. } => is_orderable(command),
        _ => true,
    }
}

// A coin fewer than slots, of which there are at most 65,535.
fn are_as_many(slots: &[u32], coins: &[u8]) -> bool
    ensures { result
        ≡ (nat_le (length slots.now) 65535 && length coins.now + 1 == length slots.now) }
{
    slots.len() <= 65_535 && coins.len() + 1 == slots.len()
}
