// The commands, each by its members in their order.
ghost use Rattle.std.specs.Prelude.{◌≢◌, IfOk};
ghost use Rattle.season_book.specs.Commands.{IsCommand};
ghost use Rattle.fpl_requests.specs.Members.{Gives};
ghost use Rattle.fpl_requests.specs.Requests.{amend_fixture, amend_player, command_of, cup, deadline, draw, drop, finish, fixture, gone, guest, join, league, lineup, move, new_club, new_key, new_price, play, player, put, rekey, season, sheet, squad, transfers};
ghost use Rattle.json_tree.specs.Trees.{view};

use crate::lists::{clubs, coins, deadlines, fifteen, lines, order, player_line, slots, swaps};
use crate::members::{
    chip, club_id, code, fixture_id, gameweek, key, kind, moment, place, player_id, position,
    price, profile, title, truth, whole, wrong,
};
use crate::route::CommandRoute;
use crate::{FieldName, ReadFault};
use fpl_base::ClubId;
use json_tree::Tree;
use season_book::Command;
use std::alloc::Global;

/// The command of a route at the id of its target, a player, a fixture, an entry or a league, where it has one.
pub(crate) fn read_command(
    alloc: Global,
    which: CommandRoute,
    id: u32,
    value: &Tree<'_, '_>,
) -> Result<Command, ReadFault>
    ensures gives { Gives result (command_of which id (view value.now)) }
    ensures readable { IfOk result IsCommand }
{
    match which {
        CommandRoute::Season => season(alloc, value),
        CommandRoute::Deadlines => deadline(value),
        CommandRoute::Players => player(alloc, value),
        CommandRoute::Prices => new_price(value),
        CommandRoute::Clubs => new_club(value),
        CommandRoute::Gone => gone(value),
        CommandRoute::Fixtures => fixture(value),
        CommandRoute::Move => moved(id, value),
        CommandRoute::AmendPlayer => amend_player(alloc, id, value),
        CommandRoute::AmendFixture => amend_fixture(id, value),
        CommandRoute::Sheet => sheet(alloc, id, value),
        CommandRoute::Line => put(alloc, id, value),
        CommandRoute::Drop => dropped(id, value),
        CommandRoute::Finished => finished(id, value),
        CommandRoute::Keys => new_key(alloc, value),
        CommandRoute::Rekey => rekey(alloc, id, value),
        CommandRoute::Squad => squad(alloc, value),
        CommandRoute::Transfers => transfers(alloc, value),
        CommandRoute::Lineup => lineup(alloc, value),
        CommandRoute::Chip => play(value),
        CommandRoute::CancelChip => Ok(Command::CancelChip),
        CommandRoute::Leagues => league(alloc, value),
        CommandRoute::Join => join(alloc, id, value),
        CommandRoute::Draw => draw(alloc, id, value),
        CommandRoute::Cups => cup(alloc, value),
    }
}

fn season(alloc: Global, value: &Tree<'_, '_>) -> Result<Command, ReadFault>
    ensures gives { Gives result (season (view value.now)) }
    ensures readable { IfOk result IsCommand }
{
    let deadlines = deadlines(alloc, value)?;
    let greatest = deadlines.as_slice().len() as u64;
    let split = whole(value, FieldName::Split, 0, greatest)?;
    let clubs = clubs(alloc, value)?;
    let profile = profile(value, FieldName::Profile)?;
    Ok(Command::Season {
        profile,
        deadlines,
        split: split as u8,
        clubs,
    })
}

fn deadline(value: &Tree<'_, '_>) -> Result<Command, ReadFault>
    ensures gives { Gives result (deadline (view value.now)) }
    ensures readable { IfOk result IsCommand }
{
    let gameweek = gameweek(value, FieldName::Gameweek)?;
    let deadline = moment(value, FieldName::Deadline)?;
    Ok(Command::Deadline { gameweek, deadline })
}

fn player(alloc: Global, value: &Tree<'_, '_>) -> Result<Command, ReadFault>
    ensures gives { Gives result (player (view value.now)) }
    ensures readable { IfOk result IsCommand }
{
    let id = player_id(value, FieldName::Id)?;
    let name = title(alloc, value, FieldName::Name)?;
    let position = position(value, FieldName::Position)?;
    let club = club_id(value, FieldName::Club)?;
    let price = price(value, FieldName::Price)?;
    Ok(Command::Player {
        id,
        name,
        position,
        club,
        price,
    })
}

fn new_price(value: &Tree<'_, '_>) -> Result<Command, ReadFault>
    ensures gives { Gives result (new_price (view value.now)) }
    ensures readable { IfOk result IsCommand }
{
    let player = player_id(value, FieldName::Player)?;
    let price = price(value, FieldName::Price)?;
    Ok(Command::Price { player, price })
}

fn new_club(value: &Tree<'_, '_>) -> Result<Command, ReadFault>
    ensures gives { Gives result (new_club (view value.now)) }
    ensures readable { IfOk result IsCommand }
{
    let player = player_id(value, FieldName::Player)?;
    let club = club_id(value, FieldName::Club)?;
    Ok(Command::Club { player, club })
}

fn gone(value: &Tree<'_, '_>) -> Result<Command, ReadFault>
    ensures gives { Gives result (gone (view value.now)) }
    ensures readable { IfOk result IsCommand }
{
    let player = player_id(value, FieldName::Player)?;
    let gone = truth(value, FieldName::Gone)?;
    Ok(Command::Gone { player, gone })
}

fn fixture(value: &Tree<'_, '_>) -> Result<Command, ReadFault>
    ensures gives { Gives result (fixture (view value.now)) }
    ensures readable { IfOk result IsCommand }
{
    let id = fixture_id(value, FieldName::Id)?;
    let home = club_id(value, FieldName::Home)?;
    let away = guest(value, home)?;
    let gameweek = place(value, FieldName::Gameweek)?;
    let kickoff = moment(value, FieldName::Kickoff)?;
    Ok(Command::Fixture {
        id,
        home,
        away,
        gameweek,
        kickoff,
    })
}

// The guest club, which is not the home club.
fn guest(value: &Tree<'_, '_>, home: ClubId) -> Result<ClubId, ReadFault>
    ensures gives { Gives result (guest home (view value.now)) }
    ensures other { IfOk result (λ away. home ≢ away) }
{
    let away = club_id(value, FieldName::Away)?;
    if away == home {
        Err(wrong(FieldName::Away))
    } else {
        Ok(away)
    }
}

fn moved(fixture: u32, value: &Tree<'_, '_>) -> Result<Command, ReadFault>
    ensures gives { Gives result (move fixture (view value.now)) }
    ensures readable { IfOk result IsCommand }
{
    let gameweek = place(value, FieldName::Gameweek)?;
    let kickoff = moment(value, FieldName::Kickoff)?;
    Ok(Command::Move {
        fixture,
        gameweek,
        kickoff,
    })
}

fn amend_player(alloc: Global, player: u32, value: &Tree<'_, '_>) -> Result<Command, ReadFault>
    ensures gives { Gives result (amend_player player (view value.now)) }
    ensures readable { IfOk result IsCommand }
{
    let name = title(alloc, value, FieldName::Name)?;
    let position = position(value, FieldName::Position)?;
    Ok(Command::AmendPlayer {
        player,
        name,
        position,
    })
}

fn amend_fixture(fixture: u32, value: &Tree<'_, '_>) -> Result<Command, ReadFault>
    ensures gives { Gives result (amend_fixture fixture (view value.now)) }
    ensures readable { IfOk result IsCommand }
{
    let home = club_id(value, FieldName::Home)?;
    let away = guest(value, home)?;
    Ok(Command::AmendFixture {
        fixture,
        home,
        away,
    })
}

fn sheet(alloc: Global, fixture: u32, value: &Tree<'_, '_>) -> Result<Command, ReadFault>
    ensures gives { Gives result (sheet fixture (view value.now)) }
    ensures readable { IfOk result IsCommand }
{
    let lines = lines(alloc, value)?;
    let finished = truth(value, FieldName::Finished)?;
    Ok(Command::Sheet {
        fixture,
        lines,
        finished,
    })
}

fn put(alloc: Global, fixture: u32, value: &Tree<'_, '_>) -> Result<Command, ReadFault>
    ensures gives { Gives result (put fixture (view value.now)) }
    ensures readable { IfOk result IsCommand }
{
    let (player, line) = player_line(alloc, value)?;
    Ok(Command::Line {
        fixture,
        player,
        line,
    })
}

fn dropped(fixture: u32, value: &Tree<'_, '_>) -> Result<Command, ReadFault>
    ensures gives { Gives result (drop fixture (view value.now)) }
    ensures readable { IfOk result IsCommand }
{
    let player = player_id(value, FieldName::Player)?;
    Ok(Command::Drop { fixture, player })
}

fn finished(fixture: u32, value: &Tree<'_, '_>) -> Result<Command, ReadFault>
    ensures gives { Gives result (finish fixture (view value.now)) }
    ensures readable { IfOk result IsCommand }
{
    let finished = truth(value, FieldName::Finished)?;
    Ok(Command::Finished { fixture, finished })
}

fn new_key(alloc: Global, value: &Tree<'_, '_>) -> Result<Command, ReadFault>
    ensures gives { Gives result (new_key (view value.now)) }
    ensures readable { IfOk result IsCommand }
{
    let key = key(alloc, value, FieldName::Key)?;
    let name = title(alloc, value, FieldName::Name)?;
    Ok(Command::Key { key, name })
}

fn rekey(alloc: Global, entry: u32, value: &Tree<'_, '_>) -> Result<Command, ReadFault>
    ensures gives { Gives result (rekey entry (view value.now)) }
    ensures readable { IfOk result IsCommand }
{
    let key = key(alloc, value, FieldName::Key)?;
    let name = title(alloc, value, FieldName::Name)?;
    Ok(Command::Rekey { entry, key, name })
}

fn squad(alloc: Global, value: &Tree<'_, '_>) -> Result<Command, ReadFault>
    ensures gives { Gives result (squad (view value.now)) }
    ensures readable { IfOk result IsCommand }
{
    let players = fifteen(alloc, value)?;
    let captain = player_id(value, FieldName::Captain)?;
    let vice = player_id(value, FieldName::Vice)?;
    Ok(Command::Squad {
        players,
        captain,
        vice,
    })
}

fn transfers(alloc: Global, value: &Tree<'_, '_>) -> Result<Command, ReadFault>
    ensures gives { Gives result (transfers (view value.now)) }
    ensures readable { IfOk result IsCommand }
{
    let swaps = swaps(alloc, value)?;
    Ok(Command::Transfers { swaps })
}

fn lineup(alloc: Global, value: &Tree<'_, '_>) -> Result<Command, ReadFault>
    ensures gives { Gives result (lineup (view value.now)) }
    ensures readable { IfOk result IsCommand }
{
    let players = fifteen(alloc, value)?;
    let captain = player_id(value, FieldName::Captain)?;
    let vice = player_id(value, FieldName::Vice)?;
    Ok(Command::Lineup {
        players,
        captain,
        vice,
    })
}

fn play(value: &Tree<'_, '_>) -> Result<Command, ReadFault>
    ensures gives { Gives result (play (view value.now)) }
    ensures readable { IfOk result IsCommand }
{
    let chip = chip(value, FieldName::Chip)?;
    Ok(Command::Chip { chip })
}

fn league(alloc: Global, value: &Tree<'_, '_>) -> Result<Command, ReadFault>
    ensures gives { Gives result (league (view value.now)) }
    ensures readable { IfOk result IsCommand }
{
    let kind = kind(value, FieldName::Kind)?;
    let name = title(alloc, value, FieldName::Name)?;
    let code = code(alloc, value, FieldName::Code)?;
    let start = gameweek(value, FieldName::Start)?;
    Ok(Command::League {
        kind,
        name,
        code,
        start,
    })
}

fn join(alloc: Global, league: u32, value: &Tree<'_, '_>) -> Result<Command, ReadFault>
    ensures gives { Gives result (join league (view value.now)) }
    ensures readable { IfOk result IsCommand }
{
    let code = code(alloc, value, FieldName::Code)?;
    Ok(Command::Join { league, code })
}

fn draw(alloc: Global, league: u32, value: &Tree<'_, '_>) -> Result<Command, ReadFault>
    ensures gives { Gives result (draw league (view value.now)) }
    ensures readable { IfOk result IsCommand }
{
    let order = order(alloc, value)?;
    Ok(Command::Draw { league, order })
}

fn cup(alloc: Global, value: &Tree<'_, '_>) -> Result<Command, ReadFault>
    ensures gives { Gives result (cup (view value.now)) }
    ensures readable { IfOk result IsCommand }
{
    let start = gameweek(value, FieldName::Start)?;
    let slots = slots(alloc, value)?;
    let coins = coins(alloc, value)?;
    Ok(Command::Cup {
        start,
        slots,
        coins,
    })
}
