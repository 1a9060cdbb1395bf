// Commands, read from bytes.
ghost use Rattle.record_fields.specs.Given.{IsGiven, IsRead};
ghost use Rattle.record_fields.specs.Reading.{kept};
ghost use Rattle.season_records.specs.CommandReading.{season_at, deadline_at, new_player_at, amend_player_at, price_at, new_club_at, gone_at, new_fixture_at, move_at, amend_fixture_at, sheet_at, one_line_at, drop_at, finished_at, new_key_at, rekey_at, squad_at, transfers_at, lineup_at, new_chip_at, new_league_at, join_at, draw_at, new_cup_at, cancel_at, numbered_at, command_at};
ghost use Rattle.season_records.specs.Commands.{is_command};

use crate::orderable::is_orderable;
use record_fields::{Reading, Unread};
use season_book::Command;
use std::alloc::Global;

// A command behind its number.
#[tactic(auto, unfolding(crate::specs::CommandReading::command_at))]
pub fn command_at(alloc: Global, reading: &mut Reading<'_>) -> Result<Command, Unread>
    ensures { IsRead result reading.new (command_at reading.old) }
{
    let number = reading.u8()?;
    numbered_at(alloc, reading, number)
}

// What stands behind the number of a command.
#[tactic(auto, unfolding(crate::specs::CommandReading::cancel_at))]
fn numbered_at(alloc: Global, reading: &mut Reading<'_>, number: u8) -> Result<Command, Unread>
    ensures { IsRead result reading.new (numbered_at number reading.old) }
{
    match number {
        1 => season_at(alloc, reading),
        2 => deadline_at(reading),
        3 => new_player_at(alloc, reading),
        4 => price_at(reading),
        5 => new_club_at(reading),
        6 => gone_at(reading),
        7 => new_fixture_at(reading),
        8 => move_at(reading),
        9 => sheet_at(alloc, reading),
        10 => one_line_at(reading),
        11 => drop_at(reading),
        12 => finished_at(reading),
        13 => new_key_at(alloc, reading),
        14 => squad_at(reading),
        15 => transfers_at(alloc, reading),
        16 => lineup_at(reading),
        17 => new_chip_at(reading),
        18 => Ok(Command::CancelChip),
        19 => new_league_at(alloc, reading),
        20 => join_at(alloc, reading),
        21 => draw_at(alloc, reading),
        22 => new_cup_at(alloc, reading),
        23 => rekey_at(alloc, reading),
        24 => amend_player_at(alloc, reading),
        25 => amend_fixture_at(reading),
        _ => Err(Unread::Nothing),
    }
}

// The members of each command.
#[tactic(auto, unfolding(crate::specs::CommandReading::season_at, record_fields::specs::ListReading::list_at))]
fn season_at(alloc: Global, reading: &mut Reading<'_>) -> Result<Command, Unread>
    ensures { IsRead result reading.new (season_at reading.old) }
{
    let count = reading.u16()?;
    let deadlines = reading.moments(alloc, count as usize)?;
    let split = reading.whole_u8()?;
    let count = reading.u16()?;
    let clubs = reading.clubs(alloc, count as usize)?;
    let profile = reading.profile_end()?;
    ordered(Command::Season {
        profile,
        deadlines,
        split,
        clubs,
    })
}

#[tactic(auto, unfolding(crate::specs::CommandReading::deadline_at))]
fn deadline_at(reading: &mut Reading<'_>) -> Result<Command, Unread>
    ensures { IsRead result reading.new (deadline_at reading.old) }
{
    let gameweek = reading.whole_gameweek()?;
    let deadline = reading.moment()?;
    Ok(Command::Deadline { gameweek, deadline })
}

#[tactic(auto, unfolding(crate::specs::CommandReading::new_player_at))]
fn new_player_at(alloc: Global, reading: &mut Reading<'_>) -> Result<Command, Unread>
    ensures { IsRead result reading.new (new_player_at reading.old) }
{
    let id = reading.whole_player()?;
    let name = reading.long_name(alloc)?;
    let position = reading.position()?;
    let club = reading.whole_club()?;
    let price = reading.whole_u16()?;
    Ok(Command::Player {
        id,
        name,
        position,
        club,
        price,
    })
}

#[tactic(auto, unfolding(crate::specs::CommandReading::amend_player_at))]
fn amend_player_at(alloc: Global, reading: &mut Reading<'_>) -> Result<Command, Unread>
    ensures { IsRead result reading.new (amend_player_at reading.old) }
{
    let player = reading.u32()?;
    let name = reading.long_name(alloc)?;
    let position = reading.position()?;
    Ok(Command::AmendPlayer {
        player,
        name,
        position,
    })
}

#[tactic(auto, unfolding(crate::specs::CommandReading::price_at))]
fn price_at(reading: &mut Reading<'_>) -> Result<Command, Unread>
    ensures { IsRead result reading.new (price_at reading.old) }
{
    let player = reading.whole_player()?;
    let price = reading.whole_u16()?;
    Ok(Command::Price { player, price })
}

#[tactic(auto, unfolding(crate::specs::CommandReading::new_club_at))]
fn new_club_at(reading: &mut Reading<'_>) -> Result<Command, Unread>
    ensures { IsRead result reading.new (new_club_at reading.old) }
{
    let player = reading.whole_player()?;
    let club = reading.whole_club()?;
    Ok(Command::Club { player, club })
}

#[tactic(auto, unfolding(crate::specs::CommandReading::gone_at))]
fn gone_at(reading: &mut Reading<'_>) -> Result<Command, Unread>
    ensures { IsRead result reading.new (gone_at reading.old) }
{
    let player = reading.whole_player()?;
    let gone = reading.flag()?;
    Ok(Command::Gone { player, gone })
}

#[tactic(auto, unfolding(crate::specs::CommandReading::new_fixture_at))]
fn new_fixture_at(reading: &mut Reading<'_>) -> Result<Command, Unread>
    ensures { IsRead result reading.new (new_fixture_at reading.old) }
{
    let id = reading.whole_fixture()?;
    let home = reading.whole_club()?;
    let away = reading.whole_club()?;
    let gameweek = reading.whole_place()?;
    let kickoff = reading.moment()?;
    ordered(Command::Fixture {
        id,
        home,
        away,
        gameweek,
        kickoff,
    })
}

#[tactic(auto, unfolding(crate::specs::CommandReading::move_at))]
fn move_at(reading: &mut Reading<'_>) -> Result<Command, Unread>
    ensures { IsRead result reading.new (move_at reading.old) }
{
    let fixture = reading.u32()?;
    let gameweek = reading.whole_place()?;
    let kickoff = reading.moment()?;
    Ok(Command::Move {
        fixture,
        gameweek,
        kickoff,
    })
}

#[tactic(auto, unfolding(crate::specs::CommandReading::amend_fixture_at))]
fn amend_fixture_at(reading: &mut Reading<'_>) -> Result<Command, Unread>
    ensures { IsRead result reading.new (amend_fixture_at reading.old) }
{
    let fixture = reading.u32()?;
    let home = reading.whole_club()?;
    let away = reading.whole_club()?;
    ordered(Command::AmendFixture {
        fixture,
        home,
        away,
    })
}

#[tactic(auto, unfolding(crate::specs::CommandReading::sheet_at, record_fields::specs::ListReading::list_at))]
fn sheet_at(alloc: Global, reading: &mut Reading<'_>) -> Result<Command, Unread>
    ensures { IsRead result reading.new (sheet_at reading.old) }
{
    let fixture = reading.u32()?;
    let count = reading.u16()?;
    let lines = reading.rows(alloc, count as usize)?;
    let finished = reading.flag()?;
    ordered(Command::Sheet {
        fixture,
        lines,
        finished,
    })
}

#[tactic(auto, unfolding(crate::specs::CommandReading::one_line_at))]
fn one_line_at(reading: &mut Reading<'_>) -> Result<Command, Unread>
    ensures { IsRead result reading.new (one_line_at reading.old) }
{
    let fixture = reading.u32()?;
    let player = reading.whole_player()?;
    let line = reading.line()?;
    Ok(Command::Line {
        fixture,
        player,
        line,
    })
}

#[tactic(auto, unfolding(crate::specs::CommandReading::drop_at))]
fn drop_at(reading: &mut Reading<'_>) -> Result<Command, Unread>
    ensures { IsRead result reading.new (drop_at reading.old) }
{
    let fixture = reading.u32()?;
    let player = reading.whole_player()?;
    Ok(Command::Drop { fixture, player })
}

#[tactic(auto, unfolding(crate::specs::CommandReading::finished_at))]
fn finished_at(reading: &mut Reading<'_>) -> Result<Command, Unread>
    ensures { IsRead result reading.new (finished_at reading.old) }
{
    let fixture = reading.u32()?;
    let finished = reading.flag()?;
    Ok(Command::Finished { fixture, finished })
}

#[tactic(auto, unfolding(crate::specs::CommandReading::new_key_at))]
fn new_key_at(alloc: Global, reading: &mut Reading<'_>) -> Result<Command, Unread>
    ensures { IsRead result reading.new (new_key_at reading.old) }
{
    let key = reading.long_key(alloc)?;
    let name = reading.long_name(alloc)?;
    Ok(Command::Key { key, name })
}

#[tactic(auto, unfolding(crate::specs::CommandReading::rekey_at))]
fn rekey_at(alloc: Global, reading: &mut Reading<'_>) -> Result<Command, Unread>
    ensures { IsRead result reading.new (rekey_at reading.old) }
{
    let entry = reading.u32()?;
    let key = reading.long_key(alloc)?;
    let name = reading.long_name(alloc)?;
    Ok(Command::Rekey { entry, key, name })
}

#[tactic(auto, unfolding(crate::specs::CommandReading::squad_at))]
fn squad_at(reading: &mut Reading<'_>) -> Result<Command, Unread>
    ensures { IsRead result reading.new (squad_at reading.old) }
{
    let players = reading.fifteen()?;
    let captain = reading.whole_player()?;
    let vice = reading.whole_player()?;
    Ok(Command::Squad {
        players,
        captain,
        vice,
    })
}

#[tactic(auto, unfolding(crate::specs::CommandReading::transfers_at, record_fields::specs::ListReading::list_at))]
fn transfers_at(alloc: Global, reading: &mut Reading<'_>) -> Result<Command, Unread>
    ensures { IsRead result reading.new (transfers_at reading.old) }
{
    let count = reading.u16()?;
    let swaps = reading.swaps(alloc, count as usize)?;
    ordered(Command::Transfers { swaps })
}

#[tactic(auto, unfolding(crate::specs::CommandReading::lineup_at))]
fn lineup_at(reading: &mut Reading<'_>) -> Result<Command, Unread>
    ensures { IsRead result reading.new (lineup_at reading.old) }
{
    let players = reading.fifteen()?;
    let captain = reading.whole_player()?;
    let vice = reading.whole_player()?;
    Ok(Command::Lineup {
        players,
        captain,
        vice,
    })
}

#[tactic(auto, unfolding(crate::specs::CommandReading::new_chip_at))]
fn new_chip_at(reading: &mut Reading<'_>) -> Result<Command, Unread>
    ensures { IsRead result reading.new (new_chip_at reading.old) }
{
    let chip = reading.chip()?;
    ordered(Command::Chip { chip })
}

#[tactic(auto, unfolding(crate::specs::CommandReading::new_league_at))]
fn new_league_at(alloc: Global, reading: &mut Reading<'_>) -> Result<Command, Unread>
    ensures { IsRead result reading.new (new_league_at reading.old) }
{
    let kind = reading.kind()?;
    let name = reading.long_name(alloc)?;
    let code = reading.long_code(alloc)?;
    let start = reading.whole_gameweek()?;
    Ok(Command::League {
        kind,
        name,
        code,
        start,
    })
}

#[tactic(auto, unfolding(crate::specs::CommandReading::join_at))]
fn join_at(alloc: Global, reading: &mut Reading<'_>) -> Result<Command, Unread>
    ensures { IsRead result reading.new (join_at reading.old) }
{
    let league = reading.u32()?;
    let code = reading.long_code(alloc)?;
    Ok(Command::Join { league, code })
}

#[tactic(auto, unfolding(crate::specs::CommandReading::draw_at, record_fields::specs::ListReading::list_at))]
fn draw_at(alloc: Global, reading: &mut Reading<'_>) -> Result<Command, Unread>
    ensures { IsRead result reading.new (draw_at reading.old) }
{
    let league = reading.u32()?;
    let count = reading.u16()?;
    let order = reading.whole_entries(alloc, count as usize)?;
    ordered(Command::Draw { league, order })
}

#[tactic(auto, unfolding(crate::specs::CommandReading::new_cup_at, record_fields::specs::ListReading::list_at))]
fn new_cup_at(alloc: Global, reading: &mut Reading<'_>) -> Result<Command, Unread>
    ensures { IsRead result reading.new (new_cup_at reading.old) }
{
    let start = reading.whole_gameweek()?;
    let count = reading.u16()?;
    let slots = reading.whole_slots(alloc, count as usize)?;
    let count = reading.u16()?;
    let coins = reading.whole_coins(alloc, count as usize)?;
    ordered(Command::Cup {
        start,
        slots,
        coins,
    })
}

// The command, where it can be ordered.
fn ordered(command: Command) -> Result<Command, Unread>
    ensures { IsGiven result (kept is_command command) }
{
    if is_orderable(&command) {
        Ok(command)
    } else {
        Err(Unread::Nothing)
    }
}
