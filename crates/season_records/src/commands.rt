// Commands, appended to bytes.
ghost use Rattle.std.specs.Prelude.{◌≡◌, ◌≤◌, ◌++◌, OnOk, IsTrue, length};
ghost use Rattle.record_fields.specs.Fields.{whole, byte, listed, profile_end};
ghost use Rattle.record_fields.specs.Ranges.{IsPlayer};
ghost use Rattle.season_records.specs.Commands.{bytes_of_command, is_command};
ghost use Rattle.season_records.specs.Ranges.{HasRanges};
ghost use Rattle.season_book.specs.declared.command.Command.TheVariants as command;

use fpl_base::{
    Chip, ClubId, Code, FixtureId, Gw, Key, Memory, Moment, Name, PlayerId, Position, Profile,
};
use record_fields::{
    append_clubs, append_line, append_long_text, append_moments, append_rows, append_swaps,
    append_u8, append_u16, append_u32, append_u64, append_whole_coins, append_whole_entries,
    append_whole_players, append_whole_slots, chip_byte, flag_byte, gameweek_byte, kind_byte,
    position_byte, profile_byte,
};
use rule_book::{Coins, LeagueKind, Line, Slots};
use season_book::{Clubs, Command, Lines, Moments, Order, Swaps};

// A command's number, the ids of its target, and its members in order.
pub fn append_command(bytes: &mut Vec<u8>, command: &Command) -> Result<(), Memory>
    requires { IsTrue (is_command command.now) }
    ensures written { OnOk result (bytes.new.items ≡ bytes.old.items ++ bytes_of_command command.now) }
    ensures fits { OnOk result (HasRanges command.now) }
{
    match *command {
        Command::Season {
            profile,
            ref deadlines,
            split,
            ref clubs,
        } => append_season(bytes, profile, deadlines, split, clubs),
        Command::Deadline { gameweek, deadline } => append_two(
            bytes,
            2,
            gameweek.get() as u64,
            deadline.get(),
        ),
        Command::Player {
            id,
            ref name,
            position,
            club,
            price,
        } => append_player(bytes, id, name, position, club, price),
        Command::AmendPlayer {
            player,
            ref name,
            position,
        } => append_amend_player(bytes, player, name, position),
        Command::Price { player, price } => append_two(bytes, 4, player.get() as u64, price as u64),
        Command::Club { player, club } => append_two(
            bytes,
            5,
            player.get() as u64,
            club.get() as u64,
        ),
        Command::Gone { player, gone } => append_gone(bytes, player, gone),
        Command::Fixture {
            id,
            home,
            away,
            gameweek,
            kickoff,
        } => append_fixture(bytes, id, home, away, gameweek, kickoff),
        Command::Move {
            fixture,
            gameweek,
            kickoff,
        } => append_move(bytes, fixture, gameweek, kickoff),
        Command::AmendFixture {
            fixture,
            home,
            away,
        } => append_amend_fixture(bytes, fixture, home, away),
        Command::Sheet {
            fixture,
            ref lines,
            finished,
        } => append_sheet(bytes, fixture, lines, finished),
        Command::Line {
            fixture,
            player,
            ref line,
        } => append_one_line(bytes, fixture, player, line),
        Command::Drop { fixture, player } => append_drop(bytes, fixture, player),
        Command::Finished { fixture, finished } => append_finished(bytes, fixture, finished),
        Command::Key { ref key, ref name } => append_key(bytes, key, name),
        Command::Rekey {
            entry,
            ref key,
            ref name,
        } => append_rekey(bytes, entry, key, name),
        Command::Squad {
            ref players,
            captain,
            vice,
        } => append_slots_of_players(bytes, 14, players, captain, vice),
        Command::Transfers { ref swaps } => append_transfers(bytes, swaps),
        Command::Lineup {
            ref players,
            captain,
            vice,
        } => append_slots_of_players(bytes, 16, players, captain, vice),
        Command::Chip { chip } => append_chip(bytes, chip),
        Command::CancelChip => append_u8(bytes, 18),
        Command::League {
            kind,
            ref name,
            ref code,
            start,
        } => append_league(bytes, kind, name, code, start),
        Command::Join { league, ref code } => append_join(bytes, league, code),
        Command::Draw { league, ref order } => append_draw(bytes, league, order),
        Command::Cup {
            start,
            ref slots,
            ref coins,
        } => append_cup(bytes, start, slots, coins),
    }
}

fn append_two(bytes: &mut Vec<u8>, number: u8, first: u64, second: u64) -> Result<(), Memory>
    ensures { OnOk result
        (bytes.new.items ≡ bytes.old.items ++ byte number ++ whole first ++ whole second) }
{
    append_u8(bytes, number)?;
    append_u64(bytes, first)?;
    append_u64(bytes, second)
}

fn append_season(
    bytes: &mut Vec<u8>,
    profile: Profile,
    deadlines: &Moments,
    split: u8,
    clubs: &Clubs,
) -> Result<(), Memory>
    requires deadlines { length deadlines.now ≤ 38 }
    requires clubs { length clubs.now ≤ 20 }
    ensures written { OnOk result
        (bytes.new.items
        ≡ bytes.old.items
        ++ bytes_of_command (command.Season profile deadlines.now split clubs.now)) }
    ensures fits { OnOk result (HasRanges (command.Season profile deadlines.now split clubs.now)) }
{
    append_u8(bytes, 1)?;
    append_u16(bytes, deadlines.as_slice().len() as u16)?;
    append_moments(bytes, deadlines.as_slice())?;
    append_u64(bytes, split as u64)?;
    append_u16(bytes, clubs.as_slice().len() as u16)?;
    append_clubs(bytes, clubs.as_slice())?;
    append_profile_end(bytes, profile)
}

// What a season command ends with: nothing for profile A, and the number of B.
fn append_profile_end(bytes: &mut Vec<u8>, profile: Profile) -> Result<(), Memory>
    ensures { OnOk result (bytes.new.items ≡ bytes.old.items ++ profile_end profile) }
{
    match profile {
        Profile::A => Ok(()),
        Profile::B => append_u8(bytes, profile_byte(profile)),
    }
}

fn append_player(
    bytes: &mut Vec<u8>,
    id: PlayerId,
    name: &Name,
    position: Position,
    club: ClubId,
    price: u16,
) -> Result<(), Memory>
    ensures written { OnOk result
        (bytes.new.items
        ≡ bytes.old.items ++ bytes_of_command (command.Player id name.now position club price)) }
    ensures fits { OnOk result (HasRanges (command.Player id name.now position club price)) }
{
    append_u8(bytes, 3)?;
    append_u64(bytes, id.get() as u64)?;
    append_long_text(bytes, name.bytes())?;
    append_u8(bytes, position_byte(position))?;
    append_u64(bytes, club.get() as u64)?;
    append_u64(bytes, price as u64)
}

fn append_amend_player(
    bytes: &mut Vec<u8>,
    player: u32,
    name: &Name,
    position: Position,
) -> Result<(), Memory>
    ensures written { OnOk result
        (bytes.new.items
        ≡ bytes.old.items ++ bytes_of_command (command.AmendPlayer player name.now position)) }
    ensures fits { OnOk result (HasRanges (command.AmendPlayer player name.now position)) }
{
    append_u8(bytes, 24)?;
    append_u32(bytes, player)?;
    append_long_text(bytes, name.bytes())?;
    append_u8(bytes, position_byte(position))
}

fn append_gone(bytes: &mut Vec<u8>, player: PlayerId, gone: bool) -> Result<(), Memory>
    ensures written { OnOk result
        (bytes.new.items ≡ bytes.old.items ++ bytes_of_command (command.Gone player gone)) }
    ensures fits { OnOk result (IsPlayer player) }
{
    append_u8(bytes, 6)?;
    append_u64(bytes, player.get() as u64)?;
    append_u8(bytes, flag_byte(gone))
}

fn append_fixture(
    bytes: &mut Vec<u8>,
    id: FixtureId,
    home: ClubId,
    away: ClubId,
    gameweek: Option<Gw>,
    kickoff: Moment,
) -> Result<(), Memory>
    ensures written { OnOk result
        (bytes.new.items
        ≡ bytes.old.items ++ bytes_of_command (command.Fixture id home away gameweek kickoff)) }
    ensures fits { OnOk result (HasRanges (command.Fixture id home away gameweek kickoff)) }
{
    append_u8(bytes, 7)?;
    append_u64(bytes, id.get() as u64)?;
    append_u64(bytes, home.get() as u64)?;
    append_u64(bytes, away.get() as u64)?;
    append_u64(bytes, gameweek_byte(gameweek) as u64)?;
    append_u64(bytes, kickoff.get())
}

fn append_move(
    bytes: &mut Vec<u8>,
    fixture: u32,
    gameweek: Option<Gw>,
    kickoff: Moment,
) -> Result<(), Memory>
    ensures written { OnOk result
        (bytes.new.items
        ≡ bytes.old.items ++ bytes_of_command (command.Move fixture gameweek kickoff)) }
    ensures fits { OnOk result (HasRanges (command.Move fixture gameweek kickoff)) }
{
    append_u8(bytes, 8)?;
    append_u32(bytes, fixture)?;
    append_u64(bytes, gameweek_byte(gameweek) as u64)?;
    append_u64(bytes, kickoff.get())
}

fn append_amend_fixture(
    bytes: &mut Vec<u8>,
    fixture: u32,
    home: ClubId,
    away: ClubId,
) -> Result<(), Memory>
    ensures written { OnOk result
        (bytes.new.items
        ≡ bytes.old.items ++ bytes_of_command (command.AmendFixture fixture home away)) }
    ensures fits { OnOk result (HasRanges (command.AmendFixture fixture home away)) }
{
    append_u8(bytes, 25)?;
    append_u32(bytes, fixture)?;
    append_u64(bytes, home.get() as u64)?;
    append_u64(bytes, away.get() as u64)
}

fn append_sheet(
    bytes: &mut Vec<u8>,
    fixture: u32,
    lines: &Lines,
    finished: bool,
) -> Result<(), Memory>
    requires { length lines.now ≤ 100 }
    ensures written { OnOk result
        (bytes.new.items
        ≡ bytes.old.items ++ bytes_of_command (command.Sheet fixture lines.now finished)) }
    ensures fits { OnOk result (HasRanges (command.Sheet fixture lines.now finished)) }
{
    append_u8(bytes, 9)?;
    append_u32(bytes, fixture)?;
    append_u16(bytes, lines.as_slice().len() as u16)?;
    append_rows(bytes, lines.as_slice())?;
    append_u8(bytes, flag_byte(finished))
}

fn append_one_line(
    bytes: &mut Vec<u8>,
    fixture: u32,
    player: PlayerId,
    line: &Line,
) -> Result<(), Memory>
    ensures written { OnOk result
        (bytes.new.items
        ≡ bytes.old.items ++ bytes_of_command (command.Line fixture player line.now)) }
    ensures fits { OnOk result (HasRanges (command.Line fixture player line.now)) }
{
    append_u8(bytes, 10)?;
    append_u32(bytes, fixture)?;
    append_u64(bytes, player.get() as u64)?;
    append_line(bytes, line)
}

fn append_drop(bytes: &mut Vec<u8>, fixture: u32, player: PlayerId) -> Result<(), Memory>
    ensures written { OnOk result
        (bytes.new.items ≡ bytes.old.items ++ bytes_of_command (command.Drop fixture player)) }
    ensures fits { OnOk result (HasRanges (command.Drop fixture player)) }
{
    append_u8(bytes, 11)?;
    append_u32(bytes, fixture)?;
    append_u64(bytes, player.get() as u64)
}

fn append_finished(bytes: &mut Vec<u8>, fixture: u32, finished: bool) -> Result<(), Memory>
    ensures written { OnOk result
        (bytes.new.items
        ≡ bytes.old.items ++ bytes_of_command (command.Finished fixture finished)) }
    ensures fits { OnOk result (HasRanges (command.Finished fixture finished)) }
{
    append_u8(bytes, 12)?;
    append_u32(bytes, fixture)?;
    append_u8(bytes, flag_byte(finished))
}

fn append_key(bytes: &mut Vec<u8>, key: &Key, name: &Name) -> Result<(), Memory>
    ensures written { OnOk result
        (bytes.new.items ≡ bytes.old.items ++ bytes_of_command (command.Key key.now name.now)) }
    ensures fits { OnOk result (HasRanges (command.Key key.now name.now)) }
{
    append_u8(bytes, 13)?;
    append_long_text(bytes, key.bytes())?;
    append_long_text(bytes, name.bytes())
}

fn append_rekey(bytes: &mut Vec<u8>, entry: u32, key: &Key, name: &Name) -> Result<(), Memory>
    ensures written { OnOk result
        (bytes.new.items
        ≡ bytes.old.items ++ bytes_of_command (command.Rekey entry key.now name.now)) }
    ensures fits { OnOk result (HasRanges (command.Rekey entry key.now name.now)) }
{
    append_u8(bytes, 23)?;
    append_u32(bytes, entry)?;
    append_long_text(bytes, key.bytes())?;
    append_long_text(bytes, name.bytes())
}

// A squad's or a lineup's players, captain and vice-captain behind the command's number.
fn append_slots_of_players(
    bytes: &mut Vec<u8>,
    number: u8,
    players: &[PlayerId; 15],
    captain: PlayerId,
    vice: PlayerId,
) -> Result<(), Memory>
    ensures written { OnOk result
        (bytes.new.items
        ≡ bytes.old.items ++ byte number ++ listed whole players.now ++ whole captain
        ++ whole vice) }
    ensures fits { OnOk result (HasRanges (command.Squad players.now captain vice)) }
{
    append_u8(bytes, number)?;
    append_u16(bytes, 15)?;
    append_whole_players(bytes, players)?;
    append_u64(bytes, captain.get() as u64)?;
    append_u64(bytes, vice.get() as u64)
}

fn append_transfers(bytes: &mut Vec<u8>, swaps: &Swaps) -> Result<(), Memory>
    requires { length swaps.now ≤ 15 }
    ensures written { OnOk result
        (bytes.new.items ≡ bytes.old.items ++ bytes_of_command (command.Transfers swaps.now)) }
    ensures fits { OnOk result (HasRanges (command.Transfers swaps.now)) }
{
    append_u8(bytes, 15)?;
    append_u16(bytes, swaps.as_slice().len() as u16)?;
    append_swaps(bytes, swaps.as_slice())
}

fn append_chip(bytes: &mut Vec<u8>, chip: Chip) -> Result<(), Memory>
    ensures { OnOk result
        (bytes.new.items ≡ bytes.old.items ++ bytes_of_command (command.Chip chip)) }
{
    append_u8(bytes, 17)?;
    append_u8(bytes, chip_byte(chip))
}

fn append_league(
    bytes: &mut Vec<u8>,
    kind: LeagueKind,
    name: &Name,
    code: &Code,
    start: Gw,
) -> Result<(), Memory>
    ensures written { OnOk result
        (bytes.new.items
        ≡ bytes.old.items ++ bytes_of_command (command.League kind name.now code.now start)) }
    ensures fits { OnOk result (HasRanges (command.League kind name.now code.now start)) }
{
    append_u8(bytes, 19)?;
    append_u8(bytes, kind_byte(kind))?;
    append_long_text(bytes, name.bytes())?;
    append_long_text(bytes, code.bytes())?;
    append_u64(bytes, start.get() as u64)
}

fn append_join(bytes: &mut Vec<u8>, league: u32, code: &Code) -> Result<(), Memory>
    ensures written { OnOk result
        (bytes.new.items ≡ bytes.old.items ++ bytes_of_command (command.Join league code.now)) }
    ensures fits { OnOk result (HasRanges (command.Join league code.now)) }
{
    append_u8(bytes, 20)?;
    append_u32(bytes, league)?;
    append_long_text(bytes, code.bytes())
}

fn append_draw(bytes: &mut Vec<u8>, league: u32, order: &Order) -> Result<(), Memory>
    requires { length order.now ≤ 64 }
    ensures written { OnOk result
        (bytes.new.items ≡ bytes.old.items ++ bytes_of_command (command.Draw league order.now)) }
    ensures fits { OnOk result (HasRanges (command.Draw league order.now)) }
{
    append_u8(bytes, 21)?;
    append_u32(bytes, league)?;
    append_u16(bytes, order.as_slice().len() as u16)?;
    append_whole_entries(bytes, order.as_slice())
}

fn append_cup(bytes: &mut Vec<u8>, start: Gw, slots: &Slots, coins: &Coins) -> Result<(), Memory>
    requires slots { length slots.now ≤ 1024 }
    requires coins { length coins.now ≤ 1024 }
    ensures written { OnOk result
        (bytes.new.items
        ≡ bytes.old.items ++ bytes_of_command (command.Cup start slots.now coins.now)) }
    ensures fits { OnOk result (HasRanges (command.Cup start slots.now coins.now)) }
{
    append_u8(bytes, 22)?;
    append_u64(bytes, start.get() as u64)?;
    append_u16(bytes, slots.as_slice().len() as u16)?;
    append_whole_slots(bytes, slots.as_slice())?;
    append_u16(bytes, coins.as_slice().len() as u16)?;
    append_whole_coins(bytes, coins.as_slice())
}
