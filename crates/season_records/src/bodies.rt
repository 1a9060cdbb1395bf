// The bodies of records, appended to bytes.
ghost use Rattle.std.specs.Prelude.{[], ◌≡◌, ◌≤◌, ◌<◌, ◌^◌, IfOk, IsTrue, length};
ghost use Rattle.std.specs.List.{AllByRecursion};
ghost use Rattle.fpl_base.specs.Texts.{is_code, is_key, is_name};
ghost use Rattle.record_fields.specs.Fields.{short_text};
ghost use Rattle.record_fields.specs.Ranges.{IsBelow32, IsByte, IsClub, IsGameweek, IsId, IsMoment, IsPick, IsPlayer, IsWide, is_place};
ghost use Rattle.season_records.specs.Commands.{is_command};
ghost use Rattle.season_records.specs.Items as bodies;
ghost use Rattle.season_records.specs.Ranges.{HasRanges};

use crate::commands::append_command;
use fpl_base::{
    Bytes, Chip, ClubId, Code, EntryId, Gw, Key, Memory, Moment, Name, PlayerId, Position, Profile,
};
use record_fields::{
    append_coins, append_figures, append_moments, append_order, append_picks, append_short_text,
    append_slots, append_u8, append_u16, append_u32, append_u64, chip_byte, flag_byte,
    gameweek_byte, kind_byte, position_byte, profile_byte,
};
use rule_book::{Coins, LeagueKind, Line, Slots};
use season_book::{Command, Moments, Order};
use std::alloc::Global;

// The bytes that most bodies have at most: a team has 97, a line 56.
const ROOM: usize = 100;

// No bytes yet, and room for those of most bodies, so that they are not moved as they grow.
fn no_bytes(alloc: Global) -> Result<Vec<u8>, Memory>
    ensures { IfOk result (λ bytes. bytes.items ≡ []) }
{
    Ok(Vec::with_capacity(alloc, ROOM)?)
}

pub fn season_body(
    alloc: Global,
    profile: Profile,
    split: u8,
    locked: u8,
    deadlines: &Moments,
) -> Result<Bytes, Memory>
    requires { length deadlines.now ≤ 255 }
    ensures written { IfOk result (λ bytes. bytes ≡ bodies.season_body profile split locked deadlines.now) }
    ensures fits { IfOk result (λ _. (split < 256) × (locked < 256) × AllByRecursion IsMoment deadlines.now) }
{
    let mut bytes = no_bytes(alloc)?;
    append_u8(&mut bytes, profile_byte(profile))?;
    append_u8(&mut bytes, deadlines.as_slice().len() as u8)?;
    append_u8(&mut bytes, split)?;
    append_u8(&mut bytes, locked)?;
    append_moments(&mut bytes, deadlines.as_slice())?;
    Ok(Bytes::from_vec(bytes))
}

pub fn club_body(alloc: Global, name: &Name) -> Result<Bytes, Memory>
    ensures written { IfOk result (λ bytes. bytes ≡ short_text name.now) }
    ensures fits { IfOk result (λ _. IsTrue (is_name name.now)) }
{
    let mut bytes = no_bytes(alloc)?;
    append_short_text(&mut bytes, name.bytes())?;
    Ok(Bytes::from_vec(bytes))
}

// The body of a player.
pub fn player_body(
    alloc: Global,
    position: Position,
    club: ClubId,
    price: u16,
    gone: bool,
    name: &Name,
) -> Result<Bytes, Memory>
    ensures written { IfOk result (λ bytes. bytes ≡ bodies.player_body position club price gone name.now) }
    ensures fits { IfOk result (λ _. IsClub club × (price < 2 ^ 16) × IsTrue (is_name name.now)) }
{
    let mut bytes = no_bytes(alloc)?;
    append_u8(&mut bytes, position_byte(position))?;
    append_u8(&mut bytes, club.get())?;
    append_u16(&mut bytes, price)?;
    append_u8(&mut bytes, flag_byte(gone))?;
    append_short_text(&mut bytes, name.bytes())?;
    Ok(Bytes::from_vec(bytes))
}

pub fn fixture_body(
    alloc: Global,
    home: ClubId,
    away: ClubId,
    gameweek: Option<Gw>,
    kickoff: Moment,
    finished: bool,
) -> Result<Bytes, Memory>
    ensures written { IfOk result
        (λ bytes. bytes ≡ bodies.fixture_body home away gameweek kickoff finished) }
    ensures fits { IfOk result (λ _. IsClub home × IsClub away × IsTrue (is_place gameweek) × IsMoment kickoff) }
{
    let mut bytes = no_bytes(alloc)?;
    append_u8(&mut bytes, home.get())?;
    append_u8(&mut bytes, away.get())?;
    append_u8(&mut bytes, gameweek_byte(gameweek))?;
    append_u64(&mut bytes, kickoff.get())?;
    append_u8(&mut bytes, flag_byte(finished))?;
    Ok(Bytes::from_vec(bytes))
}

pub fn line_body(alloc: Global, line: &Line) -> Result<Bytes, Memory>
    ensures written { IfOk result (λ bytes. bytes ≡ bodies.line_body line.now) }
    ensures fits { IfOk result (λ _. IsWide line.now) }
{
    let mut bytes = no_bytes(alloc)?;
    append_figures(&mut bytes, &line.figures)?;
    Ok(Bytes::from_vec(bytes))
}

pub fn entry_body(alloc: Global, first: Option<Gw>, key: &Key, name: &Name) -> Result<Bytes, Memory>
    ensures written { IfOk result (λ bytes. bytes ≡ bodies.entry_body first key.now name.now) }
    ensures fits { IfOk result (λ _. IsTrue (is_place first) × IsTrue (is_key key.now) × IsTrue (is_name name.now)) }
{
    let mut bytes = no_bytes(alloc)?;
    append_u8(&mut bytes, gameweek_byte(first))?;
    append_short_text(&mut bytes, key.bytes())?;
    append_short_text(&mut bytes, name.bytes())?;
    Ok(Bytes::from_vec(bytes))
}

pub fn team_body(
    alloc: Global,
    picks: &[(PlayerId, u16); 15],
    captain: u8,
    vice: u8,
    bank: u32,
    chip: Chip,
) -> Result<Bytes, Memory>
    ensures written { IfOk result (λ bytes. bytes ≡ bodies.team_body picks.now captain vice bank chip) }
    ensures fits { IfOk result (λ _. (length picks.now ≡ 15) × AllByRecursion IsPick picks.now × (captain < 256) × (vice < 256) × (bank < 2 ^ 32)) }
{
    let mut bytes = no_bytes(alloc)?;
    append_picks(&mut bytes, picks)?;
    append_u8(&mut bytes, captain)?;
    append_u8(&mut bytes, vice)?;
    append_u32(&mut bytes, bank)?;
    append_u8(&mut bytes, chip_byte(chip))?;
    Ok(Bytes::from_vec(bytes))
}

pub fn transfer_body(
    alloc: Global,
    out: PlayerId,
    into: PlayerId,
    sold: u16,
    bought: u16,
) -> Result<Bytes, Memory>
    ensures written { IfOk result (λ bytes. bytes ≡ bodies.transfer_body out into sold bought) }
    ensures fits { IfOk result (λ _. IsPlayer out × IsPlayer into × (sold < 2 ^ 16) × (bought < 2 ^ 16)) }
{
    let mut bytes = no_bytes(alloc)?;
    append_u32(&mut bytes, out.get())?;
    append_u32(&mut bytes, into.get())?;
    append_u16(&mut bytes, sold)?;
    append_u16(&mut bytes, bought)?;
    Ok(Bytes::from_vec(bytes))
}

pub fn league_body(
    alloc: Global,
    kind: LeagueKind,
    start: Gw,
    creator: EntryId,
    order: &Order,
    code: &Code,
    name: &Name,
) -> Result<Bytes, Memory>
    requires { length order.now ≤ 255 }
    ensures written { IfOk result
        (λ bytes. bytes ≡ bodies.league_body kind start creator order.now code.now name.now) }
    ensures fits { IfOk result (λ _. IsGameweek start × IsId creator × AllByRecursion IsId order.now × IsTrue (is_code code.now) × IsTrue (is_name name.now)) }
{
    let mut bytes = no_bytes(alloc)?;
    append_u8(&mut bytes, kind_byte(kind))?;
    append_u8(&mut bytes, start.get())?;
    append_u32(&mut bytes, creator.get())?;
    append_u8(&mut bytes, order.as_slice().len() as u8)?;
    append_order(&mut bytes, order.as_slice())?;
    append_short_text(&mut bytes, code.bytes())?;
    append_short_text(&mut bytes, name.bytes())?;
    Ok(Bytes::from_vec(bytes))
}

pub fn cup_body(alloc: Global, start: Gw, slots: &Slots, coins: &Coins) -> Result<Bytes, Memory>
    requires { length slots.now ≤ 65535 }
    ensures written { IfOk result (λ bytes. bytes ≡ bodies.cup_body start slots.now coins.now) }
    ensures fits { IfOk result (λ _. IsGameweek start × AllByRecursion IsBelow32 slots.now × AllByRecursion IsByte coins.now) }
{
    let mut bytes = no_bytes(alloc)?;
    append_u8(&mut bytes, start.get())?;
    append_u16(&mut bytes, slots.as_slice().len() as u16)?;
    append_slots(&mut bytes, slots.as_slice())?;
    append_coins(&mut bytes, coins.as_slice())?;
    Ok(Bytes::from_vec(bytes))
}

// The bytes that the body of a caller's last command has at most, but for a season and a cup: a sheet's line has 60.
fn command_room(command: &Command) -> usize {
    match command {
        Command::Sheet { lines, .. } => ROOM + 60 * lines.as_slice().len().min(100),
        _ => ROOM,
    }
}

// The body of a caller's last command.
pub fn last_body(
    alloc: Global,
    number: u64,
    status: u16,
    made: u32,
    command: &Command,
) -> Result<Bytes, Memory>
    requires { IsTrue (is_command command.now) }
    ensures written { IfOk result (λ bytes. bytes ≡ bodies.last_body number status made command.now) }
    ensures fits { IfOk result (λ _. (number < 2 ^ 64) × (status < 2 ^ 16) × (made < 2 ^ 32) × HasRanges command.now) }
{
    let mut bytes = Vec::with_capacity(alloc, command_room(command))?;
    append_u64(&mut bytes, number)?;
    append_u16(&mut bytes, status)?;
    append_u32(&mut bytes, made)?;
    append_command(&mut bytes, command)?;
    Ok(Bytes::from_vec(bytes))
}
