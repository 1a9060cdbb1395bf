// Fields of records and commands, appended to bytes.
ghost use Rattle.std.specs.Prelude.{◌≡◌, ◌≤◌, ◌++◌, IsTrue, OnOk, length};
ghost use Rattle.std.specs.Int.{w16, w32, w64};
ghost use Rattle.record_fields.specs.Fields.{byte, number, or_zero, short_text, long_text, flag, profile_number, position_number, chip_number, kind_number};
ghost use Rattle.record_fields.specs.Ranges.{is_place};

use fpl_base::{Chip, Gw, Memory, Position, Profile};
use rule_book::LeagueKind;

fn append(bytes: &mut Vec<u8>, more: &[u8]) -> Result<(), Memory>
    ensures { OnOk result (bytes.new.items ≡ bytes.old.items ++ more.now) }
{
    bytes.extend_from_slice(more)?;
    Ok(())
}

/// Appends a byte.
pub fn append_u8(bytes: &mut Vec<u8>, n: u8) -> Result<(), Memory>
    ensures { OnOk result (bytes.new.items ≡ bytes.old.items ++ byte n) }
{
    bytes.push(n)?;
    Ok(())
}

/// Appends a number in two bytes, the highest first.
#[tactic(auto, unfolding(crate::specs::Fields::number))]
pub fn append_u16(bytes: &mut Vec<u8>, n: u16) -> Result<(), Memory>
    ensures { OnOk result (bytes.new.items ≡ bytes.old.items ++ number w16 n) }
{
    append(bytes, &n.to_be_bytes())
}

/// Appends a number in four bytes, the highest first.
#[tactic(auto, unfolding(crate::specs::Fields::number))]
pub fn append_u32(bytes: &mut Vec<u8>, n: u32) -> Result<(), Memory>
    ensures { OnOk result (bytes.new.items ≡ bytes.old.items ++ number w32 n) }
{
    append(bytes, &n.to_be_bytes())
}

/// Appends a number in eight bytes, the highest first.
#[tactic(auto, unfolding(crate::specs::Fields::number))]
pub fn append_u64(bytes: &mut Vec<u8>, n: u64) -> Result<(), Memory>
    ensures { OnOk result (bytes.new.items ≡ bytes.old.items ++ number w64 n) }
{
    append(bytes, &n.to_be_bytes())
}

/// Appends a text behind its length in one byte.
pub fn append_short_text(bytes: &mut Vec<u8>, text: &[u8]) -> Result<(), Memory>
    requires { length text.now ≤ 64 }
    ensures { OnOk result (bytes.new.items ≡ bytes.old.items ++ short_text text.now) }
{
    append_u8(bytes, text.len() as u8)?;
    append(bytes, text)
}

/// Appends a text behind its length in two bytes.
pub fn append_long_text(bytes: &mut Vec<u8>, text: &[u8]) -> Result<(), Memory>
    requires { length text.now ≤ 64 }
    ensures { OnOk result (bytes.new.items ≡ bytes.old.items ++ long_text text.now) }
{
    append_u16(bytes, text.len() as u16)?;
    append(bytes, text)
}

/// 1 where it holds, and 0 where it does not.
pub fn flag_byte(holds: bool) -> u8
    ensures { result ≡ flag holds }
{
    if holds { 1 } else { 0 }
}

/// The number of a gameweek, and 0 of none.
pub fn gameweek_byte(gameweek: Option<Gw>) -> u8
    ensures value { result ≡ or_zero gameweek }
    ensures fits { IsTrue (is_place gameweek) }
{
    let Some(g) = gameweek else {
        return 0;
    };
    g.get()
}

/// The number of a profile, from 1.
pub fn profile_byte(profile: Profile) -> u8
    ensures { result ≡ profile_number profile }
{
    match profile {
        Profile::A => 1,
        Profile::B => 2,
    }
}

/// The number of a position, from 0.
pub fn position_byte(position: Position) -> u8
    ensures { result ≡ position_number position }
{
    match position {
        Position::Keeper => 0,
        Position::Defender => 1,
        Position::Midfielder => 2,
        Position::Forward => 3,
    }
}

/// The number of a chip, 0 of none.
pub fn chip_byte(chip: Chip) -> u8
    ensures { result ≡ chip_number chip }
{
    match chip {
        Chip::None => 0,
        Chip::Wildcard => 1,
        Chip::FreeHit => 2,
        Chip::BenchBoost => 3,
        Chip::TripleCaptain => 4,
    }
}

/// The number of a kind of league, from 1.
pub fn kind_byte(kind: LeagueKind) -> u8
    ensures { result ≡ kind_number kind }
{
    match kind {
        LeagueKind::Classic => 1,
        LeagueKind::Head => 2,
    }
}
