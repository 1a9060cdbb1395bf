// Readers of members, each by its name. A fault names the member.
ghost use Rattle.std.specs.Prelude.{◌≡◌, ◌≢◌, ◌≤◌, IfOk, IfSome, option_and_then};
ghost use Rattle.fpl_base.specs.declared.kinds.Chip.TheVariants.{None as NoChip};
ghost use Rattle.fpl_requests.specs.declared.field.ReadFault.TheVariants as fault;
ghost use Rattle.fpl_requests.specs.Members.{Gives, GivesText, GivesHeld, chip_in, chip_of, club_id, code, fixture_id, gameweek, in_list, in_range, items, key, kind_in, kind_of, last_moment, moment, number_in, place, place_in, player_id, position_in, position_of, price, profile_in, profile_of, text, title, truth, whole};
ghost use Rattle.json_tree.specs.Trees.{view};

use crate::{FieldName, ReadFault};
use fpl_base::{
    Chip, ClubId, Code, EntryId, FixtureId, Gw, Key, Moment, Name, PlayerId, Position, Profile,
};
use json_tree::{Items, Tree};
use rule_book::LeagueKind;
use std::alloc::Global;

pub(crate) fn wrong(which: FieldName) -> ReadFault
    ensures { result ≡ fault.Malformed which }
{
    ReadFault::Malformed { field: which }
}

// Numbers.

// The whole number that a value is, where it is in the range.
fn number_in(value: &Tree<'_, '_>, low: u64, high: u64) -> Option<u64>
    ensures { result ≡ number_in low high (view value.now) }
{
    in_range(value.as_u64(), low, high)
}

fn in_range(value: Option<u64>, low: u64, high: u64) -> Option<u64>
    ensures { result ≡ option_and_then (in_range low high) value }
{
    let n = value?;
    if low <= n && n <= high { Some(n) } else { None }
}

pub(crate) fn whole(
    value: &Tree<'_, '_>,
    which: FieldName,
    low: u64,
    high: u64,
) -> Result<u64, ReadFault>
    ensures gives { Gives result (whole which low high (view value.now)) }
    ensures low { IfOk result (λ n. low ≤ n) }
    ensures high { IfOk result (λ n. n ≤ high) }
{
    match value.get(which.name()) {
        Some(one) => number_in(&one, low, high).ok_or(wrong(which)),
        None => Err(wrong(which)),
    }
}

pub(crate) fn club_id(value: &Tree<'_, '_>, which: FieldName) -> Result<ClubId, ReadFault>
    ensures { Gives result (club_id which (view value.now)) }
{
    let n = whole(value, which, 1, 255)?;
    ClubId::new(n as u8).ok_or(wrong(which))
}

pub(crate) fn player_id(value: &Tree<'_, '_>, which: FieldName) -> Result<PlayerId, ReadFault>
    ensures { Gives result (player_id which (view value.now)) }
{
    let n = whole(value, which, 1, 999_999)?;
    PlayerId::new(n as u32).ok_or(wrong(which))
}

pub(crate) fn fixture_id(value: &Tree<'_, '_>, which: FieldName) -> Result<FixtureId, ReadFault>
    ensures { Gives result (fixture_id which (view value.now)) }
{
    let n = whole(value, which, 1, 999_999)?;
    FixtureId::new(n as u32).ok_or(wrong(which))
}

pub(crate) fn gameweek(value: &Tree<'_, '_>, which: FieldName) -> Result<Gw, ReadFault>
    ensures { Gives result (gameweek which (view value.now)) }
{
    let n = whole(value, which, 1, 38)?;
    Gw::new(n as u8).ok_or(wrong(which))
}

pub(crate) fn price(value: &Tree<'_, '_>, which: FieldName) -> Result<u16, ReadFault>
    ensures { Gives result (price which (view value.now)) }
{
    let n = whole(value, which, 0, 65_535)?;
    Ok(n as u16)
}

pub(crate) fn moment(value: &Tree<'_, '_>, which: FieldName) -> Result<Moment, ReadFault>
    ensures { Gives result (moment which (view value.now)) }
{
    let n = whole(value, which, 0, 253_402_300_799)?;
    Moment::new(n).ok_or(wrong(which))
}

/// The moment that an item of this list is.
pub(crate) fn moment_entry(value: Option<u64>, list: FieldName) -> Result<Moment, ReadFault>
    ensures { Gives result (in_list list 0 last_moment value) }
{
    let n = entry(value, list, 0, 253_402_300_799)?;
    Moment::new(n).ok_or(wrong(list))
}

/// The player that an item of this list names.
pub(crate) fn player_entry(value: Option<u64>, list: FieldName) -> Result<PlayerId, ReadFault>
    ensures { Gives result (in_list list 1 999999 value) }
{
    let n = entry(value, list, 1, 999_999)?;
    PlayerId::new(n as u32).ok_or(wrong(list))
}

/// The entry that an item of this list names.
pub(crate) fn drawn_entry(value: Option<u64>, list: FieldName) -> Result<EntryId, ReadFault>
    ensures { Gives result (in_list list 1 4294967295 value) }
{
    let n = entry(value, list, 1, 4_294_967_295)?;
    EntryId::new(n as u32).ok_or(wrong(list))
}

/// The number that an item of this list is, if it is one.
pub(crate) fn entry(
    value: Option<u64>,
    list: FieldName,
    low: u64,
    high: u64,
) -> Result<u64, ReadFault>
    ensures gives { Gives result (in_list list low high value) }
    ensures low { IfOk result (λ n. low ≤ n) }
    ensures high { IfOk result (λ n. n ≤ high) }
{
    in_range(value, low, high).ok_or(wrong(list))
}

/// A gameweek, or null for none.
pub(crate) fn place(value: &Tree<'_, '_>, which: FieldName) -> Result<Option<Gw>, ReadFault>
    ensures { Gives result (place which (view value.now)) }
{
    match value.get(which.name()) {
        Some(one) => place_in(&one).ok_or(wrong(which)),
        None => Err(wrong(which)),
    }
}

fn place_in(value: &Tree<'_, '_>) -> Option<Option<Gw>>
    ensures { result ≡ place_in (view value.now) }
{
    if value.is_null() {
        return Some(None);
    }
    let n = number_in(value, 1, 38)?;
    Some(Gw::new(n as u8))
}

/// By which rules a season is played. The member may be missing.
pub(crate) fn profile(value: &Tree<'_, '_>, which: FieldName) -> Result<Profile, ReadFault>
    ensures { Gives result (profile_in which (view value.now)) }
{
    match value.get(which.name()) {
        Some(one) => profile_of(&one).ok_or(wrong(which)),
        None => Ok(Profile::A),
    }
}

fn profile_of(value: &Tree<'_, '_>) -> Option<Profile>
    ensures { result ≡ profile_of (view value.now) }
{
    let n = number_in(value, 1, 2)?;
    if n == 1 {
        Some(Profile::A)
    } else {
        Some(Profile::B)
    }
}

// Other kinds.

pub(crate) fn truth(value: &Tree<'_, '_>, which: FieldName) -> Result<bool, ReadFault>
    ensures { Gives result (truth which (view value.now)) }
{
    match value.get(which.name()) {
        Some(one) => one.as_bool().ok_or(wrong(which)),
        None => Err(wrong(which)),
    }
}

fn text<'a>(value: &Tree<'_, 'a>, which: FieldName) -> Result<&'a str, ReadFault>
    ensures { GivesText result (text which (view value.now)) }
{
    match value.get(which.name()) {
        Some(one) => one.as_str().ok_or(wrong(which)),
        None => Err(wrong(which)),
    }
}

/// A name.
pub(crate) fn title(
    alloc: Global,
    value: &Tree<'_, '_>,
    which: FieldName,
) -> Result<Name, ReadFault>
    ensures { Gives result (title which (view value.now)) }
{
    let text = text(value, which)?;
    match Name::new(alloc, text.as_bytes())? {
        Some(name) => Ok(name),
        None => Err(wrong(which)),
    }
}

/// A key.
pub(crate) fn key(alloc: Global, value: &Tree<'_, '_>, which: FieldName) -> Result<Key, ReadFault>
    ensures { Gives result (key which (view value.now)) }
{
    let text = text(value, which)?;
    match Key::new(alloc, text.as_bytes())? {
        Some(key) => Ok(key),
        None => Err(wrong(which)),
    }
}

/// A league's code.
pub(crate) fn code(alloc: Global, value: &Tree<'_, '_>, which: FieldName) -> Result<Code, ReadFault>
    ensures { Gives result (code which (view value.now)) }
{
    let text = text(value, which)?;
    match Code::new(alloc, text.as_bytes())? {
        Some(code) => Ok(code),
        None => Err(wrong(which)),
    }
}

pub(crate) fn position(value: &Tree<'_, '_>, which: FieldName) -> Result<Position, ReadFault>
    ensures { Gives result (position_in which (view value.now)) }
{
    let text = text(value, which)?;
    position_of(text.as_bytes()).ok_or(wrong(which))
}

fn position_of(letter: &[u8]) -> Option<Position>
    ensures { result ≡ position_of letter.now }
{
    Position::from_letter(letter)
}

/// A chip.
pub(crate) fn chip(value: &Tree<'_, '_>, which: FieldName) -> Result<Chip, ReadFault>
    ensures gives { Gives result (chip_in which (view value.now)) }
    ensures one { IfOk result (λ chip. chip ≢ NoChip) }
{
    let text = text(value, which)?;
    chip_of(text).ok_or(wrong(which))
}

fn chip_of(name: &str) -> Option<Chip>
    ensures gives { result ≡ chip_of name.now }
    ensures one { IfSome result (λ chip. chip ≢ NoChip) }
{
    match name {
        "wildcard" => Some(Chip::Wildcard),
        "free_hit" => Some(Chip::FreeHit),
        "bench_boost" => Some(Chip::BenchBoost),
        "triple_captain" => Some(Chip::TripleCaptain),
        _ => None,
    }
}

/// How a league is decided.
pub(crate) fn kind(value: &Tree<'_, '_>, which: FieldName) -> Result<LeagueKind, ReadFault>
    ensures { Gives result (kind_in which (view value.now)) }
{
    let text = text(value, which)?;
    kind_of(text).ok_or(wrong(which))
}

fn kind_of(name: &str) -> Option<LeagueKind>
    ensures { result ≡ kind_of name.now }
{
    match name {
        "classic" => Some(LeagueKind::Classic),
        "head" => Some(LeagueKind::Head),
        _ => None,
    }
}

/// The items of a list.
pub(crate) fn items<'t, 'a>(
    value: &Tree<'t, 'a>,
    which: FieldName,
) -> Result<Items<'t, 'a>, ReadFault>
    ensures { GivesHeld result (items which (view value.now)) }
{
    match value.get(which.name()) {
        Some(one) => one.as_array().ok_or(wrong(which)),
        None => Err(wrong(which)),
    }
}
