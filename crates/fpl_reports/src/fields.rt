// Fields of a record as what they spell.
ghost use Rattle.std.specs.Prelude.{◌≡◌, ◌≢◌, ◌<◌, ◌∷◌, [], MatchOption, Some, length};
ghost use Rattle.csv.specs.Records.{fields_of, field_at};
ghost use Rattle.fpl_reports.specs.Rows.{Finds, Spells};

use csv::ByteRecord;
use fpl_base::{ClubId, FixtureId, Gw, PlayerId, read_number};

// The fields of a record that has two.
pub(crate) fn two_fields(read: &ByteRecord) -> Option<(&[u8], &[u8])>
    ensures { MatchOption result (length (fields_of read.now) ≢ 2)
        (λ f. fields_of read.now ≡ f.0.now ∷ f.1.now ∷ []) }
{
    if read.len() != 2 {
        return None;
    }
    Some((field_of(read, 0), field_of(read, 1)))
}

// The fields of a record that has five.
pub(crate) fn five_fields(read: &ByteRecord) -> Option<(&[u8], &[u8], &[u8], &[u8], &[u8])>
    ensures { MatchOption result (length (fields_of read.now) ≢ 5)
        (λ f. fields_of read.now ≡ f.0.now ∷ f.1.now ∷ f.2.now ∷ f.3.now ∷ f.4.now ∷ []) }
{
    if read.len() != 5 {
        return None;
    }
    Some((
        field_of(read, 0),
        field_of(read, 1),
        field_of(read, 2),
        field_of(read, 3),
        field_of(read, 4),
    ))
}

fn field_of(read: &ByteRecord, place: usize) -> &[u8]
    requires { place < length (fields_of read.now) }
    ensures { field_at (fields_of read.now) place ≡ Some result.now }
{
    match read.get(place) {
        Some(field) => field,
        None => unreachable!(),
    }
}

// The number from 1 that a field spells.
fn read_from_one(field: &[u8], greatest: u64) -> Option<u64>
    ensures { Finds (Spells 1 greatest field.now) result }
{
    let number = read_number(field, greatest)?;
    if number == 0 { None } else { Some(number) }
}

pub(crate) fn read_club(field: &[u8]) -> Option<ClubId>
    ensures { Finds (Spells 1 255 field.now) result }
{
    match ClubId::new(read_from_one(field, 255)? as u8) {
        Some(id) => Some(id),
        None => unreachable!(),
    }
}

pub(crate) fn read_player(field: &[u8]) -> Option<PlayerId>
    ensures { Finds (Spells 1 999999 field.now) result }
{
    match PlayerId::new(read_from_one(field, 999_999)? as u32) {
        Some(id) => Some(id),
        None => unreachable!(),
    }
}

pub(crate) fn read_fixture(field: &[u8]) -> Option<FixtureId>
    ensures { Finds (Spells 1 999999 field.now) result }
{
    match FixtureId::new(read_from_one(field, 999_999)? as u32) {
        Some(id) => Some(id),
        None => unreachable!(),
    }
}

pub(crate) fn read_gameweek(field: &[u8]) -> Option<Gw>
    ensures { Finds (Spells 1 38 field.now) result }
{
    match Gw::new(read_from_one(field, 38)? as u8) {
        Some(g) => Some(g),
        None => unreachable!(),
    }
}

pub(crate) fn read_price(field: &[u8]) -> Option<u16>
    ensures { Finds (Spells 0 65535 field.now) result }
{
    let price = read_number(field, 65_535)?;
    Some(price as u16)
}
