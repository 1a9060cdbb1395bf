// One row, from the fields of a record.
ghost use Rattle.std.specs.Prelude.{◌≡◌, ◌<◌, ◌≤◌, ℕ, IfSome, MatchOption, Some, codes, false, length, true};
ghost use Rattle.csv.specs.Records.{field_at, fields_of};
ghost use Rattle.fpl_drafting.specs.Rows.{Begins, IsNumberAt, IsRowOf, Spells};
ghost use Rattle.fpl_drafting.specs.declared.row.DraftRow.{DraftRow as Row};

use csv::ByteRecord;
use fpl_base::{Gw, PlayerId, read_number};

/// What a row orders.
#[derive(Clone, Copy, Debug, PartialEq, Eq)]
pub enum DraftRow {
    /// The member whose turn it is picks a player.
    Pick {
        player: PlayerId,
    },
    /// A member bids for a player in the place of one of his own.
    Bid {
        gw: Gw,
        member: u8,
        into: PlayerId,
        out: PlayerId,
    },
    /// The waivers of a gameweek settle its bids.
    Waive {
        gw: Gw,
    },
}

// The row that the fields of a record spell, in a league of so many members.
pub(crate) fn row_of(read: &ByteRecord, members: u8) -> Option<DraftRow>
    ensures row { MatchOption result
        ((row : Row) → Spells members (fields_of read.now) row → ⊥)
        (Spells members (fields_of read.now)) }
    ensures own { IfSome result (IsRowOf members) }
{
    if begins(read, b"pick", 2) {
        return pick_of(read, members);
    }
    if begins(read, b"bid", 5) {
        return bid_of(read, members);
    }
    if begins(read, b"waive", 2) {
        return waive_of(read, members);
    }
    None
}

// Whether the first field is this word, and there are so many fields.
fn begins(read: &ByteRecord, word: &[u8], count: usize) -> bool
    requires { 1 ≤ count }
    ensures there { result ≡ true → Begins (fields_of read.now) word.now count }
    ensures none { result ≡ false → Begins (fields_of read.now) word.now count → ⊥ }
{
    if read.len() != count {
        return false;
    }
    field_of(read, 0) == word
}

fn pick_of(read: &ByteRecord, members: u8) -> Option<DraftRow>
    requires { Begins (fields_of read.now) (codes "pick") 2 }
    ensures row { MatchOption result
        ((row : Row) → Spells members (fields_of read.now) row → ⊥)
        (Spells members (fields_of read.now)) }
    ensures own { IfSome result (IsRowOf members) }
{
    let _members = members;
    let player = player_at(read, 1)?;
    Some(DraftRow::Pick { player })
}

fn bid_of(read: &ByteRecord, members: u8) -> Option<DraftRow>
    requires { Begins (fields_of read.now) (codes "bid") 5 }
    ensures row { MatchOption result
        ((row : Row) → Spells members (fields_of read.now) row → ⊥)
        (Spells members (fields_of read.now)) }
    ensures own { IfSome result (IsRowOf members) }
{
    let gw = gameweek_at(read, 1)?;
    let member = member_at(read, 2, members)?;
    let into = player_at(read, 3)?;
    let out = player_at(read, 4)?;
    Some(DraftRow::Bid {
        gw,
        member,
        into,
        out,
    })
}

fn waive_of(read: &ByteRecord, members: u8) -> Option<DraftRow>
    requires { Begins (fields_of read.now) (codes "waive") 2 }
    ensures row { MatchOption result
        ((row : Row) → Spells members (fields_of read.now) row → ⊥)
        (Spells members (fields_of read.now)) }
    ensures own { IfSome result (IsRowOf members) }
{
    let _members = members;
    let gw = gameweek_at(read, 1)?;
    Some(DraftRow::Waive { gw })
}

fn player_at(read: &ByteRecord, place: usize) -> Option<PlayerId>
    requires { place < length (fields_of read.now) }
    ensures { MatchOption result
        ((n : ℕ) → IsNumberAt (fields_of read.now) place 999999 n → ⊥)
        (IsNumberAt (fields_of read.now) place 999999) }
{
    match PlayerId::new(number_at(read, place, 999_999)? as u32) {
        Some(player) => Some(player),
        None => unreachable!(),
    }
}

fn gameweek_at(read: &ByteRecord, place: usize) -> Option<Gw>
    requires { place < length (fields_of read.now) }
    ensures { MatchOption result
        ((n : ℕ) → IsNumberAt (fields_of read.now) place 38 n → ⊥)
        (IsNumberAt (fields_of read.now) place 38) }
{
    match Gw::new(number_at(read, place, 38)? as u8) {
        Some(gw) => Some(gw),
        None => unreachable!(),
    }
}

fn member_at(read: &ByteRecord, place: usize, members: u8) -> Option<u8>
    requires { place < length (fields_of read.now) }
    ensures { MatchOption result
        ((n : ℕ) → IsNumberAt (fields_of read.now) place members n → ⊥)
        (IsNumberAt (fields_of read.now) place members) }
{
    Some(number_at(read, place, u64::from(members))? as u8)
}

// The number from 1 that a field spells.
fn number_at(read: &ByteRecord, place: usize, greatest: u64) -> Option<u64>
    requires { place < length (fields_of read.now) }
    ensures { MatchOption result
        ((n : ℕ) → IsNumberAt (fields_of read.now) place greatest n → ⊥)
        (IsNumberAt (fields_of read.now) place greatest) }
{
    let number = read_number(field_of(read, place), greatest)?;
    if number == 0 { None } else { Some(number) }
}

fn field_of(read: &ByteRecord, place: usize) -> &[u8]
    requires { place < length (fields_of read.now) }
    ensures { field_at (fields_of read.now) place ≡ Some result.now }
{
    match read.get(place) {
        Some(field) => field,
        None => unreachable!(),
    }
}
