// One row, from the fields of a record.
ghost use Rattle.std.specs.Prelude.{◌≡◌, ◌≢◌, ◌<◌, ◌≤◌, ◌^◌, ℕ, IfSome, MatchOption, Option, Some, codes, false, length, true};
ghost use Rattle.csv.specs.Records.{field_at, fields_of};
ghost use Rattle.match_events.specs.declared.event.Event.{Event as Told};
ghost use Rattle.match_events.specs.declared.event.EventKind.{EventKind as Kind};
ghost use Rattle.match_events.specs.declared.event.Side.{Side as Own};
ghost use Rattle.fpl_events.specs.Rows.{IsDoable, Spells};
ghost use Rattle.fpl_events.specs.Words.{Begins, IsNumberAt, NamesOther, SpellsEvent, SpellsSide, kind_word, side_letter};
ghost use Rattle.fpl_events.specs.declared.row.EventRow.{EventRow as Row};

use csv::ByteRecord;
use fpl_base::{PlayerId, read_number};
use match_events::{Event, EventKind, Side};

/// What a row orders. Places are counted from 1.
#[derive(Clone, Copy, Debug, PartialEq, Eq)]
pub enum EventRow {
    /// Puts an event in front of the one at a place, or behind the last.
    Insert { place: usize, event: Event },
    /// Takes the event at a place away.
    Remove { place: usize },
    /// Sends the lines that changed.
    Send,
}

// The row that the fields of a record spell in a match of so many minutes, where so many events stand.
pub(crate) fn row_of(read: &ByteRecord, minutes: u8, count: usize) -> Option<EventRow>
    requires { count < 2 ^ 32 }
    ensures row { MatchOption result
        ((row : Row) → Spells minutes count (fields_of read.now) row → ⊥)
        (Spells minutes count (fields_of read.now)) }
    ensures doable { IfSome result (IsDoable minutes count) }
{
    if begins(read, b"insert", 7) {
        return insert_of(read, minutes, count);
    }
    if begins(read, b"remove", 2) {
        return remove_of(read, minutes, count);
    }
    if begins(read, b"send", 1) {
        return Some(EventRow::Send);
    }
    None
}

// Whether the first field is this word, and there are so many fields.
fn begins(read: &ByteRecord, word: &[u8], count: usize) -> bool
    requires { 1 ≤ count }
    ensures there { result ≡ true → Begins (fields_of read.now) word.now count }
    ensures none { result ≡ false → Begins (fields_of read.now) word.now count → ⊥ }
{
    if read.len() != count {
        return false;
    }
    field_of(read, 0) == word
}

fn insert_of(read: &ByteRecord, minutes: u8, count: usize) -> Option<EventRow>
    requires few { count < 2 ^ 32 }
    requires begins { Begins (fields_of read.now) (codes "insert") 7 }
    ensures row { MatchOption result
        ((row : Row) → Spells minutes count (fields_of read.now) row → ⊥)
        (Spells minutes count (fields_of read.now)) }
    ensures doable { IfSome result (IsDoable minutes count) }
{
    let place = number_at(read, 1, 1, count as u64 + 1)? as usize;
    let event = event_of(read)?;
    if event.is_in(minutes) {
        Some(EventRow::Insert { place, event })
    } else {
        None
    }
}

fn remove_of(read: &ByteRecord, minutes: u8, count: usize) -> Option<EventRow>
    requires few { count < 2 ^ 32 }
    requires begins { Begins (fields_of read.now) (codes "remove") 2 }
    ensures row { MatchOption result
        ((row : Row) → Spells minutes count (fields_of read.now) row → ⊥)
        (Spells minutes count (fields_of read.now)) }
    ensures doable { IfSome result (IsDoable minutes count) }
{
    let _minutes = minutes;
    let place = number_at(read, 1, 1, count as u64)? as usize;
    Some(EventRow::Remove { place })
}

// The event that the fields from the third on spell.
fn event_of(read: &ByteRecord) -> Option<Event>
    requires { length (fields_of read.now) ≡ 7 }
    ensures { MatchOption result
        ((event : Told) → SpellsEvent (fields_of read.now) event → ⊥)
        (SpellsEvent (fields_of read.now)) }
{
    let minute = number_at(read, 2, 0, 255)? as u8;
    let kind = kind_of(field_of(read, 3))?;
    let side = side_of(kind, field_of(read, 4))?;
    let player = player_at(read, 5)?;
    let other = other_at(read, 6)?;
    Some(Event {
        minute,
        kind,
        side,
        player,
        other,
    })
}

fn kind_of(field: &[u8]) -> Option<EventKind>
    ensures { MatchOption result ((kind : Kind) → field.now ≢ kind_word kind)
        (λ kind. field.now ≡ kind_word kind) }
{
    match field {
        b"start" => Some(EventKind::Start),
        b"sub" => Some(EventKind::Sub),
        b"goal" => Some(EventKind::Goal),
        b"own" => Some(EventKind::Own),
        b"yellow" => Some(EventKind::Yellow),
        b"red" => Some(EventKind::Red),
        _ => None,
    }
}

// The side of an event of this kind: that of a start is named.
fn side_of(kind: EventKind, field: &[u8]) -> Option<Side>
    ensures { MatchOption result ((side : Own) → SpellsSide kind field.now side → ⊥)
        (SpellsSide kind field.now) }
{
    match kind {
        EventKind::Start => starting_side(field),
        _ => {
            if field == b"-".as_slice() {
                Some(Side::Home)
            } else {
                None
            }
        }
    }
}

fn starting_side(field: &[u8]) -> Option<Side>
    ensures { MatchOption result ((side : Own) → field.now ≢ side_letter side)
        (λ side. field.now ≡ side_letter side) }
{
    match field {
        b"h" => Some(Side::Home),
        b"a" => Some(Side::Away),
        _ => None,
    }
}

fn player_at(read: &ByteRecord, place: usize) -> Option<PlayerId>
    requires { place < length (fields_of read.now) }
    ensures { MatchOption result
        ((n : ℕ) → IsNumberAt (fields_of read.now) place 1 999999 n → ⊥)
        (IsNumberAt (fields_of read.now) place 1 999999) }
{
    match PlayerId::new(number_at(read, place, 1, 999_999)? as u32) {
        Some(player) => Some(player),
        None => unreachable!(),
    }
}

// The second player of an event, where 0 is none.
fn other_at(read: &ByteRecord, place: usize) -> Option<Option<PlayerId>>
    requires { place < length (fields_of read.now) }
    ensures { MatchOption result
        ((other : Option ℕ) → NamesOther (fields_of read.now) place other → ⊥)
        (NamesOther (fields_of read.now) place) }
{
    let number = number_at(read, place, 0, 999_999)?;
    Some(PlayerId::new(number as u32))
}

// The number of a range that a field spells.
fn number_at(read: &ByteRecord, place: usize, least: u64, greatest: u64) -> Option<u64>
    requires { place < length (fields_of read.now) }
    ensures { MatchOption result
        ((n : ℕ) → IsNumberAt (fields_of read.now) place least greatest n → ⊥)
        (IsNumberAt (fields_of read.now) place least greatest) }
{
    let number = read_number(field_of(read, place), greatest)?;
    if number < least { None } else { Some(number) }
}

fn field_of(read: &ByteRecord, place: usize) -> &[u8]
    requires { place < length (fields_of read.now) }
    ensures { field_at (fields_of read.now) place ≡ Some result.now }
{
    match read.get(place) {
        Some(field) => field,
        None => unreachable!(),
    }
}
