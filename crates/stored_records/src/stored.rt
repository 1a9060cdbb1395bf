// The records of a store, and what is found among them.
ghost use Rattle.std.specs.Prelude.{◌≡◌, ◌<◌, ◌≤◌, ◌-◌, ℕ, IfOk, IfSome, IsTrue, None, drop, false, filter, length, take, true};
ghost use Rattle.std.specs.List.{HoldsAt};
ghost use Rattle.std.specs.Option.{option_map};
ghost use Rattle.fpl_base.specs.Keeping.{KeysRise, is_same_key, map_of, precedes};
ghost use Rattle.fpl_base.specs.Rows.{IsPlace};
ghost use Rattle.season_records.specs.declared.slot.Slot.TheVariants as slot;
ghost use Rattle.stored_records.specs.Kept.{transfer_in, transfer_item};
ghost use Rattle.stored_records.specs.Stored.{NoneUnder, between, is_sale, is_member_of, is_sale_of, is_there, is_within, stands_before, told};

use crate::kept::{Kept, Transfer};
use fpl_base::{Bytes, EntryId, Gw, LeagueId, Memory, RecordKey};
use season_records::{Item, Slot};
use std::alloc::Global;
use std::cell::Cell;
use std::marker::Model;

// How many kinds of records have a start of their own; those above them share the last one.
const KINDS: usize = 16;

/// Records in the order of their keys.
#[derive(Drop)]
pub struct Stored {
    rows: Vec<Kept>,
    // how many records have a lesser kind than each; no answer depends on it
    starts: [usize; KINDS],
    // where a record of several numbers was looked for last; no answer depends on it
    last: Cell<usize>,
}

impl Model for Stored {
    ghost use Rattle.stored_records.specs.Stored.{Rows};
    ghost use Rattle.fpl_base.specs.Keeping.{KeysRise};

    ghost Value = { Rows };

    ghost view = { λ s. s.rows.items };

    ghost invariant = { λ s. KeysRise s.rows.items };
}

// Whether the record of this key stands at the place.
fn stands_at(rows: &[Kept], at: usize, key: RecordKey) -> bool
    ensures there { IsTrue result
        → (at < length rows.now) × HoldsAt (λ row. row.0 ≡ key) rows.now at }
    ensures away { result ≡ false → at < length rows.now
        → HoldsAt (λ row. is_same_key row.0 key ≡ false) rows.now at }
{
    at < rows.len() && rows[at].key() == key
}

// The number of the transfer at a place, if one of this entry and gameweek stands there.
fn number_at(rows: &[Kept], at: usize, entry: u32, gameweek: u32) -> Option<u32>
    ensures there { IfSome result (λ n. (at < length rows.now)
        × HoldsAt (λ row. (is_sale_of entry gameweek row.0 ≡ true) × (row.0.c ≡ n)) rows.now at) }
    ensures range { IfSome result (λ n. n < 4294967296) }
    ensures away { result ≡ None → at < length rows.now
        → HoldsAt (λ row. is_sale_of entry gameweek row.0 ≡ false) rows.now at }
{
    if at >= rows.len() {
        return None;
    }
    let key = rows[at].key();
    if key.kind == 8 && key.a == entry && key.b == gameweek {
        Some(key.c)
    } else {
        None
    }
}

// The records from one place on and before another.
fn cut(rows: &[Kept], first: usize, end: usize) -> &[Kept]
    requires { end ≤ length rows.now }
    ensures { result.now ≡ take (end - first) (drop first rows.now) }
{
    if first < end { &rows[first..end] } else { &[] }
}

// Where the record of a key stands among these, or would stand.
fn place_in(rows: &[Kept], key: RecordKey) -> usize
    requires rise { KeysRise rows.now }
    ensures { IsPlace rows.now key result }
{
    rows.partition_point(|row| row.key().precedes(&key))
}

// Whether the place of a key is not before the one place, and not behind the other.
fn is_between(rows: &[Kept], first: usize, end: usize, key: RecordKey) -> bool
    ensures low { IsTrue result → first ≤ end }
    ensures high { IsTrue result → end ≤ length rows.now }
    ensures before { IsTrue result → 0 < first
        → HoldsAt (λ row. precedes row.0 key ≡ true) rows.now (first - 1) }
    ensures behind { IsTrue result → end < length rows.now
        → HoldsAt (λ row. precedes row.0 key ≡ false) rows.now end }
{
    first <= end
        && end <= rows.len()
        && (first == 0 || rows[first - 1].key().precedes(&key))
        && (end == rows.len() || !rows[end].key().precedes(&key))
}

// Where the record of a key stands, or would stand; two places that it may lie between are a hint.
fn place_near(rows: &[Kept], first: usize, end: usize, key: RecordKey) -> usize
    requires rise { KeysRise rows.now }
    ensures { IsPlace rows.now key result }
{
    if is_between(rows, first, end, key) {
        first + place_in(&rows[first..end], key)
    } else {
        place_in(rows, key)
    }
}

// How many records have a lesser kind than each.
fn starts_of(rows: &[Kept]) -> [usize; KINDS] {
    let mut starts = [0; KINDS];
    for kind in 0..KINDS {
        starts[kind] = rows.partition_point(|row| (row.key().kind as usize) < kind);
    }
    starts
}

// Whether a record stands before all members of a league.
fn stands_before(key: &RecordKey, league: u32) -> bool
    ensures { result ≡ stands_before league key.now }
{
    key.kind < 10 || key.kind == 10 && key.a < league
}

// These records, each read once.
fn kept_of(alloc: Global, rows: Vec<(RecordKey, Bytes)>) -> Result<Vec<Kept>, Memory>
    ensures { IfOk result (λ kept. kept.items ≡ rows.items) }
{
    let mut kept = Vec::with_capacity(alloc, rows.len())?;
    'rows: for (key, body) in rows {
        kept.push(Kept::new(alloc, key, body)?)?;
    }
    Ok(kept)
}

impl Stored {
    /// These records, each read once. It takes memory in proportion to them, and gives theirs back.
    pub fn read(alloc: Global, rows: Vec<(RecordKey, Bytes)>) -> Result<Self, Memory>
        requires { KeysRise rows.items }
        ensures { IfOk result (λ stored. stored ≡ rows.items) }
    {
        let rows = kept_of(alloc, rows)?;
        Ok(Stored {
            starts: starts_of(rows.as_slice()),
            rows,
            last: Cell::new(0),
        })
    }

    /// The records themselves.
    pub fn as_slice(&self) -> &[Kept]
        ensures rows { result.now ≡ self.now }
        ensures rise { KeysRise self.now }
    {
        self.rows.as_slice()
    }

    // From where on, and up to where, the records of a kind stand.
    fn places_of(&self, kind: u8) -> (usize, usize) {
        let at = kind as usize;
        if at + 1 < KINDS {
            (self.starts[at], self.starts[at + 1])
        } else {
            (self.starts[KINDS - 1], self.rows.len())
        }
    }

    // Two places that the one of a key is likely to lie between. Where the first numbers of a kind are 1, 2, 3 and so on,
    // a number tells its place; records of several numbers are looked for in turn, each beside the one before it.
    fn likely(&self, key: RecordKey) -> (usize, usize) {
        if key.b > 0 {
            let last = self.last.get();
            return (last, last.saturating_add(1));
        }
        let at = self.places_of(key.kind).0.saturating_add(key.a as usize);
        (at.saturating_sub(1), at.saturating_sub(1))
    }

    // Two places that the one of a key lies between: those that are likely, or else those of its kind.
    fn near(&self, key: RecordKey) -> (usize, usize) {
        let (first, end) = self.likely(key);
        if is_between(self.rows.as_slice(), first, end, key) {
            (first, end)
        } else {
            self.places_of(key.kind)
        }
    }

    // Where the record of a key stands, or would stand.
    fn place_of(&self, key: RecordKey) -> usize
        ensures { IsPlace self.now key result }
    {
        let (first, end) = self.near(key);
        let place = place_near(self.rows.as_slice(), first, end, key);
        if key.b > 0 {
            self.last.set(place);
        }
        place
    }

    /// The record of a key, if there is one.
    pub fn row(&self, key: RecordKey) -> Option<&Kept>
        ensures body { option_map (λ row. row.now.1) result ≡ map_of self.now key }
        ensures key { IfSome result (λ row. row.now.0 ≡ key) }
    {
        let rows = self.as_slice();
        let place = self.place_of(key);
        if stands_at(rows, place, key) {
            Some(&rows[place])
        } else {
            None
        }
    }

    /// Whether there is a record of a slot.
    pub fn has(&self, slot: Slot) -> bool
        ensures { result ≡ is_there (map_of self.now) slot }
    {
        self.row(slot.key()).is_some()
    }

    /// What the record of a transfer tells, if there is one that is spelled as it has to be.
    pub fn transfer(&self, entry: EntryId, gameweek: Gw, number: u32) -> Option<Transfer>
        ensures { option_map transfer_item result
            ≡ transfer_in (told (map_of self.now) (slot.Transfer entry gameweek number)) }
    {
        let slot = Slot::Transfer(entry.get(), u32::from(gameweek.get()), number);
        self.row(slot.key())?.transfer()
    }

    /// What the record of any other slot tells, if there is one that is spelled as it has to be.
    pub fn item(&self, slot: Slot) -> Option<&Item>
        requires { is_sale slot ≡ false }
        ensures { option_map (λ item. item.now) result ≡ told (map_of self.now) slot }
    {
        self.row(slot.key())?.item()
    }

    /// The records that have a key not before `low`, and before `high`.
    pub fn part(&self, low: RecordKey, high: RecordKey) -> &[Kept]
        ensures { result.now ≡ filter (λ row. is_within low high row.0) self.now }
    {
        let first = self.place_of(low);
        let end = self.place_of(high);
        cut(self.as_slice(), first, end)
    }

    /// The first number, from one on, under which a transfer of an entry in a gameweek stands.
    pub(crate) fn next_number(&self, entry: EntryId, gameweek: Gw, from: u32) -> Option<u32>
        ensures next { IfSome result
            (λ n. (from ≤ n) × NoneUnder (map_of self.now) entry gameweek from n) }
        ensures range { IfSome result (λ n. n < 4294967296) }
        ensures end { result ≡ None
            → (n : ℕ) → NoneUnder (map_of self.now) entry gameweek from n }
    {
        let gameweek = u32::from(gameweek.get());
        let place = self.place_of(Slot::Transfer(entry.get(), gameweek, from).key());
        number_at(self.as_slice(), place, entry.get(), gameweek)
    }

    /// The records of the members of a league.
    pub fn members(&self, league: LeagueId) -> &[Kept]
        ensures { result.now ≡ filter (is_member_of league) self.now }
    {
        let l = league.get();
        let rows = self.as_slice();
        let first = rows.partition_point(|row| stands_before(&row.key(), l));
        let end = rows.partition_point(|row| stands_before(&row.key(), l)
            || row.key().kind == 10 && row.key().a == l);
        cut(rows, first, end)
    }

    /// How many records have a key not before `low`, and before `high`.
    pub fn between(&self, low: RecordKey, high: RecordKey) -> usize
        ensures { result ≡ between self.now low high }
    {
        let first = self.place_of(low);
        let end = self.place_of(high);
        if first < end { end - first } else { 0 }
    }
}
