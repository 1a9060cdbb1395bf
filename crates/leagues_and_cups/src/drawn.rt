// A cup with an index of its slots, so that nobody has to look through all of them.
ghost use Rattle.std.specs.Prelude.{◌≡◌, ◌≤◌, ◌++◌, ℕ, [], ◌∷◌, IfOk, OnOk, length, nat_le, nat_lt, true, false};
ghost use Rattle.std.specs.List.Sorted.{IsPartitionPoint};
ghost use Rattle.leagues_and_cups.specs.Places.{Ascend, IsIndex, of_entry, places_of};
ghost use Rattle.leagues_and_cups.specs.Shapes.{HasShape};

use fpl_base::{EntryId, Memory};
use rule_book::Bracket;
use std::alloc::Global;
use std::marker::Model;

/// A cup that was drawn.
#[derive(Drop)]
pub struct Drawn {
    bracket: Bracket,
    // Who stands in each slot, with its place, by ascending entry and then place.
    rows: Vec<(u32, u16)>,
}

impl Model for Drawn {
    ghost use Rattle.rule_book.specs.declared.cup.Bracket as declared;
    ghost use Rattle.leagues_and_cups.specs.Places.{IsIndex};

    ghost Value = { declared.Bracket };

    ghost view = { λ d. d.bracket };

    ghost invariant = { λ d. IsIndex d.bracket.slots d.rows.items };
}

impl Drawn {
    /// The cup of this bracket.
    pub fn of(alloc: Global, bracket: Bracket) -> Result<Self, Memory>
        requires { HasShape bracket }
        ensures { IfOk result (λ drawn. drawn ≡ bracket) }
    {
        let rows = index_of(alloc, bracket.slots.as_slice())?;
        Ok(Drawn { bracket, rows })
    }

    /// The bracket itself.
    pub fn bracket(&self) -> &Bracket
        ensures { result.now ≡ self.now }
    {
        &self.bracket
    }

    /// The slots in which an entry stands, each with its place.
    pub fn places(&self, entry: EntryId) -> &[(u32, u16)]
        ensures { result.now ≡ places_of self.now.slots entry }
    {
        rows_of(&self.rows, entry.get())
    }
}

// The slots by ascending entry, each with its place.
fn index_of(alloc: Global, slots: &[u32]) -> Result<Vec<(u32, u16)>, Memory>
    requires few { length slots.now ≤ 1024 }
    ensures { IfOk result (λ rows. IsIndex slots.now rows.items) }
{
    let mut rows = Vec::with_capacity(alloc, slots.len())?;
    for place in 0..slots.len() {
        put_row(&mut rows, slots[place], place as u16)?;
    }
    Ok(rows)
}

// Puts a slot behind those of entries that are not greater.
fn put_row(rows: &mut Vec<(u32, u16)>, entry: u32, place: u16) -> Result<(), Memory>
    requires ascend { Ascend rows.old.items }
    ensures ascend { OnOk result (Ascend rows.new.items) }
    ensures put { OnOk result ((e : ℕ) → of_entry e rows.new.items
        ≡ of_entry e rows.old.items ++ of_entry e ((entry, place) ∷ [])) }
{
    let at = end_of(rows, entry);
    rows.insert(at, (entry, place))?;
    Ok(())
}

// Behind how many rows those of greater entries begin.
fn end_of(rows: &[(u32, u16)], entry: u32) -> usize
    requires { Ascend rows.now }
    ensures within { result ≤ length rows.now }
    ensures parts { IsPartitionPoint (λ row. nat_le row.0 entry ≡ true)
        (λ row. nat_le row.0 entry ≡ false) rows.now result }
{
    rows.partition_point(|row| row.0 <= entry)
}

// Behind how many rows those of an entry begin.
fn start_of(rows: &[(u32, u16)], entry: u32) -> usize
    requires { Ascend rows.now }
    ensures within { result ≤ length rows.now }
    ensures parts { IsPartitionPoint (λ row. nat_lt row.0 entry ≡ true)
        (λ row. nat_lt row.0 entry ≡ false) rows.now result }
{
    rows.partition_point(|row| row.0 < entry)
}

// The rows of an entry among those by ascending entry.
fn rows_of(rows: &[(u32, u16)], entry: u32) -> &[(u32, u16)]
    requires { Ascend rows.now }
    ensures { result.now ≡ of_entry entry rows.now }
{
    let start = start_of(rows, entry);
    let end = end_of(rows, entry);
    &rows[start..end]
}
