//! The leagues of each entry, so that nobody has to look through all leagues.
ghost use Rattle.std.specs.Prelude.{◌≡◌, ◌≢◌, ◌≤◌, ℕ, [], All, length, OnErr, OnOk};
ghost use Rattle.rule_book.specs.Ranks.{AllDiffer};
ghost use Rattle.leagues_and_cups.specs.Books.{row_entered, row_of, with_number};

use fpl_base::{EntryId, LeagueId, Memory};
use std::alloc::Global;
use std::marker::Model;

// The numbers of the leagues that an entry is in, ascending.
#[derive(Drop)]
struct Numbers {
    items: Vec<LeagueId>,
}

impl Model for Numbers {
    ghost use Rattle.std.specs.Prelude.{List, ℕ};
    ghost use Rattle.leagues_and_cups.specs.Books.{Rise};

    ghost Value = { List ℕ };

    ghost view = { λ a. a.items.items };

    ghost invariant = { λ a. Rise a.items.items };
}

impl Numbers {
    fn new(alloc: Global) -> Self
        ensures { result ≡ [] }
    {
        Numbers {
            items: Vec::new(alloc),
        }
    }

    fn as_slice(&self) -> &[LeagueId]
        ensures { result.now ≡ self.now }
    {
        self.items.as_slice()
    }

    fn add(&mut self, l: LeagueId) -> Result<(), Memory>
        requires new { All (λ n. n ≢ l) self.old }
        ensures ok { OnOk result (self.new ≡ with_number l self.old) }
        ensures err { OnErr result (self.new ≡ self.old) }
    {
        let place = self.items.partition_point(|n| *n < l);
        self.items.insert(place, l)?;
        Ok(())
    }
}

// Makes rows that are empty, until there are so many.
fn grow(rows: &mut Vec<Numbers>, count: usize) -> Result<(), Memory>
    ensures enough { OnOk result (count ≤ length rows.new.items) }
    ensures same { (e : ℕ) → row_of rows.new.items e ≡ row_of rows.old.items e }
{
    let alloc = *rows.allocator();
    while rows.len() < count {
        rows.push(Numbers::new(alloc))?;
    }
    Ok(())
}

/// For each entry the numbers of its leagues, ascending.
#[derive(Drop)]
pub struct Memberships {
    // The row of an entry stands at the place of its number, and the first one stays empty.
    rows: Vec<Numbers>,
}

impl Model for Memberships {
    ghost use Rattle.std.specs.Prelude.{List, ℕ};

    ghost Value = { List (List ℕ) };

    ghost view = { λ m. m.rows.items };
}

impl Memberships {
    /// Nobody is in a league.
    pub fn new(alloc: Global) -> Self
        ensures { result ≡ [] }
    {
        Memberships {
            rows: Vec::new(alloc),
        }
    }

    /// The leagues of an entry.
    pub fn of(&self, e: EntryId) -> &[LeagueId]
        ensures { result.now ≡ row_of self.now e }
    {
        match self.rows.get(e.get() as usize) {
            Some(numbers) => numbers.as_slice(),
            None => &[],
        }
    }

    /// An entry is in a league more.
    pub fn add(&mut self, e: EntryId, l: LeagueId) -> Result<(), Memory>
        requires new { All (λ n. n ≢ l) (row_of self.old e) }
        ensures ok { OnOk result (row_of self.new e ≡ with_number l (row_of self.old e)) }
        ensures others { (d : ℕ) → d ≢ e → row_of self.new d ≡ row_of self.old d }
        ensures err { OnErr result (row_of self.new e ≡ row_of self.old e) }
    {
        let place = e.get() as usize;
        grow(&mut self.rows, place + 1)?;
        self.rows[place].add(l)
    }

    /// Entries are in a league more, each named once.
    pub fn enter(&mut self, members: &[EntryId], l: LeagueId) -> Result<(), Memory>
        requires differ { AllDiffer members.now }
        requires new { (e : ℕ) → All (λ n. n ≢ l) (row_of self.old e) }
        ensures { OnOk result ((e : ℕ) → row_of self.new e ≡ row_entered members.now l self.old e) }
    {
        for e in members {
            self.add(*e, l)?;
        }
        Ok(())
    }
}
