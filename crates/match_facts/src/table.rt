// Sheets by ascending fixture in two columns: the fixtures, and the sheet of each.
ghost use Rattle.std.specs.Prelude.{◌≡◌, [], IfSome, OnOk, OnErr, option_copied};
ghost use Rattle.std.specs.Option.{option_copied_mut};
ghost use Rattle.std.specs.Borrow.{sem};
ghost use Rattle.std.specs.BTreeMap.{insert_entry, is_at};
ghost use Rattle.std.specs.Map.{keys_of, remove_entry};
ghost use Rattle.std.specs.Ordering.{nat_cmp};
ghost use Rattle.rule_book.specs.ById.{at_id};
ghost use Rattle.match_facts.specs.Columns.{IsAscending, IsPlace, IsSought};
ghost use Rattle.rule_book.specs.ById.{AreSorted};
ghost use Rattle.match_facts.specs.Lending.{LendsSheet};

use crate::sheet::Sheet;
use fpl_base::{FixtureId, Memory};
use std::alloc::Global;
use std::marker::Model;

/// A map from fixtures to sheets. A contract sees its entries, by ascending fixture.
#[derive(Drop)]
pub struct Table {
    fixtures: Vec<FixtureId>,
    sheets: Vec<Sheet>,
}

impl Model for Table {
    ghost use Rattle.std.specs.List.{zip};
    ghost use Rattle.rule_book.specs.MatchFacts as facts;
    ghost use Rattle.match_facts.specs.Tables.{IsTable};

    ghost Value = { facts.MatchFacts };

    ghost view = { λ t. zip t.fixtures.items t.sheets.items };

    ghost invariant = { λ t. IsTable t.fixtures.items t.sheets.items };
}

impl Table {
    /// No sheets.
    pub fn new(alloc: Global) -> Self
        ensures { result ≡ [] }
    {
        Table {
            fixtures: Vec::new(alloc),
            sheets: Vec::new(alloc),
        }
    }

    /// The fixtures, ascending.
    pub fn fixtures(&self) -> &[FixtureId]
        ensures { result.now ≡ keys_of self.now }
    {
        self.fixtures.as_slice()
    }

    /// The sheet of a fixture.
    pub fn get(&self, fixture: FixtureId) -> Option<&Sheet>
        ensures { option_copied result ≡ at_id self.now fixture }
    {
        match place_of(&self.fixtures, fixture) {
            Ok(place) => Some(&self.sheets[place]),
            Err(_) => None,
        }
    }

    /// The same, for writing.
    pub fn get_mut(&mut self, fixture: FixtureId) -> Option<&mut Sheet>
        ensures* writes_back { sem 𝓛 (LendsSheet self.entry fixture result) }
        ensures value { option_copied_mut result ≡ at_id self.old fixture }
    {
        match place_of(&self.fixtures, fixture) {
            Ok(place) => Some(&mut self.sheets[place]),
            Err(_) => None,
        }
    }

    /// Puts a sheet in the place of a fixture's; unchanged after want of memory.
    pub fn insert(&mut self, fixture: FixtureId, sheet: Sheet) -> Result<(), Memory>
        ensures ok { OnOk result (self.new ≡ insert_entry nat_cmp self.old fixture sheet) }
        ensures err { OnErr result (self.new ≡ self.old) }
        ensures sorted { AreSorted self.new }
    {
        match place_of(&self.fixtures, fixture) {
            Ok(place) => {
                self.sheets[place] = sheet;
                Ok(())
            }
            Err(place) => {
                self.fixtures.reserve(1)?;
                self.sheets.insert(place, sheet)?;
                let _ = self.fixtures.insert(place, fixture);
                Ok(())
            }
        }
    }

    /// Takes the sheet of a fixture away, if it has one.
    pub fn remove(&mut self, fixture: FixtureId)
        ensures entries { self.new ≡ remove_entry (is_at (nat_cmp fixture)) self.old }
        ensures sorted { AreSorted self.new }
    {
        if let Ok(place) = place_of(&self.fixtures, fixture) {
            self.fixtures.remove(place);
            self.sheets.remove(place);
        }
    }
}

// Where a fixture stands, or would go.
fn place_of(fixtures: &[FixtureId], fixture: FixtureId) -> Result<usize, usize>
    requires { IsAscending fixtures.now }
    ensures { IsSought fixtures.now fixture result }
{
    match counted_place(fixtures, fixture) {
        Some(place) => Ok(place),
        None => fixtures.binary_search(&fixture),
    }
}

// Where a fixture stands if the ids count up by one from the first to its own; `None` where nobody or another fixture
// stands there.
fn counted_place(fixtures: &[FixtureId], fixture: FixtureId) -> Option<usize>
    ensures { IfSome result (IsPlace fixtures.now fixture) }
{
    let first = fixtures.first()?;
    let place = fixture.get().checked_sub(first.get())? as usize;
    let there = fixtures.get(place)?;
    if *there == fixture { Some(place) } else { None }
}
