// The fixtures that stand in each gameweek.
ghost use Rattle.std.specs.Prelude.{◌≡◌, ◌≤◌, ◌<◌, ◌-◌, ℕ, [], List, AllPairs, IfOk, IfSome, replicate, length, slice_index_or};
ghost use Rattle.season_calendar.specs.Kept.{ids_with, ids_without, put_in, taken_out};

use fpl_base::{FixtureId, Gw, Memory};
use std::alloc::Global;
use std::marker::Model;

// As many fixtures stand in one gameweek, at most.
pub const MOST_IN_A_GAMEWEEK: usize = 20;

// The ids of the fixtures that stand in one gameweek, ascending, with room for all of them from the making on.
#[derive(Debug, Drop)]
struct Ids {
    items: Vec<FixtureId>,
}

impl Model for Ids {
    ghost use Rattle.std.specs.Prelude.{List, ℕ, ◌≤◌, vec_capacity};

    ghost Value = { List ℕ };

    ghost view = { λ a. a.items.items };

    ghost invariant = { λ a. 20 ≤ vec_capacity a.items };
}

impl Ids {
    fn new(alloc: Global) -> Result<Self, Memory>
        ensures { IfOk result (λ ids. ids ≡ []) }
    {
        Ok(Ids {
            items: Vec::with_capacity(alloc, MOST_IN_A_GAMEWEEK)?,
        })
    }

    fn as_slice(&self) -> &[FixtureId]
        ensures { result.now ≡ self.now }
    {
        &self.items
    }

    fn insert(&mut self, f: FixtureId)
        requires room { length self.old < 20 }
        requires rise { AllPairs (λ a b. a < b) self.old }
        ensures { self.new ≡ ids_with f self.old }
    {
        let at = self.items.partition_point(|id| *id < f);
        let _ = self.items.insert(at, f);
    }

    fn remove(&mut self, f: FixtureId)
        ensures { self.new ≡ ids_without f self.old }
    {
        self.items.retain(|id| *id != f);
    }
}

/// For each gameweek the ids of the fixtures that stand in it, ascending.
#[derive(Debug, Drop)]
pub struct GameweekLists {
    lists: Vec<Ids>,
}

impl Model for GameweekLists {
    ghost use Rattle.std.specs.Prelude.{List, ℕ};

    ghost Value = { List (List ℕ) };

    ghost view = { λ a. a.lists.items };
}

impl GameweekLists {
    /// So many gameweeks, in which no fixture stands.
    pub fn new(alloc: Global, gameweeks: usize) -> Result<Self, Memory>
        ensures { IfOk result (λ lists. lists ≡ replicate gameweeks []) }
    {
        let mut lists = Vec::with_capacity(alloc, gameweeks)?;
        for _ in 0..gameweeks {
            lists.push(Ids::new(alloc)?)?;
        }
        Ok(GameweekLists { lists })
    }

    /// The fixtures that stand in a gameweek, none where there is no such gameweek.
    pub fn get(&self, g: Gw) -> &[FixtureId]
        ensures value { result.now ≡ slice_index_or self.now (g - 1) [] }
        ensures from_1 { 1 ≤ g }
    {
        match self.lists.get(usize::from(g.get() - 1)) {
            Some(ids) => ids.as_slice(),
            None => &[],
        }
    }

    /// A fixture stands in a gameweek from now on, or in none.
    pub fn put_in(&mut self, to: Option<Gw>, f: FixtureId)
        requires in_season { IfSome to (λ g. g ≤ length self.old) }
        requires room { IfSome to (λ g. length (slice_index_or self.old (g - 1) []) < 20) }
        requires rise { IfSome to
            (λ g. AllPairs (λ a b. a < b) (slice_index_or self.old (g - 1) [])) }
        ensures { self.new ≡ put_in self.old to f }
    {
        if let Some(g) = to {
            self.lists[usize::from(g.get() - 1)].insert(f);
        }
    }

    /// A fixture no longer stands in its gameweek.
    pub fn take_out(&mut self, from: Option<Gw>, f: FixtureId)
        requires in_season { IfSome from (λ g. g ≤ length self.old) }
        ensures { self.new ≡ taken_out self.old from f }
    {
        if let Some(g) = from {
            self.lists[usize::from(g.get() - 1)].remove(f);
        }
    }
}
