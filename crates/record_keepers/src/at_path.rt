// A keeper over the store of a path.
ghost use Rattle.std.specs.Prelude.{◌≡◌, ◌≤◌, ◌⊎◌, None, Err, IfOk, OnOk, OnErr};
ghost use Rattle.fpl_base.specs.Causes.{Rose};
ghost use Rattle.fpl_base.specs.declared.outside.KeeperFault.TheVariants as fault;
ghost use Rattle.fpl_base.specs.Keeping.{Map, KeysRise, HasKeeperCause, applied, map_of};
ghost use Rattle.record_keepers.specs.Filing.{BeginsWith, FailsToOpen, PathCommits, PathLoads, FirstIs, IsOpenFor, counted_fault};

use crate::opened::Opened;
use crate::opening::Opening;
use fpl_base::{Bytes, Keeper, KeeperFault, Op, RecordKey, Text};
use std::alloc::Global;
use std::marker::Model;

/// A keeper over the store of a path. It begins with a store that is open, of which it tells what a keeper over that store
/// tells, or with none. Behind a call that failed none is open, and it tells nothing any more: the next load opens the store
/// anew. While none is open, a commit is a counted fault.
pub struct PathKeeper<O: Opening> {
    opening: O,
    path: Text,
    stored: Option<Opened<O::First, O::Again>>,
    faults: u64,
}

// It is written out, so that a caller does not prove again how each part is dropped.
impl<O: Opening + Drop> Drop for PathKeeper<O> {
    fn drop(self) {
        let PathKeeper {
            opening: _opening,
            path: _path,
            stored: _stored,
            faults: _,
        } = self;
    }
}

impl<O: Opening> Model for PathKeeper<O> {
    ghost use Rattle.record_keepers.specs.Filing.{Filed};

    ghost Value = { Filed O.First O.Again O };

    ghost view = { λ k. record { opening = k.opening; path = k.path; stored = k.stored; faults = k.faults } };
}

impl<O: Opening + Drop> PathKeeper<O> {
    /// A keeper over the store of this path, which is opened now or, where that fails, by the first load.
    pub fn at(mut opening: O, path: Text) -> Self
        ensures path { (result.path ≡ path) × (result.faults ≡ 0) }
        ensures begins { BeginsWith (O.begins opening result.opening path) result.stored }
    {
        let stored = match opening.begin(path.text()) {
            Ok(store) => Some(Opened::First(store)),
            Err(_) => None,
        };
        PathKeeper {
            opening,
            path,
            stored,
            faults: 0,
        }
    }

    /// A keeper over the store of this path, which is opened by the first load. It tells nothing.
    pub fn shut(opening: O, path: Text) -> Self
        ensures { (result.opening ≡ opening) × (result.path ≡ path) × (result.stored ≡ None)
            × (result.faults ≡ 0) }
    {
        PathKeeper {
            opening,
            path,
            stored: None,
            faults: 0,
        }
    }

    // Counts a fault, unless memory ran out.
    fn counted(&mut self, why: KeeperFault) -> KeeperFault
        ensures same { result ≡ why }
        ensures faults { self.new.faults ≡ counted_fault self.old.faults why }
        ensures later { self.old.faults ≤ self.new.faults }
        ensures failed { why ≡ fault.Failed → Rose self.old.faults self.new.faults }
        ensures memory { why ≡ fault.Memory → self.new.faults ≡ self.old.faults }
        ensures rest { (self.new.stored ≡ self.old.stored) × (self.new.opening ≡ self.old.opening)
            × (self.new.path ≡ self.old.path) }
    {
        if why == KeeperFault::Failed {
            self.faults = self.faults.saturating_add(1);
        }
        why
    }

    // What is open, or is opened for this call.
    fn opened(&mut self) -> Result<Opened<O::First, O::Again>, KeeperFault>
        ensures rest { (self.new.faults ≡ self.old.faults) × (self.new.stored ≡ None)
            × (self.new.path ≡ self.old.path) }
        ensures open { IfOk result
            (IsOpenFor O.opens O.faults self.old.path self.old.stored self.old.opening
            self.new.opening) }
        ensures failed { OnErr result
            (FailsToOpen O.faults self.old.stored self.old.opening self.new.opening result) }
    {
        if let Some(stored) = self.stored.take() {
            return Ok(stored);
        }
        Ok(Opened::Again(self.opening.open(self.path.text())?))
    }

    // The records of the store that is open, or is opened for this.
    fn loaded(&mut self, alloc: Global) -> Result<Vec<(RecordKey, Bytes)>, KeeperFault>
        ensures file { PathLoads O.First.Keeper O.Again.Keeper O.opens O.faults self.old self.new result }
        ensures cause { HasKeeperCause self.old.faults self.new.faults result }
    {
        let mut stored = match self.opened() {
            Ok(stored) => stored,
            Err(why) => return Err(self.counted(why)),
        };
        match stored.load(alloc) {
            Ok(pairs) => {
                self.stored = Some(stored);
                Ok(pairs)
            }
            Err(why) => Err(self.counted(why)),
        }
    }

    // Commits to the store that is open.
    fn committed(&mut self, alloc: Global, ops: &[Op]) -> Result<(), KeeperFault>
        ensures file { PathCommits O.First.Keeper O.Again.Keeper self.old self.new ops.now result }
        ensures cause { HasKeeperCause self.old.faults self.new.faults result }
    {
        let Some(mut stored) = self.stored.take() else {
            return Err(self.counted(KeeperFault::Failed));
        };
        match stored.commit(alloc, ops) {
            Ok(()) => {
                self.stored = Some(stored);
                Ok(())
            }
            Err(why) => Err(self.counted(why)),
        }
    }
}

impl<O: Opening + Drop> Keeper for PathKeeper<O> {
    ghost use Rattle.record_keepers.specs.Filing.{one_of_first};

    ghost tells = { λ k. FirstIs O.First.tells k.stored };

    ghost serves = { λ k. FirstIs O.First.serves k.stored };

    ghost holds = { λ k m. FirstIs (λ a. O.First.holds a m) k.stored };

    ghost passes = { λ k m. FirstIs (λ a. O.First.passes a m) k.stored };

    ghost faults = { λ k. k.faults };

    ghost one_map = { λ k. one_of_first O.First.holds O.First.one_map k.stored };

    fn load(&mut self, alloc: Global) -> Result<Vec<(RecordKey, Bytes)>, KeeperFault>
        ensures rise { IfOk result (λ pairs. KeysRise pairs.items) }
        ensures gave { IfOk result
            (λ pairs. FirstIs O.First.tells self.new.stored → (m : Map)
            → FirstIs (λ a. O.First.holds a m) self.old.stored → m ≡ map_of pairs.items) }
        ensures alone { OnOk result
            (FirstIs O.First.tells self.new.stored → (m : Map)
            → FirstIs (λ a. O.First.holds a m) self.old.stored → (x : Map)
            → FirstIs (λ a. O.First.passes a x) self.new.stored → x ≡ m) }
        ensures done { OnOk result
            (FirstIs O.First.tells self.new.stored → (m : Map)
            → FirstIs (λ a. O.First.holds a m) self.old.stored
            → FirstIs (λ a. O.First.holds a m) self.new.stored) }
        ensures kept { OnErr result
            (FirstIs O.First.tells self.new.stored → FirstIs O.First.serves self.new.stored → (m : Map)
            → FirstIs (λ a. O.First.holds a m) self.old.stored
            → FirstIs (λ a. O.First.holds a m) self.new.stored) }
        ensures stops { FirstIs O.First.tells self.new.stored → (m : Map)
            → FirstIs (λ a. O.First.holds a m) self.old.stored → (x : Map)
            → FirstIs (λ a. O.First.passes a x) self.new.stored
            → FirstIs (λ a. O.First.passes a x) self.old.stored }
        ensures told { FirstIs O.First.tells self.new.stored → FirstIs O.First.tells self.old.stored }
        ensures served { FirstIs O.First.tells self.new.stored → FirstIs O.First.serves self.new.stored
            → FirstIs O.First.serves self.old.stored }
        ensures serves { OnOk result
            (FirstIs O.First.tells self.new.stored → FirstIs O.First.serves self.new.stored) }
        ensures cause { HasKeeperCause self.old.faults self.new.faults result }

        // What is done with the store that is open, and with what opens it.
        ensures file { PathLoads O.First.Keeper O.Again.Keeper O.opens O.faults self.old self.new result }
    {
        self.loaded(alloc)
    }

    fn commit(&mut self, alloc: Global, ops: &[Op]) -> Result<(), KeeperFault>
        ensures done { OnOk result
            (FirstIs O.First.tells self.new.stored → (m : Map)
            → FirstIs (λ a. O.First.holds a m) self.old.stored
            → FirstIs (λ a. O.First.holds a (applied m ops.now)) self.new.stored) }
        ensures alone { OnOk result
            (FirstIs O.First.tells self.new.stored → (m : Map)
            → FirstIs (λ a. O.First.holds a m) self.old.stored → (x : Map)
            → FirstIs (λ a. O.First.passes a x) self.new.stored → x ≡ applied m ops.now) }
        ensures failed { OnErr result
            (FirstIs O.First.tells self.new.stored → FirstIs O.First.serves self.new.stored → (m : Map)
            → FirstIs (λ a. O.First.holds a m) self.old.stored
            → FirstIs (λ a. O.First.holds a m) self.new.stored
            ⊎ FirstIs (λ a. O.First.holds a (applied m ops.now)) self.new.stored) }
        ensures kept { result ≡ Err fault.Memory → FirstIs O.First.tells self.new.stored
            → FirstIs O.First.serves self.new.stored → (m : Map)
            → FirstIs (λ a. O.First.holds a m) self.old.stored
            → FirstIs (λ a. O.First.holds a m) self.new.stored }
        ensures stops { FirstIs O.First.tells self.new.stored → (m : Map)
            → FirstIs (λ a. O.First.holds a m) self.old.stored → (x : Map)
            → FirstIs (λ a. O.First.passes a x) self.new.stored
            → FirstIs (λ a. O.First.passes a x) self.old.stored ⊎ (x ≡ applied m ops.now) }
        ensures told { FirstIs O.First.tells self.new.stored → FirstIs O.First.tells self.old.stored }
        ensures served { FirstIs O.First.tells self.new.stored → FirstIs O.First.serves self.new.stored
            → FirstIs O.First.serves self.old.stored }
        ensures serves { OnOk result
            (FirstIs O.First.tells self.new.stored → FirstIs O.First.serves self.new.stored) }
        ensures cause { HasKeeperCause self.old.faults self.new.faults result }

        // What is done with the store that is open.
        ensures file { PathCommits O.First.Keeper O.Again.Keeper self.old self.new ops.now result }
    {
        self.committed(alloc, ops)
    }
}
