// An open store.
ghost use Rattle.record_keepers.specs.Filing.{CommitsIn, LoadsIn};

use fpl_base::{Bytes, Keeper, KeeperFault, Op, RecordKey};
use std::alloc::Global;

/// An open store: the one that the keeper began with, or one that was opened behind a call that failed.
#[derive(Drop)]
pub enum Opened<A, B> {
    First(A),
    Again(B),
}

impl<A: Keeper, B: Keeper> Opened<A, B> {
    // All records, as the store loads them.
    pub fn load(&mut self, alloc: Global) -> Result<Vec<(RecordKey, Bytes)>, KeeperFault>
        ensures loads { LoadsIn A.Keeper B.Keeper self.old self.new result }
    {
        match self {
            Opened::First(keeper) => keeper.load(alloc),
            Opened::Again(keeper) => keeper.load(alloc),
        }
    }

    // Applies the changes, as the store commits them.
    pub fn commit(&mut self, alloc: Global, ops: &[Op]) -> Result<(), KeeperFault>
        ensures commits { CommitsIn A.Keeper B.Keeper self.old self.new ops.now result }
    {
        match self {
            Opened::First(keeper) => keeper.commit(alloc, ops),
            Opened::Again(keeper) => keeper.commit(alloc, ops),
        }
    }
}
