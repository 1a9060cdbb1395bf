// The store in a file.
ghost use Rattle.std.specs.Prelude.{IsTrue};
ghost use Rattle.sqlite.specs.Files.{file_state};
ghost use Rattle.sqlite.specs.State.{HasCleanDisk};
ghost use Rattle.season_keeper.specs.Holding.{HoldsMap, MayLeave, finds_one};

use fpl_base::{Bytes, Keeper, KeeperFault, Op, RecordKey};
use season_keeper::SqlKeeper;
use sqlite::FileStore;
use sqlite_disk::Disk;
use std::alloc::Global;

/// The store in a file that is open: its keeper over a connection, by a name that generic code compares at a glance.
#[derive(Drop)]
pub struct StoredFile<D: Disk> {
    pub(crate) keeper: SqlKeeper<FileStore<D>>,
}

impl<D: Disk> Keeper for StoredFile<D> {
    ghost tells = { λ k. HasCleanDisk (file_state k.keeper.conn) };

    ghost serves = { λ k. IsTrue (file_state k.keeper.conn).is_open };

    ghost holds = { λ k. HoldsMap (file_state k.keeper.conn) k.keeper.ready };

    ghost passes = { λ k. MayLeave (file_state k.keeper.conn) };

    ghost faults = { λ k. k.keeper.faults };

    ghost one_map = { λ k m n p q. finds_one _ k.keeper.ready m n p.finds q.finds };

    fn load(&mut self, alloc: Global) -> Result<Vec<(RecordKey, Bytes)>, KeeperFault> {
        self.keeper.load(alloc)
    }

    fn commit(&mut self, alloc: Global, ops: &[Op]) -> Result<(), KeeperFault> {
        self.keeper.commit(alloc, ops)
    }
}
