// A keeper over an open connection.
ghost use Rattle.std.specs.Prelude.{◌≡◌, ◌⊎◌, false, IsTrue, Some, Err, IfOk, OnOk, OnErr, ◌≤◌};
ghost use Rattle.sqlite.specs.State.{HasCleanDisk};
ghost use Rattle.sqlite.specs.Held.{state};
ghost use Rattle.fpl_base.specs.Causes.{Rose};
ghost use Rattle.fpl_base.specs.declared.outside.KeeperFault.TheVariants as fault;
ghost use Rattle.fpl_base.specs.Keeping.{Map, KeysRise, HasKeeperCause, applied, map_of};
ghost use Rattle.season_keeper.specs.Holding.{Store, Tells, Keeps, HoldsMap, MayLeave, LeavesNewly, LeavesOnly, IsUndone, finds_one};

use crate::batch::apply;
use crate::store::load_pairs;
use fpl_base::{Bytes, Keeper, KeeperFault, Op, RecordKey};
use sqlite::{Alter, Connection, Error, ErrorCode};
use std::alloc::Global;
use std::marker::Model;

/// A keeper over an open connection. It tells its records where each of its two tables is missing or has its columns
/// and rules, and no key stands in both, as long as the disk returns what was written to it.
#[derive(Drop)]
pub struct SqlKeeper<S: Alter> {
    conn: Connection<S>,
    faults: u64,
    ready: bool,
}

impl<S: Alter> Model for SqlKeeper<S> {
    ghost use Rattle.season_keeper.specs.Holding.{HeldKeeper, keeper_code};

    ghost Value = { HeldKeeper S };

    ghost coded = { keeper_code S.code };

    ghost view = { λ k. record { conn = k.conn; faults = k.faults; ready = k.ready } };
}

impl<S: Alter> SqlKeeper<S> {
    /// Adopts an open connection. It serves no commit before a load has answered `Ok`.
    pub fn over(conn: Connection<S>) -> SqlKeeper<S>
        ensures { (result.conn ≡ conn) × (result.faults ≡ 0) × (result.ready ≡ false) }
    {
        SqlKeeper {
            conn,
            faults: 0,
            ready: false,
        }
    }

    // Counts a fault, unless memory ran out.
    fn fault(&mut self, error: Option<Error>) -> KeeperFault
        ensures later { self.old.faults ≤ self.new.faults }
        ensures failed { result ≡ fault.Failed → Rose self.old.faults self.new.faults }
        ensures memory { result ≡ fault.Memory → self.new.faults ≡ self.old.faults }
        ensures conn { self.new.conn ≡ self.old.conn }
        ensures ready { self.new.ready ≡ self.old.ready }
        ensures lack { result ≡ fault.Memory
            → error ≡ Some (Error.SqliteFailure ErrorCode.OutOfMemory) }
    {
        if let Some(Error::SqliteFailure(ErrorCode::OutOfMemory)) = error {
            return KeeperFault::Memory;
        }
        self.faults = self.faults.saturating_add(1);
        KeeperFault::Failed
    }
}

impl<S: Alter> Keeper for SqlKeeper<S> {
    ghost tells = { λ k. HasCleanDisk (state S.Store k.conn) };

    ghost serves = { λ k. IsTrue (state S.Store k.conn).is_open };

    ghost holds = { λ k m. HoldsMap (state S.Store k.conn) k.ready m };

    ghost passes = { λ k. MayLeave (state S.Store k.conn) };

    ghost faults = { λ k. k.faults };

    ghost one_map = { λ k m n p q. finds_one _ k.ready m n p.finds q.finds };

    fn load(&mut self, alloc: Global) -> Result<Vec<(RecordKey, Bytes)>, KeeperFault>
        ensures rise { IfOk result (λ pairs. KeysRise pairs.items) }
        ensures gave { IfOk result
            (λ pairs. HasCleanDisk (state S.Store self.new.conn) → (m : Map)
            → HoldsMap (state S.Store self.old.conn) self.old.ready m → m ≡ map_of pairs.items) }
        ensures alone { OnOk result
            (HasCleanDisk (state S.Store self.new.conn) → (m : Map)
            → HoldsMap (state S.Store self.old.conn) self.old.ready m → (x : Map)
            → MayLeave (state S.Store self.new.conn) x → x ≡ m) }
        ensures done { OnOk result
            (HasCleanDisk (state S.Store self.new.conn) → (m : Map)
            → HoldsMap (state S.Store self.old.conn) self.old.ready m
            → HoldsMap (state S.Store self.new.conn) self.new.ready m) }
        ensures kept { OnErr result
            (HasCleanDisk (state S.Store self.new.conn)
            → IsTrue (state S.Store self.new.conn).is_open → (m : Map)
            → HoldsMap (state S.Store self.old.conn) self.old.ready m
            → HoldsMap (state S.Store self.new.conn) self.new.ready m) }
        ensures stops { HasCleanDisk (state S.Store self.new.conn) → (m : Map)
            → HoldsMap (state S.Store self.old.conn) self.old.ready m → (x : Map)
            → MayLeave (state S.Store self.new.conn) x → MayLeave (state S.Store self.old.conn) x }
        ensures told { HasCleanDisk (state S.Store self.new.conn)
            → HasCleanDisk (state S.Store self.old.conn) }
        ensures served { HasCleanDisk (state S.Store self.new.conn)
            → IsTrue (state S.Store self.new.conn).is_open
            → IsTrue (state S.Store self.old.conn).is_open }
        ensures serves { OnOk result
            (HasCleanDisk (state S.Store self.new.conn)
            → IsTrue (state S.Store self.new.conn).is_open) }
        ensures cause { HasKeeperCause self.old.faults self.new.faults result }
        ensures only_told { HasCleanDisk (state S.Store self.new.conn)
            → Store (state S.Store self.old.conn).now
            → IfOk result
            (λ pairs. Tells (state S.Store self.old.conn).now (map_of pairs.items)
            × Keeps (state S.Store self.new.conn).now (map_of pairs.items)) }
        ensures undone { HasCleanDisk (state S.Store self.new.conn)
            → IsTrue (state S.Store self.new.conn).is_open
            → OnErr result
            (IsUndone (state S.Store self.old.conn) (state S.Store self.new.conn)) }
        ensures leaves { HasCleanDisk (state S.Store self.new.conn) → (m : Map)
            → HoldsMap (state S.Store self.old.conn) self.old.ready m
            → LeavesNewly (state S.Store self.old.conn) (state S.Store self.new.conn) m }
        ensures leaves_only { OnOk result
            (HasCleanDisk (state S.Store self.new.conn) → (m : Map)
            → HoldsMap (state S.Store self.old.conn) self.old.ready m
            → LeavesOnly (state S.Store self.new.conn) m) }
    {
        match load_pairs(&mut self.conn, alloc) {
            Ok(Some(pairs)) => {
                self.ready = true;
                Ok(pairs)
            }
            Ok(None) => Err(self.fault(None)),
            Err(error) => Err(self.fault(Some(error))),
        }
    }

    fn commit(&mut self, _alloc: Global, ops: &[Op]) -> Result<(), KeeperFault>
        ensures done { OnOk result
            (HasCleanDisk (state S.Store self.new.conn) → (m : Map)
            → HoldsMap (state S.Store self.old.conn) self.old.ready m
            → HoldsMap (state S.Store self.new.conn) self.new.ready (applied m ops.now)) }
        ensures alone { OnOk result
            (HasCleanDisk (state S.Store self.new.conn) → (m : Map)
            → HoldsMap (state S.Store self.old.conn) self.old.ready m → (x : Map)
            → MayLeave (state S.Store self.new.conn) x → x ≡ applied m ops.now) }
        ensures failed { OnErr result
            (HasCleanDisk (state S.Store self.new.conn)
            → IsTrue (state S.Store self.new.conn).is_open → (m : Map)
            → HoldsMap (state S.Store self.old.conn) self.old.ready m
            → HoldsMap (state S.Store self.new.conn) self.new.ready m
            ⊎ HoldsMap (state S.Store self.new.conn) self.new.ready (applied m ops.now)) }
        ensures kept { result ≡ Err fault.Memory → HasCleanDisk (state S.Store self.new.conn)
            → IsTrue (state S.Store self.new.conn).is_open → (m : Map)
            → HoldsMap (state S.Store self.old.conn) self.old.ready m
            → HoldsMap (state S.Store self.new.conn) self.new.ready m }
        ensures stops { HasCleanDisk (state S.Store self.new.conn) → (m : Map)
            → HoldsMap (state S.Store self.old.conn) self.old.ready m → (x : Map)
            → MayLeave (state S.Store self.new.conn) x
            → MayLeave (state S.Store self.old.conn) x ⊎ (x ≡ applied m ops.now) }
        ensures told { HasCleanDisk (state S.Store self.new.conn)
            → HasCleanDisk (state S.Store self.old.conn) }
        ensures served { HasCleanDisk (state S.Store self.new.conn)
            → IsTrue (state S.Store self.new.conn).is_open
            → IsTrue (state S.Store self.old.conn).is_open }
        ensures serves { OnOk result
            (HasCleanDisk (state S.Store self.new.conn)
            → IsTrue (state S.Store self.new.conn).is_open) }
        ensures cause { HasKeeperCause self.old.faults self.new.faults result }
        ensures leaves { HasCleanDisk (state S.Store self.new.conn) → (m : Map)
            → HoldsMap (state S.Store self.old.conn) self.old.ready m
            → LeavesNewly (state S.Store self.old.conn) (state S.Store self.new.conn)
            (applied m ops.now) }
        ensures leaves_only { OnOk result
            (HasCleanDisk (state S.Store self.new.conn) → (m : Map)
            → HoldsMap (state S.Store self.old.conn) self.old.ready m
            → LeavesOnly (state S.Store self.new.conn) (applied m ops.now)) }
    {
        if !self.ready {
            return Err(self.fault(None));
        }
        match apply(&mut self.conn, ops) {
            Ok(true) => Ok(()),
            Ok(false) => Err(self.fault(None)),
            Err(error) => Err(self.fault(Some(error))),
        }
    }
}
