// The files of this machine, which open stores.
ghost use Rattle.std.specs.Prelude.{◌≡◌, ◌≤◌, false, IfOk, IsTrue};
ghost use Rattle.sqlite_wal.specs.Files.{image_at};
ghost use Rattle.sqlite.specs.Files.{file_state};
ghost use Rattle.sqlite.specs.Held.{state};
ghost use Rattle.sqlite.specs.State.{HasCleanDisk};
ghost use Rattle.fpl_base.specs.Causes.{Rose};
ghost use Rattle.fpl_base.specs.Keeping.{Map};
ghost use Rattle.fpl_base.specs.declared.outside.KeeperFault.TheVariants as cause;
ghost use Rattle.season_keeper.specs.Holding.{HoldsMap, MayLeave};
ghost use Rattle.file_keeper.specs.Opening.{CommittedTells, IsBegunBy, IsOpenedBy};

use crate::cause::Cause;
use crate::stored::StoredFile;
use fpl_base::KeeperFault;
use record_keepers::Opening;
use season_keeper::SqlKeeper;
use sqlite::{Alter, Connection, Error, ErrorCode, File, FileFrom, Start};

/// The files of this machine. Every call opens the file of the path, or makes it; that the database is the one of that file no
/// clause says. `S` stands for what the file and its log held before the first opening, which no code can read.
#[derive(Drop)]
pub struct StoreFiles<'a, S: Start> {
    rt: &'a HostRuntime,
    cause: &'a Cause,
    start: Option<S>,
    faults: u64,
}

impl<'a, S: Start> StoreFiles<'a, S> {
    /// The files of this machine, of which none is open. Why an opening of one failed is kept in `cause`.
    pub fn new(rt: &'a HostRuntime, cause: &'a Cause, start: S) -> Self
        ensures faults { ⟦<StoreFiles<'a, S> as Opening>⟧.faults result ≡ 0 }
    {
        StoreFiles {
            rt,
            cause,
            start: Some(start),
            faults: 0,
        }
    }

    // Counts a fault, unless memory ran out.
    fn counted(&mut self, fault: KeeperFault) -> KeeperFault
        ensures same { result ≡ fault }
        ensures later { self.old.faults ≤ self.new.faults }
        ensures failed { fault ≡ cause.Failed → Rose self.old.faults self.new.faults }
        ensures memory { fault ≡ cause.Memory → self.new.faults ≡ self.old.faults }
    {
        if fault == KeeperFault::Failed {
            self.faults = self.faults.saturating_add(1);
        }
        fault
    }
}

impl<'a, S: Start> Opening for StoreFiles<'a, S> {
    type First = StoredFile<FileFrom<S>>;

    type Again = StoredFile<File>;

    ghost faults = { λ o. o.faults };

    ghost begins = { λ _ _ path k. IsBegunBy (image_at S.Start) path
        (HasCleanDisk (file_state k.keeper.conn))
        (HoldsMap (file_state k.keeper.conn) k.keeper.ready)
        (MayLeave (file_state k.keeper.conn)) };

    ghost opens = { λ _ _ path k. IsOpenedBy path (file_state k.keeper.conn) };

    fn begin(&mut self, path: &str) -> Result<StoredFile<FileFrom<S>>, KeeperFault> {
        let Some(start) = self.start.take() else {
            return Err(self.counted(KeeperFault::Failed));
        };
        match Connection::open_from(self.rt, path, false, start) {
            Ok(connection) => {
                self.cause.keep(None);
                Ok(StoredFile {
                    keeper: begun(connection),
                })
            }
            Err((error, _)) => {
                self.cause.keep(Some(error));
                Err(self.counted(fault_of(error)))
            }
        }
    }

    fn open(&mut self, path: &str) -> Result<StoredFile<File>, KeeperFault> {
        match Connection::open(self.rt, path) {
            Ok(connection) => {
                self.cause.keep(None);
                Ok(StoredFile {
                    keeper: SqlKeeper::over(connection),
                })
            }
            Err(error) => {
                self.cause.keep(Some(error));
                Err(self.counted(fault_of(error)))
            }
        }
    }
}

// A keeper over a connection, of which a stop leaves what was committed.
fn begun<F: Alter>(connection: Connection<F>) -> SqlKeeper<F>
    ensures same { (result.conn ≡ connection) × (result.faults ≡ 0) × (result.ready ≡ false) }
    ensures settled { IsTrue (state F.Store connection).is_open → (m : Map)
        → MayLeave (state F.Store connection) m
        → CommittedTells (state F.Store connection) m }
{
    SqlKeeper::over(connection)
}

// Why a store was not opened.
fn fault_of(error: Error) -> KeeperFault
    ensures lack { result ≡ cause.Memory → error ≡ Error.SqliteFailure ErrorCode.OutOfMemory }
{
    match error {
        Error::SqliteFailure(ErrorCode::OutOfMemory) => KeeperFault::Memory,
        _ => KeeperFault::Failed,
    }
}
