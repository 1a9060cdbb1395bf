// The records of a store.
ghost use Rattle.std.specs.Prelude.{◌≡◌, Bool, true, false, IsTrue, None, IfOk, IfSome, OnOk, OnErr};
ghost use Rattle.sqlite.specs.State.{HasCleanDisk, KeepsCommit, Survives};
ghost use Rattle.sqlite.specs.Held.{state};
ghost use Rattle.fpl_base.specs.Keeping.{Map, KeysRise, map_of};
ghost use Rattle.season_keeper.specs.Table.{are_both};
ghost use Rattle.season_keeper.specs.Rows.{IsReading};
ghost use Rattle.season_keeper.specs.Holding.{Store, records_of, lines_of, Finds, Tells, Keeps, Grows, Moves, Moved, Inside, IsUndone};

use crate::pairs::pairs_of;
use fpl_base::{Bytes, RecordKey};
use sqlite::{Alter, Connection, Error, Row, Transaction};
use std::alloc::Global;

// Makes each of the two tables that is not there.
fn make_tables<S: Alter>(tx: &mut Transaction<'_, S>) -> Result<usize, Error>
    ensures same_reference { tx.new.conn.ghost_name ≡ tx.old.conn.ghost_name }
    ensures made { HasCleanDisk (state S.Store tx.new.conn.now)
        → IsTrue (state S.Store tx.old.conn.now).in_transaction
        → OnOk result
        (Inside (state S.Store tx.old.conn.now) (state S.Store tx.new.conn.now)
        (λ db. (was : Store (state S.Store tx.old.conn.now).now)
        → Grows (state S.Store tx.old.conn.now).now db was)) }
    ensures undone { HasCleanDisk (state S.Store tx.new.conn.now)
        → IsTrue (state S.Store tx.old.conn.now).in_transaction
        → OnErr result
        (KeepsCommit (state S.Store tx.old.conn.now) (state S.Store tx.new.conn.now)) }
    ensures survives { Survives (state S.Store tx.old.conn.now) (state S.Store tx.new.conn.now)
        (λ _. ⊥) }
{
    tx.execute(
        "CREATE TABLE IF NOT EXISTS record (kind INTEGER NOT NULL, a INTEGER NOT NULL, b INTEGER NOT NULL, c INTEGER NOT NULL, body BLOB NOT NULL, PRIMARY KEY (kind, a, b, c)) STRICT",
        &[],
    )?;
    tx.execute(
        "CREATE TABLE IF NOT EXISTS line (a INTEGER NOT NULL, b INTEGER NOT NULL, c INTEGER NOT NULL, body BLOB NOT NULL, PRIMARY KEY (a, b, c)) STRICT",
        &[],
    )
}

// Moves each record of kind 5 from the one table to the other. A key that stands in both is an error.
fn move_lines<S: Alter>(tx: &mut Transaction<'_, S>) -> Result<usize, Error>
    ensures same_reference { tx.new.conn.ghost_name ≡ tx.old.conn.ghost_name }
    ensures made { HasCleanDisk (state S.Store tx.new.conn.now)
        → IsTrue (state S.Store tx.old.conn.now).in_transaction
        → OnOk result (Inside (state S.Store tx.old.conn.now) (state S.Store tx.new.conn.now)
        (λ db. (was : Store (state S.Store tx.old.conn.now).now) → are_both was.tables ≡ true
        → Moves (state S.Store tx.old.conn.now).now db was)) }
    ensures undone { HasCleanDisk (state S.Store tx.new.conn.now)
        → IsTrue (state S.Store tx.old.conn.now).in_transaction
        → OnErr result
        (KeepsCommit (state S.Store tx.old.conn.now) (state S.Store tx.new.conn.now)) }
    ensures survives { Survives (state S.Store tx.old.conn.now) (state S.Store tx.new.conn.now)
        (λ _. ⊥) }
{
    tx.execute(
        "INSERT INTO line (a, b, c, body) SELECT a, b, c, body FROM record WHERE kind = 5",
        &[],
    )?;
    tx.execute("DELETE FROM record WHERE kind = 5", &[])
}

// All rows, those of `record` and then those of `line`, in the order in which SQL finds them: to ask for that of their
// keys costs ten times as much.
fn read_rows<S: Alter>(tx: &mut Transaction<'_, S>) -> Result<Vec<Row>, Error>
    ensures same_reference { tx.new.conn.ghost_name ≡ tx.old.conn.ghost_name }
    ensures made { HasCleanDisk (state S.Store tx.new.conn.now)
        → IsTrue (state S.Store tx.old.conn.now).in_transaction
        → OnOk result (Inside (state S.Store tx.old.conn.now) (state S.Store tx.new.conn.now)
        (λ db. (store : Store (state S.Store tx.old.conn.now).now) → are_both store.tables ≡ true
        → db ≡ (state S.Store tx.old.conn.now).now)) }
    ensures read { HasCleanDisk (state S.Store tx.new.conn.now)
        → (store : Store (state S.Store tx.old.conn.now).now) → are_both store.tables ≡ true
        → IfOk result (λ rows. IsReading (records_of store) (lines_of store) rows.items) }
    ensures undone { HasCleanDisk (state S.Store tx.new.conn.now)
        → IsTrue (state S.Store tx.old.conn.now).in_transaction
        → OnErr result
        (KeepsCommit (state S.Store tx.old.conn.now) (state S.Store tx.new.conn.now)) }
    ensures survives { Survives (state S.Store tx.old.conn.now) (state S.Store tx.new.conn.now)
        (λ _. ⊥) }
{
    let mut rows = tx.query_all("SELECT kind, a, b, c, body FROM record", &[])?;
    let mut lines = tx.query_all("SELECT 5, a, b, c, body FROM line", &[])?;
    rows.append(&mut lines)?;
    Ok(rows)
}

// Makes the tables, moves the lines and reads all rows.
fn load_rows<S: Alter>(tx: &mut Transaction<'_, S>) -> Result<Vec<Row>, Error>
    ensures same_reference { tx.new.conn.ghost_name ≡ tx.old.conn.ghost_name }
    ensures made { HasCleanDisk (state S.Store tx.new.conn.now)
        → IsTrue (state S.Store tx.old.conn.now).in_transaction
        → OnOk result
        (Inside (state S.Store tx.old.conn.now) (state S.Store tx.new.conn.now)
        (Moved (state S.Store tx.old.conn.now).now)) }
    ensures read { HasCleanDisk (state S.Store tx.new.conn.now)
        → IsTrue (state S.Store tx.old.conn.now).in_transaction
        → (was : Store (state S.Store tx.old.conn.now).now)
        → IfOk result
        (λ rows.
        (it : Moves (state S.Store tx.old.conn.now).now (state S.Store tx.new.conn.now).now was)
        × IsReading (records_of it.store) (lines_of it.store) rows.items) }
    ensures undone { HasCleanDisk (state S.Store tx.new.conn.now)
        → IsTrue (state S.Store tx.old.conn.now).in_transaction
        → OnErr result
        (KeepsCommit (state S.Store tx.old.conn.now) (state S.Store tx.new.conn.now)) }
    ensures survives { Survives (state S.Store tx.old.conn.now) (state S.Store tx.new.conn.now)
        (λ _. ⊥) }
{
    make_tables(tx)?;
    move_lines(tx)?;
    read_rows(tx)
}

// Makes the tables, moves the lines and reads all records. `None`: a number is out of its range, or a key comes twice.
fn load_records<S: Alter>(
    tx: &mut Transaction<'_, S>,
    alloc: Global,
) -> Result<Option<Vec<(RecordKey, Bytes)>>, Error>
    ensures same_reference { tx.new.conn.ghost_name ≡ tx.old.conn.ghost_name }
    ensures made { HasCleanDisk (state S.Store tx.new.conn.now)
        → IsTrue (state S.Store tx.old.conn.now).in_transaction
        → OnOk result
        (Inside (state S.Store tx.old.conn.now) (state S.Store tx.new.conn.now)
        (Moved (state S.Store tx.old.conn.now).now)) }
    ensures rise { IfOk result (λ found. IfSome found (λ pairs. KeysRise pairs.items)) }
    ensures gave { HasCleanDisk (state S.Store tx.new.conn.now)
        → IsTrue (state S.Store tx.old.conn.now).in_transaction
        → Store (state S.Store tx.old.conn.now).now
        → IfOk result
        (λ found. IfSome found
        (λ pairs. Tells (state S.Store tx.old.conn.now).now (map_of pairs.items)
        × Keeps (state S.Store tx.new.conn.now).now (map_of pairs.items))) }
    ensures undone { HasCleanDisk (state S.Store tx.new.conn.now)
        → IsTrue (state S.Store tx.old.conn.now).in_transaction
        → OnErr result
        (KeepsCommit (state S.Store tx.old.conn.now) (state S.Store tx.new.conn.now)) }
    ensures survives { Survives (state S.Store tx.old.conn.now) (state S.Store tx.new.conn.now)
        (λ _. ⊥) }
{
    let rows = load_rows(tx)?;
    pairs_of(alloc, rows)
}

// All records of the store, of which each table is made where it is not there, and the lines are moved to theirs, in one
// transaction, which is committed only where there is an answer. `None`: the store cannot be read so.
pub fn load_pairs<S: Alter>(
    conn: &mut Connection<S>,
    alloc: Global,
) -> Result<Option<Vec<(RecordKey, Bytes)>>, Error>
    ensures rise { IfOk result (λ found. IfSome found (λ pairs. KeysRise pairs.items)) }
    ensures gave { HasCleanDisk (state S.Store conn.new) → Store (state S.Store conn.old).now
        → IfOk result
        (λ found. IfSome found
        (λ pairs. Tells (state S.Store conn.old).now (map_of pairs.items)
        × Keeps (state S.Store conn.new).now (map_of pairs.items))) }
    ensures settled { HasCleanDisk (state S.Store conn.new)
        → IfOk result
        (λ found. IfSome found
        (λ pairs. IsTrue (state S.Store conn.new).is_open
        × ((state S.Store conn.new).in_transaction ≡ false)
        × ((state S.Store conn.new).committed ≡ (state S.Store conn.new).now))) }
    ensures whole { IsTrue (state S.Store conn.old).is_open
        → (state S.Store conn.old).in_transaction ≡ false
        → (state S.Store conn.old).now ≡ (state S.Store conn.old).committed }
    ensures autocommit { (state S.Store conn.old).in_transaction ≡ false
        → (state S.Store conn.new).in_transaction ≡ false }
    ensures was_open { HasCleanDisk (state S.Store conn.new)
        → IsTrue (state S.Store conn.new).is_open → IsTrue (state S.Store conn.old).is_open }
    ensures none { HasCleanDisk (state S.Store conn.new) → IsTrue (state S.Store conn.new).is_open
        → IfOk result
        (λ found. found ≡ None
        → IsUndone (state S.Store conn.old) (state S.Store conn.new)) }
    ensures undone { HasCleanDisk (state S.Store conn.new) → IsTrue (state S.Store conn.new).is_open
        → OnErr result (IsUndone (state S.Store conn.old) (state S.Store conn.new)) }
    ensures unsaved { IfOk result
        (λ found. found ≡ None
        → Survives (state S.Store conn.old) (state S.Store conn.new) (λ _. ⊥)) }
    ensures kept { HasCleanDisk (state S.Store conn.new) → IsTrue (state S.Store conn.new).is_open
        → (ready : Bool) → (m : Map) → Finds (state S.Store conn.old).now ready m
        → Finds (state S.Store conn.new).now ready m }
    ensures crash { Survives (state S.Store conn.old) (state S.Store conn.new)
        (λ trees. (db : _) × (trees ≡ db.trees) × Moved (state S.Store conn.old).now db) }
{
    if !conn.is_autocommit() {
        return Ok(None);
    }
    let mut tx = conn.transaction();
    let Some(pairs) = load_records(&mut tx, alloc)? else {
        return Ok(None);
    };
    tx.commit()?;
    Ok(Some(pairs))
}
