// The changes of a batch, in one transaction.
ghost use Rattle.std.specs.Prelude.{◌≡◌, true, false, IsTrue, IfOk, OnOk, OnErr};
ghost use Rattle.sqlite.specs.State.{HasCleanDisk, KeepsCommit, Survives};
ghost use Rattle.sqlite.specs.Held.{state};
ghost use Rattle.fpl_base.specs.declared.records.Op.TheVariants as op;
ghost use Rattle.fpl_base.specs.Keeping.{Map, applied_one, applied};
ghost use Rattle.season_keeper.specs.Holding.{Keeps, Inside};

use fpl_base::{Op, RecordKey};
use sqlite::{Alter, Connection, Error, Transaction, params};

// The kind of the records that stand in the table `line`.
const LINE: u8 = 5;

// Puts the body under the key, in the table of its kind.
fn put<S: Alter>(tx: &mut Transaction<'_, S>, key: &RecordKey, body: &[u8]) -> Result<usize, Error>
    ensures same_reference { tx.new.conn.ghost_name ≡ tx.old.conn.ghost_name }
    ensures made { HasCleanDisk (state S.Store tx.new.conn.now)
        → IsTrue (state S.Store tx.old.conn.now).in_transaction
        → OnOk result
        (Inside (state S.Store tx.old.conn.now) (state S.Store tx.new.conn.now)
        (λ db. (m : Map) → Keeps (state S.Store tx.old.conn.now).now m
        → Keeps db (applied_one m (op.Put key.now body.now)))) }
    ensures undone { HasCleanDisk (state S.Store tx.new.conn.now)
        → IsTrue (state S.Store tx.old.conn.now).in_transaction
        → OnErr result
        (KeepsCommit (state S.Store tx.old.conn.now) (state S.Store tx.new.conn.now)) }
    ensures survives { Survives (state S.Store tx.old.conn.now) (state S.Store tx.new.conn.now)
        (λ _. ⊥) }
{
    if key.kind == LINE {
        return tx.execute(
            "INSERT INTO line (a, b, c, body) VALUES (?1, ?2, ?3, ?4) ON CONFLICT (a, b, c) DO UPDATE SET body = excluded.body",
            params![key.a, key.b, key.c, body],
        );
    }
    tx.execute(
        "INSERT INTO record (kind, a, b, c, body) VALUES (?1, ?2, ?3, ?4, ?5) ON CONFLICT (kind, a, b, c) DO UPDATE SET body = excluded.body",
        params![u32::from(key.kind), key.a, key.b, key.c, body],
    )
}

// Deletes what stands under the key, in the table of its kind.
fn delete<S: Alter>(tx: &mut Transaction<'_, S>, key: &RecordKey) -> Result<usize, Error>
    ensures same_reference { tx.new.conn.ghost_name ≡ tx.old.conn.ghost_name }
    ensures made { HasCleanDisk (state S.Store tx.new.conn.now)
        → IsTrue (state S.Store tx.old.conn.now).in_transaction
        → OnOk result
        (Inside (state S.Store tx.old.conn.now) (state S.Store tx.new.conn.now)
        (λ db. (m : Map) → Keeps (state S.Store tx.old.conn.now).now m
        → Keeps db (applied_one m (op.Delete key.now)))) }
    ensures undone { HasCleanDisk (state S.Store tx.new.conn.now)
        → IsTrue (state S.Store tx.old.conn.now).in_transaction
        → OnErr result
        (KeepsCommit (state S.Store tx.old.conn.now) (state S.Store tx.new.conn.now)) }
    ensures survives { Survives (state S.Store tx.old.conn.now) (state S.Store tx.new.conn.now)
        (λ _. ⊥) }
{
    if key.kind == LINE {
        return tx.execute(
            "DELETE FROM line WHERE a = ?1 AND b = ?2 AND c = ?3",
            params![key.a, key.b, key.c],
        );
    }
    tx.execute(
        "DELETE FROM record WHERE kind = ?1 AND a = ?2 AND b = ?3 AND c = ?4",
        params![u32::from(key.kind), key.a, key.b, key.c],
    )
}

// Makes one change.
fn change<S: Alter>(tx: &mut Transaction<'_, S>, op: &Op) -> Result<usize, Error>
    ensures same_reference { tx.new.conn.ghost_name ≡ tx.old.conn.ghost_name }
    ensures made { HasCleanDisk (state S.Store tx.new.conn.now)
        → IsTrue (state S.Store tx.old.conn.now).in_transaction
        → OnOk result
        (Inside (state S.Store tx.old.conn.now) (state S.Store tx.new.conn.now)
        (λ db. (m : Map) → Keeps (state S.Store tx.old.conn.now).now m
        → Keeps db (applied_one m op.now))) }
    ensures undone { HasCleanDisk (state S.Store tx.new.conn.now)
        → IsTrue (state S.Store tx.old.conn.now).in_transaction
        → OnErr result
        (KeepsCommit (state S.Store tx.old.conn.now) (state S.Store tx.new.conn.now)) }
    ensures survives { Survives (state S.Store tx.old.conn.now) (state S.Store tx.new.conn.now)
        (λ _. ⊥) }
{
    match op {
        Op::Put(key, body) => put(tx, key, body.as_slice()),
        Op::Delete(key) => delete(tx, key),
    }
}

// Makes all changes or none. `false`: a transaction is open, and nothing was done.
pub fn apply<S: Alter>(conn: &mut Connection<S>, ops: &[Op]) -> Result<bool, Error>
    ensures applied { HasCleanDisk (state S.Store conn.new) → (m : Map)
        → Keeps (state S.Store conn.old).now m
        → IfOk result
        (λ done. IsTrue done → Keeps (state S.Store conn.new).now (applied m ops.now)) }
    ensures settled { HasCleanDisk (state S.Store conn.new)
        → IfOk result
        (λ done. IsTrue done
        → IsTrue (state S.Store conn.new).is_open
        × ((state S.Store conn.new).in_transaction ≡ false)
        × ((state S.Store conn.new).committed ≡ (state S.Store conn.new).now)) }
    ensures autocommit { (state S.Store conn.old).in_transaction ≡ false
        → (state S.Store conn.new).in_transaction ≡ false }
    ensures was_open { HasCleanDisk (state S.Store conn.new)
        → IsTrue (state S.Store conn.new).is_open → IsTrue (state S.Store conn.old).is_open }
    ensures none { IfOk result
        (λ done. done ≡ false
        → ((state S.Store conn.old).in_transaction ≡ true) × (conn.new ≡ conn.old)) }
    ensures undone { HasCleanDisk (state S.Store conn.new) → IsTrue (state S.Store conn.new).is_open
        → OnErr result
        (((state S.Store conn.new).now ≡ (state S.Store conn.old).now)
        × ((state S.Store conn.new).committed ≡ (state S.Store conn.old).committed)) }
    ensures crash { Survives (state S.Store conn.old) (state S.Store conn.new)
        (λ trees. (db : _) × (trees ≡ db.trees)
        × ((m : Map) → Keeps (state S.Store conn.old).now m → Keeps db (applied m ops.now))) }
{
    if !conn.is_autocommit() {
        return Ok(false);
    }
    let mut tx = conn.transaction();
    'each: for op in ops {
        change(&mut tx, op)?;
    }
    tx.commit()?;
    Ok(true)
}
