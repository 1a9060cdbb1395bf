// Records in the order of their keys.
ghost use Rattle.std.specs.Prelude.{◌≡◌, ◌≤◌, ◌<◌, ◌+◌, IsTrue, false, length, vec_len, vec_capacity};
ghost use Rattle.std.specs.List.{HoldsAt};
ghost use Rattle.fpl_base.specs.Keeping.{KeysRise, applied_one, is_same_key, map_of, precedes};
ghost use Rattle.fpl_base.specs.Rows.{IsPlace};
ghost use Rattle.fpl_base.specs.declared.records.Op.TheVariants as op;

use fpl_base::{Bytes, RecordKey};

// Where the record of this key stands, or would stand.
fn place_of(rows: &[(RecordKey, Bytes)], key: RecordKey) -> usize
    requires rise { KeysRise rows.now }
    ensures { IsPlace rows.now key result }
{
    rows.partition_point(|row| row.0.precedes(&key))
}

// Whether the record of this key stands at the place.
fn stands_at(rows: &[(RecordKey, Bytes)], at: usize, key: RecordKey) -> bool
    ensures there { IsTrue result
        → (at < length rows.now) × HoldsAt (λ row. row.0 ≡ key) rows.now at }
    ensures away { result ≡ false → at < length rows.now
        → HoldsAt (λ row. is_same_key row.0 key ≡ false) rows.now at }
{
    at < rows.len() && rows[at].0 == key
}

// Puts a record in place of the one of its key.
pub fn put(rows: &mut Vec<(RecordKey, Bytes)>, key: RecordKey, body: Bytes)
    requires rise { KeysRise rows.old.items }
    requires room { vec_len rows.old < vec_capacity rows.old }
    ensures map { map_of rows.new.items ≡ applied_one (map_of rows.old.items) (op.Put key body) }
    ensures rise { KeysRise rows.new.items }
    ensures room { (vec_capacity rows.new ≡ vec_capacity rows.old)
        × (vec_len rows.new ≤ vec_len rows.old + 1) }
{
    let at = place_of(rows, key);
    if stands_at(rows, at, key) {
        rows[at] = (key, body);
    } else {
        let _ = rows.insert(at, (key, body));
    }
}

// Removes the record of this key, if there is one.
pub fn delete(rows: &mut Vec<(RecordKey, Bytes)>, key: RecordKey)
    requires rise { KeysRise rows.old.items }
    ensures map { map_of rows.new.items ≡ applied_one (map_of rows.old.items) (op.Delete key) }
    ensures rise { KeysRise rows.new.items }
    ensures room { (vec_capacity rows.new ≡ vec_capacity rows.old)
        × (vec_len rows.new ≤ vec_len rows.old) }
{
    let at = place_of(rows, key);
    if stands_at(rows, at, key) {
        drop(rows.remove(at));
    }
}
