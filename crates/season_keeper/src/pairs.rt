// Rows of the table as records.
ghost use Rattle.std.specs.Prelude.{◌≡◌, true, All, IfOk, IfSome, IsPermutation, IsTrue};
ghost use Rattle.fpl_base.specs.Keeping.{KeysRise, precedes};
ghost use Rattle.season_keeper.specs.Rows.{Shows, ShowAll, ShowEach};

use fpl_base::{Bytes, RecordKey};
use sqlite::{Error, Row};
use std::alloc::{AllocError, Global};

// The record that the row shows, or none where a number is out of its range.
fn pair_of(row: &Row) -> Result<Option<(RecordKey, Bytes)>, Error>
    ensures { IfOk result (λ found. IfSome found (λ pair. Shows row.now pair)) }
{
    let wide: u32 = row.get(0)?;
    let Ok(kind) = u8::try_from(wide) else {
        return Ok(None);
    };
    let a: u32 = row.get(1)?;
    let b: u32 = row.get(2)?;
    let c: u32 = row.get(3)?;
    let body: Vec<u8> = row.get(4)?;
    Ok(Some((RecordKey { kind, a, b, c }, Bytes::from_vec(body))))
}

// Whether the keys of the pairs all stand before the key.
fn goes_behind(pairs: &[(RecordKey, Bytes)], key: RecordKey) -> bool
    requires rise { KeysRise pairs.now }
    ensures { IsTrue result → All (λ pair. precedes pair.0 key ≡ true) pairs.now }
{
    match pairs.last() {
        Some(last) => last.0.precedes(&key),
        None => true,
    }
}

// Whether each key stands behind the one before it.
fn do_rise(pairs: &[(RecordKey, Bytes)]) -> bool
    ensures { IsTrue result → KeysRise pairs.now }
{
    'pairs: for (place, pair) in pairs.iter().enumerate() {
        if !goes_behind(&pairs[..place], pair.0) {
            return false;
        }
    }
    true
}

// The records that the rows show, in turn, or none where a number is out of its range. Each row goes once it is read, so
// that its memory serves the records of those behind it.
fn shown_by(alloc: Global, rows: Vec<Row>) -> Result<Option<Vec<(RecordKey, Bytes)>>, Error>
    ensures { IfOk result (λ found. IfSome found (λ pairs. ShowEach rows.items pairs.items)) }
{
    let mut all = Vec::with_capacity(alloc, rows.len())?;
    'rows: for row in rows {
        let Some(one) = pair_of(&row)? else {
            return Ok(None);
        };
        all.push(one)?;
    }
    Ok(Some(all))
}

// Sorts the pairs by their keys: first by kind, since the records of a kind were mostly put in the order of their keys, and
// what stands in order costs a sort little.
fn sort(pairs: &mut Vec<(RecordKey, Bytes)>) -> Result<(), AllocError>
    ensures { IsPermutation pairs.old.items pairs.new.items }
{
    pairs.sort_by_key(|pair| pair.0.kind)?;
    pairs.sort_by_key(|pair| pair.0)
}

// The records that the rows show, in the order of their keys, or none where a number is out of its range, or a key
// comes twice.
pub fn pairs_of(alloc: Global, rows: Vec<Row>) -> Result<Option<Vec<(RecordKey, Bytes)>>, Error>
    ensures shown { IfOk result (λ found. IfSome found (λ pairs. ShowAll rows.items pairs.items)) }
    ensures rise { IfOk result (λ found. IfSome found (λ pairs. KeysRise pairs.items)) }
{
    let Some(mut all) = shown_by(alloc, rows)? else {
        return Ok(None);
    };
    sort(&mut all)?;
    if do_rise(&all) {
        Ok(Some(all))
    } else {
        Ok(None)
    }
}
