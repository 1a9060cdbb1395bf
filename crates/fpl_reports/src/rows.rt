// Rows of any kind, from the bytes of a file.
ghost use Rattle.std.specs.Prelude.{List, ℕ, IfOk, IfErr};
ghost use Rattle.csv.specs.Records.{fields_of};
ghost use Rattle.fpl_reports.specs.Rows.{ExplainsRows, Finds, HasRows};

use csv::{ByteRecord, ReaderBuilder};
use fpl_base::Memory;
use std::alloc::Global;

// What a record of a file may be.
pub(crate) trait Row: Sized + Drop {
    /// The fields spell this row, and it may follow these rows.
    ghost adds: { List Self → List (List ℕ) → Self → Type 0 };

    /// The row that a record spells behind these rows; `Ok(None)` exactly where it spells none.
    fn read(alloc: Global, before: &[Self], read: &ByteRecord) -> Result<Option<Self>, Memory>
        ensures { IfOk result (Finds (adds before.now (fields_of read.now))) };
}

/// Why there are no rows.
#[derive(Clone, Copy, Debug, PartialEq, Eq)]
pub enum RowFault {
    /// The record of this number, from 1, is the first that is no row. Blank lines are not counted.
    Wrong(u32),
    /// There was no memory, as for 2^32 rows.
    Memory,
}

// The rows of the bytes, record by record.
pub(crate) fn rows_of<R: Row>(alloc: Global, bytes: &[u8]) -> Result<Vec<R>, RowFault>
    ensures rows { IfOk result (λ rows. HasRows R.adds bytes.now rows.items) }
    ensures fault { IfErr result (ExplainsRows R.adds bytes.now) }
{
    let reader = ReaderBuilder::new()
        .has_headers(false)
        .flexible(true)
        .from_reader(alloc, bytes);
    let mut rows: Vec<R> = Vec::new(alloc);
    let mut number = 1u32;
    for next in reader.into_byte_records() {
        let Ok(found) = next else {
            return Err(RowFault::Memory);
        };
        match R::read(alloc, rows.as_slice(), &found) {
            Ok(Some(row)) => {
                if rows.push(row).is_err() {
                    return Err(RowFault::Memory);
                }
            }
            Ok(None) => return Err(RowFault::Wrong(number)),
            Err(_) => return Err(RowFault::Memory),
        }
        let Some(following) = number.checked_add(1) else {
            return Err(RowFault::Memory);
        };
        number = following;
    }
    Ok(rows)
}
