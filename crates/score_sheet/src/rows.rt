// The rows of a match, from the bytes.
ghost use Rattle.std.specs.Prelude.{◌≡◌, All, IfOk, IfErr, IfSome, MatchOption, map, ◌==◌};
ghost use Rattle.std.specs.List.{list_any};
ghost use Rattle.csv.specs.Records.{fields_of};
ghost use Rattle.rule_book.specs.Figures.{IsLine};
ghost use Rattle.rule_book.specs.declared.line.Appearance.{Appearance};
ghost use Rattle.score_sheet.specs.Rows.{Adds, AreRows, ExplainsRows};
ghost use Rattle.score_sheet.specs.Sheets.{ReadAs};

use crate::row::row_of;
use csv::{ByteRecord, Error, ReaderBuilder};
use fpl_base::Memory;
use rule_book::Appearance;
use std::alloc::Global;

/// A match has at most so many rows.
const MAX_ROWS: usize = 64;

/// Why there are no rows.
#[derive(Clone, Copy, Debug)]
pub(crate) enum RowFault {
    /// The record of this number, from 1, is the first that is no row.
    Wrong(usize),
    Memory,
}

// Every record of the bytes.
pub(crate) fn records_of(alloc: Global, bytes: &[u8]) -> Result<Vec<ByteRecord>, Memory>
    ensures { IfOk result (λ records. ReadAs bytes.now (map fields_of records.items)) }
{
    match all_records(alloc, bytes) {
        Ok(records) => Ok(records),
        Err(_) => Err(Memory),
    }
}

// A slice never fails, and rows may have any length, so the only error is want of memory.
fn all_records(alloc: Global, bytes: &[u8]) -> Result<Vec<ByteRecord>, Error>
    ensures { IfOk result (λ records. ReadAs bytes.now (map fields_of records.items)) }
{
    let reader = ReaderBuilder::new()
        .has_headers(false)
        .flexible(true)
        .from_reader(alloc, bytes);
    let mut records = Vec::new(alloc);
    for row in reader.into_byte_records() {
        if records.push(row?).is_err() {
            return Err(Error::out_of_memory());
        }
    }
    Ok(records)
}

// The rows that the records spell.
pub(crate) fn rows_of(alloc: Global, records: &[ByteRecord]) -> Result<Vec<Appearance>, RowFault>
    ensures rows { IfOk result (λ rows. AreRows (map fields_of records.now) rows.items) }
    ensures in_range { IfOk result
        (λ rows. All (λ (row : Appearance). IsLine row.line) rows.items) }
    ensures fault { IfErr result (ExplainsRows (map fields_of records.now)) }
{
    let mut rows = Vec::new(alloc);
    for read in records {
        let Some(row) = next_row(rows.as_slice(), read) else {
            return Err(RowFault::Wrong(rows.len() + 1));
        };
        if rows.push(row).is_err() {
            return Err(RowFault::Memory);
        }
    }
    Ok(rows)
}

// The row that a record spells, where it may follow these.
fn next_row(rows: &[Appearance], read: &ByteRecord) -> Option<Appearance>
    ensures row { MatchOption result
        ((row : Appearance) → Adds rows.now (fields_of read.now) row → ⊥)
        (λ row. Adds rows.now (fields_of read.now) row) }
    ensures in_range { IfSome result (λ row. IsLine row.line) }
{
    let row = row_of(read)?;
    if rows.len() >= MAX_ROWS || has_player(rows, &row) {
        return None;
    }
    Some(row)
}

fn has_player(rows: &[Appearance], row: &Appearance) -> bool
    ensures { result ≡ list_any (λ earlier. earlier.player == row.now.player) rows.now }
{
    rows.iter().any(|earlier| earlier.player == row.player)
}
