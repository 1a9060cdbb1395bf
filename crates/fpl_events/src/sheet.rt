// The rows, from the bytes.
ghost use Rattle.std.specs.Prelude.{◌≡◌, ◌<◌, ◌≤◌, ◌^◌, IfErr, IfOk, length};
ghost use Rattle.csv.specs.Records.{fields_of};
ghost use Rattle.fpl_events.specs.Rows.{AreDoable, ExplainsRows, HasEventRows, events_after};

use crate::row::{EventRow, row_of};
use csv::ReaderBuilder;
use fpl_reports::RowFault;
use std::alloc::Global;

/// The rows of a match of so many minutes, from the bytes: `insert,PLACE,MINUTE,KIND,SIDE,PLAYER,OTHER`, `remove,PLACE` and
/// `send`, as docs/FORMATS.md has them under `events`. A place is judged by how many events the rows before it leave.
pub fn event_rows(alloc: Global, bytes: &[u8], minutes: u8) -> Result<Vec<EventRow>, RowFault>
    ensures rows { IfOk result (λ rows. HasEventRows minutes bytes.now rows.items) }
    ensures doable { IfOk result (λ rows. AreDoable minutes 0 rows.items) }
    ensures few { IfOk result (λ rows. length rows.items < 2 ^ 32) }
    ensures fault { IfErr result (ExplainsRows minutes bytes.now) }
{
    let reader = ReaderBuilder::new()
        .has_headers(false)
        .flexible(true)
        .from_reader(alloc, bytes);
    let mut rows: Vec<EventRow> = Vec::new(alloc);
    let mut number = 1u32;
    let mut count = 0usize;
    for next in reader.into_byte_records() {
        let Ok(found) = next else {
            return Err(RowFault::Memory);
        };
        let Some(row) = row_of(&found, minutes, count) else {
            return Err(RowFault::Wrong(number));
        };
        if rows.extend_from_slice(&[row]).is_err() {
            return Err(RowFault::Memory);
        }
        let Some(following) = number.checked_add(1) else {
            return Err(RowFault::Memory);
        };
        number = following;
        count = events_after(count, &row);
    }
    Ok(rows)
}

// How many events stand behind a row.
fn events_after(count: usize, row: &EventRow) -> usize
    requires { count < 2 ^ 32 }
    ensures { result ≡ events_after count row.now }
{
    match row {
        EventRow::Insert { .. } => count + 1,
        EventRow::Remove { .. } => count.saturating_sub(1),
        EventRow::Send => count,
    }
}
