// The rows, from the bytes.
ghost use Rattle.std.specs.Prelude.{IfErr, IfOk};
ghost use Rattle.csv.specs.Records.{fields_of};
ghost use Rattle.fpl_drafting.specs.Rows.{AreRowsOf, ExplainsRows, HasDraftRows};

use crate::row::{DraftRow, row_of};
use csv::ReaderBuilder;
use fpl_reports::RowFault;
use std::alloc::Global;

/// The rows of a league of so many members, from the bytes: `pick,PLAYER`, `bid,GAMEWEEK,MEMBER,INTO,OUT` and
/// `waive,GAMEWEEK`, as docs/FORMATS.md has them under `draft`.
pub fn draft_rows(alloc: Global, bytes: &[u8], members: u8) -> Result<Vec<DraftRow>, RowFault>
    ensures rows { IfOk result (λ rows. HasDraftRows members bytes.now rows.items) }
    ensures own { IfOk result (λ rows. AreRowsOf members rows.items) }
    ensures fault { IfErr result (ExplainsRows members bytes.now) }
{
    let reader = ReaderBuilder::new()
        .has_headers(false)
        .flexible(true)
        .from_reader(alloc, bytes);
    let mut rows: Vec<DraftRow> = Vec::new(alloc);
    let mut number = 1u32;
    for next in reader.into_byte_records() {
        let Ok(found) = next else {
            return Err(RowFault::Memory);
        };
        let Some(row) = row_of(&found, members) else {
            return Err(RowFault::Wrong(number));
        };
        if rows.extend_from_slice(&[row]).is_err() {
            return Err(RowFault::Memory);
        }
        let Some(following) = number.checked_add(1) else {
            return Err(RowFault::Memory);
        };
        number = following;
    }
    Ok(rows)
}
