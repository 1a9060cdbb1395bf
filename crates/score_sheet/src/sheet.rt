ghost use Rattle.std.specs.Prelude.{IfOk, IfErr, string_bytes};
ghost use Rattle.score_sheet.specs.Sheets.{Scores, ExplainsScore};

use crate::rows::{RowFault, records_of, rows_of};
use crate::scores::text_of;
use fpl_base::Profile;
use std::alloc::Global;

/// Why a match has no text of what it scores.
#[derive(Clone, Copy, Debug, PartialEq, Eq)]
pub enum SheetFault {
    /// The record of this number, from 1, is the first that is no row: it is to be mended.
    Row(usize),
    /// There was no memory; nothing is wrong with the bytes.
    Memory,
}

/// The text of what the rows of a finished match score by the rules of a profile: for each row a line of player, points
/// without bonus, number in the bonus points system, bonus and total. The bytes are comma-separated rows of player,
/// letter of his position and 28 figures, as docs/FORMATS.md has them under `score`.
pub fn score_sheet(alloc: Global, profile: Profile, bytes: &[u8]) -> Result<String, SheetFault>
    ensures text { IfOk result (λ text. Scores profile bytes.now (string_bytes text)) }
    ensures fault { IfErr result (ExplainsScore bytes.now) }
{
    let Ok(records) = records_of(alloc, bytes) else {
        return Err(SheetFault::Memory);
    };
    let rows = match rows_of(alloc, records.as_slice()) {
        Ok(rows) => rows,
        Err(RowFault::Wrong(place)) => return Err(SheetFault::Row(place)),
        Err(RowFault::Memory) => return Err(SheetFault::Memory),
    };
    match text_of(alloc, profile, rows.as_slice()) {
        Ok(text) => Ok(text),
        Err(_) => Err(SheetFault::Memory),
    }
}
