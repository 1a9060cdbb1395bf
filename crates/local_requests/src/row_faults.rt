// Rows of an input that are not done, and the exit status.
ghost use Rattle.std.specs.Prelude.{◌≡◌, ◌⊎◌, IfOk, string_bytes};
ghost use Rattle.fpl_base.specs.Causes.{Rose};
ghost use Rattle.local_requests.specs.Printing.{PrintsOne};
ghost use Rattle.local_requests.specs.RowFaults.{TellsRowFault, refused_text, row_text};

use crate::printing::print;
use crate::status::{MEMORY, REFUSED_ROW, WRONG_ROW};
use fpl_base::Sink;
use fpl_reports::RowFault;
use std::alloc::{AllocError, Global};

/// Tells why there are no rows, and answers the exit status.
pub fn unread_rows<W: Sink>(alloc: Global, fault: RowFault, output: &mut W) -> u8
    ensures told { TellsRowFault fault result (W.taken output.old) (W.taken output.new) }
    ensures statuses { (result ≡ 3) ⊎ (result ≡ 6) ⊎ (result ≡ 11) }
    ensures write { result ≡ 3 → Rose (W.faults output.old) (W.faults output.new) }
{
    match fault {
        RowFault::Wrong(row) => match row_line(alloc, row as usize) {
            Ok(text) => print(output, text.as_bytes(), WRONG_ROW),
            Err(AllocError) => MEMORY,
        },
        RowFault::Memory => MEMORY,
    }
}

/// The line that names a wrong row, from 1.
pub fn row_line(alloc: Global, row: usize) -> Result<String, AllocError>
    ensures { IfOk result (λ text. string_bytes text ≡ row_text row) }
{
    format!(in alloc; "row {}\n", row)
}

/// Names a row, from 1, that a rule refuses, and the number of the rule, and answers the exit status.
pub fn refused_row<W: Sink>(alloc: Global, row: usize, rule: u8, output: &mut W) -> u8
    ensures told { PrintsOne (λ text. text ≡ refused_text row rule) 14 result (W.taken output.old)
        (W.taken output.new) }
    ensures statuses { (result ≡ 3) ⊎ (result ≡ 6) ⊎ (result ≡ 14) }
    ensures write { result ≡ 3 → Rose (W.faults output.old) (W.faults output.new) }
{
    match refused_line(alloc, row, rule) {
        Ok(text) => print(output, text.as_bytes(), REFUSED_ROW),
        Err(AllocError) => MEMORY,
    }
}

fn refused_line(alloc: Global, row: usize, rule: u8) -> Result<String, AllocError>
    ensures { IfOk result (λ text. string_bytes text ≡ refused_text row rule) }
{
    format!(in alloc; "row {} rule {}\n", row, rule)
}
