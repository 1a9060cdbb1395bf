// What is told where a folder gives no commands.
ghost use Rattle.std.specs.Prelude.{◌≡◌, ◌⊎◌, IfOk, string_bytes};
ghost use Rattle.fpl_base.specs.Causes.{Rose};
ghost use Rattle.fpl_loading.specs.Faults.{TellsLoadFault, row_text};
ghost use Rattle.fpl_loading.specs.Files.{IsShelfFault};

use crate::files::{LoadFault, file_name};
use fpl_base::Sink;
use local_requests::print;
use local_requests::status::{MEMORY, SHELF, TOO_LONG, WRONG_ROW};
use std::alloc::{AllocError, Global};

/// Tells why a folder gives no commands, and answers the exit status.
pub fn unloaded<W: Sink>(alloc: Global, fault: LoadFault, output: &mut W) -> u8
    ensures told { TellsLoadFault fault result (W.taken output.old) (W.taken output.new) }
    ensures statuses { (result ≡ 3) ⊎ (result ≡ 6) ⊎ (result ≡ 9) ⊎ (result ≡ 10) ⊎ (result ≡ 11) }
    ensures shelf { result ≡ 9 → IsShelfFault fault }
    ensures write { result ≡ 3 → Rose (W.faults output.old) (W.faults output.new) }
{
    match fault {
        LoadFault::Shelf { .. } => SHELF,
        LoadFault::Long { .. } => TOO_LONG,
        LoadFault::Row { file, row } => match row_line(alloc, file, u64::from(row)) {
            Ok(text) => print(output, text.as_bytes(), WRONG_ROW),
            Err(AllocError) => MEMORY,
        },
        LoadFault::Memory => MEMORY,
    }
}

// The line that names a row.
pub(crate) fn row_line(alloc: Global, file: u8, row: u64) -> Result<String, AllocError>
    ensures { IfOk result (λ text. string_bytes text ≡ row_text file row) }
{
    format!(in alloc; "{} row {}\n", file_name(file), row)
}
