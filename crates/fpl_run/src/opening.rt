// What is told where the host could not be opened.
ghost use Rattle.std.specs.Prelude.{◌≡◌, ◌⊎◌, IfOk, string_bytes};
ghost use Rattle.fpl_base.specs.Causes.{Rose};
ghost use Rattle.season_opening.specs.declared.loading.OpenFault.TheVariants as fault_of;
ghost use Rattle.fpl_run.specs.Keeping.{TellsFault, damaged_text};

use fpl_base::{RecordKey, Sink};
use local_requests::print;
use local_requests::status::{DAMAGED, KEEPER, MEMORY};
use season_opening::OpenFault;
use std::alloc::{AllocError, Global};

/// Tells why the host could not be opened, and answers the exit status.
pub fn unopened<W: Sink>(alloc: Global, fault: OpenFault, output: &mut W) -> u8
    ensures told { TellsFault fault result (W.taken output.old) (W.taken output.new) }
    ensures statuses { (result ≡ 3) ⊎ (result ≡ 4) ⊎ (result ≡ 5) ⊎ (result ≡ 6) }
    ensures keeper { result ≡ 4 → fault ≡ fault_of.Keeper }
    ensures write { result ≡ 3 → Rose (W.faults output.old) (W.faults output.new) }
{
    match fault {
        OpenFault::Keeper => KEEPER,
        OpenFault::Memory => MEMORY,
        OpenFault::Damaged(key) => match damaged_line(alloc, &key) {
            Ok(text) => print(output, text.as_bytes(), DAMAGED),
            Err(AllocError) => MEMORY,
        },
    }
}

fn damaged_line(alloc: Global, key: &RecordKey) -> Result<String, AllocError>
    ensures { IfOk result (λ text. string_bytes text ≡ damaged_text key.now) }
{
    format!(in alloc; "damaged {} {} {} {}\n", key.kind, key.a, key.b, key.c)
}
