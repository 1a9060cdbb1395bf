// What is written, and the exit status.
ghost use Rattle.std.specs.Prelude.{◌≡◌, ◌⊎◌, IfOk, string_bytes};
ghost use Rattle.fpl_base.specs.Causes.{Rose};
ghost use Rattle.local_requests.specs.Printing.{PrintsOne};
ghost use Rattle.fpl_events.specs.Telling.{sent_text};

use fpl_base::Sink;
use local_requests::print;
use local_requests::status::{DONE, MEMORY};
use std::alloc::{AllocError, Global};

// Writes how many commands were sent.
pub(crate) fn tell<W: Sink>(alloc: Global, sent: u64, output: &mut W) -> u8
    ensures told { PrintsOne (λ text. text ≡ sent_text sent) 0 result (W.taken output.old)
        (W.taken output.new) }
    ensures statuses { (result ≡ 0) ⊎ (result ≡ 3) ⊎ (result ≡ 6) }
    ensures write { result ≡ 3 → Rose (W.faults output.old) (W.faults output.new) }
{
    match sent_line(alloc, sent) {
        Ok(text) => print(output, text.as_bytes(), DONE),
        Err(AllocError) => MEMORY,
    }
}

fn sent_line(alloc: Global, sent: u64) -> Result<String, AllocError>
    ensures { IfOk result (λ text. string_bytes text ≡ sent_text sent) }
{
    format!(in alloc; "sent {}\n", sent)
}
