// What is written of a league, and the exit status.
ghost use Rattle.std.specs.Prelude.{◌≡◌, ◌≤◌, ◌⊎◌};
ghost use Rattle.fpl_base.specs.Causes.{Rose};
ghost use Rattle.fpl_drafting.specs.Texts.{outcomes_text, picks_text};
ghost use Rattle.local_requests.specs.Printing.{Prints, PrintsOne};

use crate::texts::{outcomes_text, picks_text};
use draft_league::Outcome;
use fpl_base::{Memory, Sink};
use local_requests::print;
use local_requests::status::{DONE, MEMORY, WRITE_FAULT};
use std::alloc::Global;

// Writes a line for each outcome.
pub(crate) fn tell_outcomes<W: Sink>(alloc: Global, outcomes: &[Outcome], output: &mut W) -> u8
    ensures told { PrintsOne (λ text. text ≡ outcomes_text outcomes.now) 0 result
        (W.taken output.old) (W.taken output.new) }
    ensures statuses { (result ≡ 0) ⊎ (result ≡ 3) ⊎ (result ≡ 6) }
    ensures write { result ≡ 3 → Rose (W.faults output.old) (W.faults output.new) }
    ensures later { W.faults output.old ≤ W.faults output.new }
{
    match outcomes_text(alloc, outcomes) {
        Ok(text) => write(output, text.as_bytes()),
        Err(Memory) => MEMORY,
    }
}

// Writes a text, behind which more may come.
fn write<W: Sink>(output: &mut W, text: &[u8]) -> u8
    ensures printed { Prints text.now 0 result (W.taken output.old) (W.taken output.new) }
    ensures statuses { (result ≡ 0) ⊎ (result ≡ 3) }
    ensures write { result ≡ 3 → Rose (W.faults output.old) (W.faults output.new) }
    ensures later { W.faults output.old ≤ W.faults output.new }
{
    match output.write(text) {
        Ok(()) => DONE,
        Err(_) => WRITE_FAULT,
    }
}

// Writes how many picks were made.
pub(crate) fn tell_picks<W: Sink>(alloc: Global, picks: u32, output: &mut W) -> u8
    ensures told { PrintsOne (λ text. text ≡ picks_text picks) 0 result (W.taken output.old)
        (W.taken output.new) }
    ensures statuses { (result ≡ 0) ⊎ (result ≡ 3) ⊎ (result ≡ 6) }
    ensures write { result ≡ 3 → Rose (W.faults output.old) (W.faults output.new) }
{
    match picks_text(alloc, picks) {
        Ok(text) => print(output, text.as_bytes(), DONE),
        Err(Memory) => MEMORY,
    }
}
