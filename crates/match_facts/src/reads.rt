ghost use Rattle.std.specs.Prelude.{◌≡◌, ◌+◌};

use fpl_base::ReadCount;
use std::sync::ledger::Ledger;

/// Counts so many reads.
pub fn count_reads<L: Ledger>(count: usize, steps: &mut ReadCount<L>)
    ensures { steps.new ≡ steps.old + count }
{
    'reads: for _ in 0..count {
        steps.tick();
    }
}
