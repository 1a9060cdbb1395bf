ghost use Rattle.std.specs.Prelude.{◌<◌, ◌≤◌, ◌⊎◌};
ghost use Rattle.rescore_graph.specs.Graph.{Among};

use crate::rules::Rules;
use std::hash::Hash;

// Above every level.
pub(crate) const LEVELS: u16 = 256;

// The least level from this one on that a node of the list has, and `LEVELS` where none has one.
pub(crate) fn level_from<N: Copy + Ord + Hash, V: Drop, R: Rules<Node = N, Value = V>>(
    rules: &R,
    work: &[N],
    from: u16,
) -> u16
    requires order { R.in_order rules.now }
    requires from { from ≤ 256 }
    ensures above { from ≤ result }
    ensures most { result ≤ 256 }
    ensures least { (n : N) → Among work.now n → (R.graph rules.now).live n
        → ((R.graph rules.now).level n < from)
        ⊎ ((result ≤ (R.graph rules.now).level n) × ((R.graph rules.now).level n < 256)) }
{
    let mut least = LEVELS;
    for n in work {
        let level = u16::from(rules.level(*n));
        if from <= level && level < least {
            least = level;
        }
    }
    least
}
