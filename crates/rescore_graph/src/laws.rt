ghost use Rattle.std.specs.Prelude.{◌≡◌, Option, Some};
ghost use Rattle.rescore_graph.specs.Graph.{replay};

use crate::rules::Rules;

/// The replay value of a live node is its own function of the replay values.
pub fn replay_is_own<R: Rules>(rules: &R)
    requires { R.in_order rules.now }
    ensures { (n : R.Node) → (R.graph rules.now).live n
        → replay (R.graph rules.now) n
        ≡ Some ((R.graph rules.now).own n (replay (R.graph rules.now))) }
{}

/// No other values are each live node's own function of themselves.
pub fn replay_is_one<R: Rules>(rules: &R)
    requires { R.in_order rules.now }
    ensures { (f : R.Node → Option R.Value)
        → ((n : R.Node) → (R.graph rules.now).live n → f n ≡ Some ((R.graph rules.now).own n f))
        → (n : R.Node) → (R.graph rules.now).live n → f n ≡ replay (R.graph rules.now) n }
{}
