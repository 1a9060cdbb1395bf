ghost use Rattle.fpl_requests.specs.Targets.{OneFound};

/// A law on the definitions: a method and a target ask for one thing. No target has the shapes of two patterns, and
/// no segment spells two ids.
pub fn targets_ask_one_thing()
    ensures { OneFound }
{}
