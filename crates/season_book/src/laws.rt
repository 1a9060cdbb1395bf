ghost use Rattle.season_book.specs.Once.{CommandsActOnce};

/// A law on the definitions: in every run of requests each one acts or rests, and the numbers of each caller's
/// commands that acted rise by one from his last number before the run. So no command acts twice.
pub fn commands_act_once()
    ensures { CommandsActOnce }
{}
