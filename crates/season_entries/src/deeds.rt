// What a manager's command changes.
ghost use Rattle.std.specs.Prelude.{◌≤◌, ◌≡◌, length, OnOk, OnErr};
ghost use Rattle.rule_book.specs.Calendar.{next_gameweek};
ghost use Rattle.manager_book.specs.Managers.{IsSameBut, season_of};
ghost use Rattle.season_book.specs.declared.command.Command.{Command};
ghost use Rattle.season_entries.specs.Deeds.{AreInTime, IsDeedJudged, StandForBooksAfter};
ghost use Rattle.season_entries.specs.Earlier.{RowsStayBefore};

use fpl_base::{EntryId, Memory};
use manager_book::{JudgedDeed, ManagerBook};
use season_facts::Season;

/// Keeps what `judge_deed` worked out of a command of entry `e`'s manager; unchanged where memory is wanting. The managers
/// then stand for each book for which they stood, with his history behind the command. His rows of the gameweeks before
/// the next one stay.
pub fn do_deed(
    season: &Season,
    managers: &mut ManagerBook,
    e: EntryId,
    deed: &JudgedDeed,
) -> Result<(), Memory>
    requires issued { e ≤ length managers.old.managers }
    requires judged { (command : Command)
        × IsDeedJudged season.now (season_of managers.old e) command deed.now }
    requires later { AreInTime (next_gameweek season.now.calendar) managers.old.managers }
    ensures later { AreInTime (next_gameweek season.now.calendar) managers.new.managers }
    ensures others { IsSameBut e managers.old managers.new }
    ensures earlier { RowsStayBefore
        (next_gameweek season.now.calendar) e managers.old managers.new }
    ensures books { (command : Command)
        → IsDeedJudged season.now (season_of managers.old e) command deed.now
        → OnOk result
        (StandForBooksAfter season.now e command managers.old.managers managers.new.managers) }
    ensures err { OnErr result (managers.new ≡ managers.old) }
{
    // An entry has a number from 1 on, and that the ids of a season's players differ, for the prover.
    let _number = e.get();
    let _count = season.players().len();
    managers.keep(e, deed)
}
