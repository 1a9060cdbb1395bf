// What follows from the definitions alone.
ghost use Rattle.std.specs.Prelude.{ℕ, List};
ghost use Rattle.rule_book.specs.History.{Event};
ghost use Rattle.rule_book.specs.FigureRange.{FiguresAreInRange};
ghost use Rattle.rule_book.specs.ScoreRange.{TeamFiguresAreInRange};
ghost use Rattle.rule_book.specs.ScoresAgree.{RoundsAgree, RowsOfLeaguesAgree, ScoresAgree, TotalsAgree, WinnersAgree};
ghost use Rattle.rule_book.specs.Tables.{ClassicTableIsTheOne, HeadTableIsTheOne};
ghost use Rattle.rule_book.specs.TeamOfHistory.{FirstIsTheStart, FreeIsTold, TeamIsTheOne, TeamsAreTold};
ghost use Rattle.rule_book.specs.UpTo.{AgreeUpTo};
ghost use Rattle.rule_book.specs.UpToLaws.{LaterEventsAgree, OpenDeedsAgree, UpToTellsAll, UpToTellsTheFirst};

/// A law: a team is that of a history in a gameweek exactly where what counts there can be paid, and it is `team_of`.
pub fn team_is_the_one()
    ensures { TeamIsTheOne }
{}

/// A law: what a history says of a team, of its first gameweek and of its free transfers are values.
pub fn told_values()
    ensures team { TeamsAreTold }
    ensures first { FirstIsTheStart }
    ensures free { FreeIsTold }
{}

/// A law: what a history tells of a gameweek hangs on its events of gameweeks up to that one, and on its start.
pub fn up_to_tells_all()
    ensures { (k : ℕ) (h h2 : List Event) → AgreeUpTo k h h2 → UpToTellsAll k h h2 }
{}

/// A law: where a history in order has begun, its start is told too.
pub fn up_to_tells_the_first()
    ensures { UpToTellsTheFirst }
{}

/// A law: later events change nothing of what was.
pub fn later_events_agree()
    ensures { (k : ℕ) (h more : List Event) → LaterEventsAgree k h more }
{}

/// A law: deeds of a later gameweek change nothing of what was.
pub fn open_deeds_agree()
    ensures { OpenDeedsAgree }
{}

/// A law: of rows whose entries differ, the table of a league is `classic_table_of` or `head_table_of`, and no other.
pub fn tables_are_the_one()
    ensures classic { ClassicTableIsTheOne }
    ensures head { HeadTableIsTheOne }
{}

/// A law: histories that agree up to a gameweek and start alike score the same up to it.
pub fn scores_agree()
    ensures { ScoresAgree }
{}

/// A law: totals and the rows of leagues hang on the points of the locked gameweeks alone.
pub fn totals_and_rows_agree()
    ensures totals { TotalsAgree }
    ensures rows { RowsOfLeaguesAgree }
{}

/// A law: the winners of locked rounds, and what is shown of any round, hang on the sides of locked gameweeks alone.
pub fn winners_agree()
    ensures winners { WinnersAgree }
    ensures rounds { RoundsAgree }
{}

/// A law: where the lines of the facts are in range and at most twenty fixtures stand in a gameweek, a player has at most
/// 40,000 points in it, above or below 0, and at most 1,980 goals of either kind; so has each player of a team.
pub fn figures_are_in_range()
    ensures player { FiguresAreInRange }
    ensures team { TeamFiguresAreInRange }
{}
