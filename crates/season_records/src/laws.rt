ghost use Rattle.season_records.specs.Commits.{CommitsHoldOne, RequestsCommit};
ghost use Rattle.season_records.specs.Keeping.{CommandsKeepRecords, LocksKeepRecords, NoLockLeavesBook};
ghost use Rattle.season_records.specs.Keeping.{EmptyIsEarly, MomentsAreEarly, RunsAreEarly, VerdictsAreEarly};
ghost use Rattle.season_records.specs.Keeping.{RestsKeepRecords, VerdictsKeepRecords};
ghost use Rattle.season_records.specs.Told.{EmptyIsInOrder, MomentsKeepOrder, RunsKeepOrder, VerdictsKeepOrder};
ghost use Rattle.season_records.specs.Told.{EmptyTellsNothing, RecordsTellBooks, RecordsTellFacts};
ghost use Rattle.season_records.specs.Told.{RecordsTellSlots, SlotsTellOfThemselves};

/// A law on the definitions: the records of a book, once what a command touched was put in as the book behind the command
/// tells it, are those of the book behind the command. Of a manager's command this holds where his entry did nothing in a
/// later gameweek than the next.
pub fn commands_keep_records()
    ensures { CommandsKeepRecords }
{}

/// A law on the definitions: so it is with the gameweeks that a moment locks; where it locks none that was open, the book
/// stays.
pub fn locks_keep_records()
    ensures keep { LocksKeepRecords }
    ensures none { NoLockLeavesBook }
{}

/// A law on the definitions: and with each request, accepted or not: what it touched leads to the book of its verdict. A
/// batch of what any slots tell of the same book changes nothing.
pub fn verdicts_keep_records()
    ensures keep { VerdictsKeepRecords }
    ensures rest { RestsKeepRecords }
{}

/// A law on the definitions: a keeper that held the records of a book holds, behind a commit of slots that lead to another
/// book, the records of that one, or where the commit failed, those of one of the two; behind the two commits of a request
/// the records of the verdict's book, or where one failed, those of a book that the request may leave.
pub fn commits_hold_one()
    ensures one { CommitsHoldOne }
    ensures request { RequestsCommit }
{}

/// A law on the definitions: no entry of a book acts later than in the next gameweek: none of the empty book, nor behind a
/// moment or a verdict. So managers act in time in every run from the empty book.
pub fn books_are_early()
    ensures empty { EmptyIsEarly }
    ensures moment { MomentsAreEarly }
    ensures verdict { VerdictsAreEarly }
    ensures run { RunsAreEarly }
{}

/// A law on the definitions: of a slot an item of that slot is told, and of the empty book nothing.
pub fn slots_tell_of_themselves()
    ensures own { SlotsTellOfThemselves }
    ensures empty { EmptyTellsNothing }
{}

/// A law on the definitions: two books that tell items and have the same records tell the same of each slot. They have the
/// same facts by every look-up, but for the finished mark of a fixture that is not there. Where they are in order they are
/// the same but for the managers' histories, and these tell the same teams and transfers of each gameweek.
pub fn records_tell_books()
    ensures slots { RecordsTellSlots }
    ensures facts { RecordsTellFacts }
    ensures books { RecordsTellBooks }
{}

/// A law on the definitions: the empty book is in order, and so is every book behind a moment, a verdict or a run: its facts, the
/// members of its leagues and its last commands stand by ascending id, lines and finished marks are of fixtures that are
/// there, and each last command made what such a command makes.
pub fn books_are_in_order()
    ensures empty { EmptyIsInOrder }
    ensures moment { MomentsKeepOrder }
    ensures verdict { VerdictsKeepOrder }
    ensures run { RunsKeepOrder }
{}
