// What follows from the definitions alone.
ghost use Rattle.season_entries.specs.Earlier.{EarlierRowsTell};
ghost use Rattle.season_entries.specs.EntryLaws.{EarlyIsInTime, EntriesAreIssued, FactsLeaveEntries, InTimeIsEarly, ManagersOwnTheirKeys, MomentsLeaveEntries, OwnersAreAlike, RowsCountSales};
ghost use Rattle.season_entries.specs.Known.{EntriesAreKnown};

use season_ledger::rows_tell;

/// A law: a command on the facts leaves the entries, and when their managers can act.
pub fn facts_leave_entries()
    ensures { FactsLeaveEntries }
{}

/// A law: so does a moment, which may lock gameweeks.
pub fn moments_leave_entries()
    ensures { MomentsLeaveEntries }
{}

/// A law: the entry that has a key is that of the manager who has it.
pub fn owners_are_alike()
    ensures books { OwnersAreAlike }
    ensures rows { ManagersOwnTheirKeys }
{}

/// A law: where nothing was done later than the next gameweek or the last, the managers are in time, and where a gameweek
/// is open the two are one.
pub fn early_is_in_time()
    ensures in_time { EarlyIsInTime }
    ensures early { InTimeIsEarly }
{}

/// A law: an entry of a book is there exactly where a manager stands for it.
pub fn entries_are_issued()
    ensures { EntriesAreIssued }
{}

/// A law: an entry of a book is issued and registered exactly where the manager who stands for it says so. A view and a
/// command of leagues and cups ask the managers.
pub fn entries_are_known()
    ensures { EntriesAreKnown }
{
    // The law that rows always tell, for the prover.
    rows_tell();
}

/// A law: of a manager who stands for an entry, each gameweek's row has as many transfers as his sales have.
pub fn rows_count_sales()
    ensures { RowsCountSales }
{
    // The law that rows always tell, for the prover.
    rows_tell();
}

/// A law: rows that are the same before a gameweek tell the same of each gameweek before it: the team that stands, whether
/// the entry has begun, and what its transfers cost. So a manager's command leaves all that is told of locked gameweeks.
pub fn earlier_rows_tell()
    ensures { EarlierRowsTell }
{}
