// What follows from the definitions alone.
ghost use Rattle.manager_book.specs.HistoryLaws.{RowsAlwaysRefuseAlike};

use rule_book::told_values;
use season_ledger::rows_tell;

/// A law: rows refuse a manager's calls as every history that they stand for does, and a batch sells by them as by it.
pub fn rows_refuse_alike()
    ensures { RowsAlwaysRefuseAlike }
{
    // The laws on which it stands, for the prover.
    rows_tell();
    told_values();
}
