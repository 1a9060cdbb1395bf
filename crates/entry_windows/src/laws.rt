// Laws of an entry's gameweeks.
ghost use Rattle.entry_windows.specs.EntryLaws.{MultipliersAddUp, TotalsAddUp};

/// A law on the definitions: each total of an entry is the one before, and the points of the gameweek less what its
/// transfers cost.
pub fn totals_add_up()
    ensures { TotalsAddUp }
{}

/// A law: the points of the fifteen, each as often as its multiplier says, are those of the gameweek.
pub fn multipliers_add_up()
    ensures { MultipliersAddUp }
{}
