// Laws on lawful records.
ghost use Rattle.store_validation.specs.EntryLaws.{JudgedEntriesAreRestored, LawfulEntriesAreRestored};

/// Where no record of an entry breaks a rule, its teams and transfers, in the order of gameweeks and numbers, are
/// records from which a book restores the entry.
pub fn lawful_entries_are_restored()
    ensures { LawfulEntriesAreRestored }
{}

/// The same of each entry of a store that `judge` finds nothing wrong in.
pub fn judged_entries_are_restored()
    ensures { JudgedEntriesAreRestored }
{}
