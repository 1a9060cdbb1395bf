ghost use Rattle.lawful_books.specs.FactsKeeping.{AmendmentsAreLawful, GrantedAreLawful, MomentsAreLawful, NewSeasonsAreLawful};
ghost use Rattle.lawful_books.specs.FactsRules.{FactsBreakNoRule};
ghost use Rattle.lawful_books.specs.Telling.{AreFamilies, FewStand, FewerStand, NoneIsFull};
ghost use Rattle.lawful_books.specs.Telling.{RecordsAreThere, RecordsAreTold};

/// A law on the definitions: what the records of a book tell of a slot is what the book tells of it, where that is an
/// item; and a record is there exactly where something is told.
pub fn records_are_told()
    ensures told { RecordsAreTold }
    ensures there { RecordsAreThere }
{}

/// A law on the definitions: among records in the order of their keys no more pass a test than there are keys of such
/// records, and fewer where one of the keys is of none. So a limit on clubs, players, fixtures, lines of a fixture,
/// entries, leagues, members of a league or cups is not reached before any of them, where there are not more of them.
pub fn few_records_stand()
    ensures few { FewStand }
    ensures fewer { FewerStand }
    ensures families { AreFamilies }
    ensures full { NoneIsFull }
{}

/// A law on the definitions: the facts of a season are lawful when it begins with deadlines that rise, and stay so
/// behind a moment and behind a command that nothing refuses, whose members are in the ranges of their types.
pub fn facts_stay_lawful()
    ensures begin { NewSeasonsAreLawful }
    ensures command { GrantedAreLawful }
    ensures amended { AmendmentsAreLawful }
    ensures moment { MomentsAreLawful }
{}

/// A law on the definitions: of a book that tells items and has lawful facts, what is told of the season, a club, a
/// player, a fixture or a line is in range and breaks no rule among the book's records, in the order of their keys.
pub fn facts_break_no_rule()
    ensures { FactsBreakNoRule }
{}
