ghost use Rattle.season_records.specs.Read.{BytesTellItems, RowsTellItems};
ghost use Rattle.season_records.specs.Staying.{EmptyTellsItems, ItemsAmong, ItemsOfAmong, ItemsStay, LockedItemsStay};
ghost use Rattle.season_records.specs.Staying.{LocksStay, LooksTellItems, RestsTellItems, ToldIsItem, UnaskedStay};
ghost use Rattle.season_records.specs.Staying.{UntouchedStay, VerdictsTellItems};

/// A law on the definitions: of every slot but those that a command touches, the book behind it tells what the book
/// before told; so it is with a moment and the season, and with each request.
pub fn untouched_stay()
    ensures command { UntouchedStay }
    ensures lock { LocksStay }
    ensures verdict { UnaskedStay }
{}

/// A law on the definitions: so where all that a book tells has values in their ranges, and all that the book behind
/// tells of what was touched, all that the book behind tells has. A moment keeps them in their ranges, and of the empty
/// book nothing is told.
pub fn items_stay()
    ensures rest { RestsTellItems }
    ensures command { ItemsStay }
    ensures verdict { VerdictsTellItems }
    ensures lock { LockedItemsStay }
    ensures empty { EmptyTellsItems }
{}

/// A law on the definitions: the values of a slot are in their ranges where nothing is told of it, or an item that can
/// be; so are those of some slots where something else tells the same, and of these in its ranges. It is the same to say
/// so of each of some slots, and of each slot that has the key of one of them.
pub fn slots_tell_items()
    ensures told { ToldIsItem }
    ensures look { LooksTellItems }
    ensures among { ItemsAmong }
    ensures each { ItemsOfAmong }
{}

/// A law on the definitions: a book that tells what records tell when they are read has values in their ranges, where
/// each body is of bytes: of a map of records, and of rows.
pub fn restored_items()
    ensures bytes { BytesTellItems }
    ensures rows { RowsTellItems }
{}
