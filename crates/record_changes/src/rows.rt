ghost use Rattle.record_changes.specs.Laws.{ItemsAreTold, RowsHaveRecords, RowsTellRecords};
ghost use Rattle.record_changes.specs.Laws.{RecordsAreRead, RestoredRowsStand, RowsInOrderStand};

/// A law on the definitions: an orderly host (`Host::keeps_order`) tells of each slot what each book tells that it stands
/// for, so their records are the same; and where what it tells has values in their ranges, so has what the book tells.
pub fn rows_tell_records()
    ensures tell { RowsTellRecords }
    ensures records { RowsHaveRecords }
    ensures items { ItemsAreTold }
{}

/// A law on the definitions: rows in order that tell of each slot what a book in order tells, whose values are in their
/// ranges, stand for that book, where some rows stood for it before. So do rows in order that tell what the records of
/// such a book tell when they are read.
pub fn rows_in_order_stand()
    ensures stand { RowsInOrderStand }
    ensures read { RecordsAreRead }
    ensures restored { RestoredRowsStand }
{}
