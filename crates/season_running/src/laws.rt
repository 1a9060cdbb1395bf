// What follows from the definitions alone.
ghost use Rattle.season_running.specs.EntryLaws.{BatchesMoveMoney, MoneyIsRecorded, MomentsKeepEntries, RowsTellHistories};

/// A law: what an orderly host stands for it stands for when a moment was told, with the gameweeks locked whose deadlines
/// have passed, and it stays orderly. So the other laws hold in the book in which a command is ruled (`pass`).
pub fn moments_keep_entries()
    ensures { MomentsKeepEntries }
{}

/// A law: in every book that an orderly host stands for (`Host::keeps_order`), the rows of each entry tell its history: the
/// team of each gameweek with its prices and its bank, the first gameweek, the chips, the transfers, what is free of them,
/// what the others cost and what a table counts.
pub fn rows_tell_histories()
    ensures { RowsTellHistories }
{}

/// A law: in such a book each entry, from its first gameweek on, can pay for what it bought, has the players that its
/// history counts in, and what is in the bank and what the fifteen cost is 100.0 million and what its kept transfers
/// gained.
pub fn money_is_recorded()
    ensures { MoneyIsRecorded }
{}

/// A law: in such a book each batch of transfers that is ruled well moves the bank of its entry by its own sales alone. The
/// entry's history goes on by these, and its team is the one before with each incomer in the slot of the one who goes.
pub fn batches_move_money()
    ensures { BatchesMoveMoney }
{}
