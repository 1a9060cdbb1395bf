// Laws on records: what is read of them has values in their ranges.
ghost use Rattle.std.specs.List.{AllByRecursion};
ghost use Rattle.fpl_base.specs.Keeping.{map_of};
ghost use Rattle.season_records.specs.Laws.{IsBytes};
ghost use Rattle.season_book.specs.Book.{Book};
ghost use Rattle.season_records.specs.Read.{HasBytes, TellsAsRead};
ghost use Rattle.season_records.specs.Told.{TellsItems};

use fpl_base::{Bytes, RecordKey};

/// A law: a book that tells what these records tell when they are read has values in their ranges.
pub fn restores_items(records: &[(RecordKey, Bytes)])
    ensures { (book : Book) → TellsAsRead (map_of records.now) book → TellsItems book }
{
    have_bytes(records);
}

fn have_bytes(records: &[(RecordKey, Bytes)])
    ensures { AllByRecursion HasBytes records.now }
{
    'records: for row in records {
        has_bytes(row);
    }
}

fn has_bytes(row: &(RecordKey, Bytes))
    ensures { HasBytes row.now }
{
    keeps_bytes(row.1.as_slice());
}

/// A law: each byte is below 256.
pub fn keeps_bytes(bytes: &[u8])
    ensures { IsBytes bytes.now }
{
    // The type tells it, for the prover.
    let _ = bytes;
}
