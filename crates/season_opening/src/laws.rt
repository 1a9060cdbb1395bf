ghost use Rattle.season_opening.specs.Opening.{EmptyIsKeepable, LoadedRowsStand};

use record_changes::rows_in_order_stand;
use season_records::{books_are_early, books_are_in_order, items_stay};

/// A law on the definitions: rows that were made of the records of a book that can be made anew stand for that book.
pub fn loaded_rows_stand()
    ensures { LoadedRowsStand }
{
    // The law that rows in order which tell what a book's records tell stand for it, for the prover.
    rows_in_order_stand();
}

/// A law on the definitions: the empty book can be made anew of its records.
pub fn empty_book_is_keepable()
    ensures { EmptyIsKeepable }
{
    // The laws that it is early and in order, and that what it tells is in its ranges, for the prover.
    books_are_early();
    books_are_in_order();
    items_stay();
}
