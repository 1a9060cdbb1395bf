ghost use Rattle.lawful_books.specs.Books.{EmptyIsLawful, RunsKeepLaws, VerdictsKeepLaws};
ghost use Rattle.lawful_books.specs.Judged.{LawfulBooksAreJudged, LawfulBooksAreWhole};

use fpl_base::Keeper;

/// A law on the definitions: the empty book is lawful, and so is every book to which the verdict on a request of the
/// operator or of an entry leads from a lawful one, and each that a run of such requests leads to.
pub fn books_are_lawful()
    ensures empty { EmptyIsLawful }
    ensures verdict { VerdictsKeepLaws }
    ensures run { RunsKeepLaws }
{}

/// A law on the definitions: none of the records of a lawful book is named as one that is not lawful.
pub fn lawful_books_are_judged()
    ensures { LawfulBooksAreJudged }
{}

/// A law on the definitions: a keeper that tells, and held the records of a lawful book, is not found damaged when it is
/// loaded.
pub fn lawful_books_are_whole<K: Keeper>()
    ensures { (old new : K)
        → LawfulBooksAreWhole (K.tells new) (K.holds old) (K.holds new) (K.passes new) }
{}
