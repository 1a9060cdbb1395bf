ghost use Rattle.std.specs.Prelude.{ℕ};
ghost use Rattle.fpl_base.specs.declared.kinds.Caller.{Caller};
ghost use Rattle.season_book.specs.Agree.{AgreesBothWays};
ghost use Rattle.season_book.specs.Isolation.{AnswersAreIsolated, CommandsAreIsolated, OthersAreUnseen};
ghost use Rattle.season_book.specs.Isolation.{RepliesAreIsolated, ViewsAreIsolated};

/// A law: to be the same to a caller at a moment is an equivalence of books, so the laws below can be chained.
pub fn agreeing_is_an_equivalence()
    ensures { (caller : Caller) (now : ℕ) → AgreesBothWays caller now }
{}

/// A law: two books that are the same to a caller at a moment show him the same in every view.
pub fn views_are_isolated()
    ensures { ViewsAreIsolated }
{}

/// A law: every command of a caller leads two books that are the same to him to the same: both refuse it with the
/// same answer, or both accept it, it makes the same, and the books behind it are the same to him again. Where it gives a
/// player who has no line another position, as the operator may, they also have to say the same of whether an entry has
/// had him: that is what refuses it, and it may have been in the open gameweek. So it is in the laws on replies below.
pub fn commands_are_isolated()
    ensures { CommandsAreIsolated }
{}

/// A law: of two books that are the same to a caller at a moment, every verdict on a request of his in the one has
/// the answer of a verdict in the other, and behind them the books are the same to him again.
pub fn replies_are_isolated()
    ensures { RepliesAreIsolated }
{}

/// A law: whatever a host may answer to a request of a caller, but want of memory and a keeper that failed, is the answer
/// of a verdict in every book that is the same to him.
pub fn answers_are_isolated()
    ensures { AnswersAreIsolated }
{}

/// A law: whatever the manager of another registered entry asks, a view or a command on his entry, the book behind it
/// is the same to a caller as the one before, at that moment.
pub fn others_are_unseen()
    ensures { OthersAreUnseen }
{}
