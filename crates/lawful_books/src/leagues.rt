ghost use Rattle.lawful_books.specs.LeaguesKeeping.{EmptyIsLawful, MomentsKeepLaws, VerdictsKeepLaws};
ghost use Rattle.lawful_books.specs.Rekeyed.{KeysChangeHands};
ghost use Rattle.lawful_books.specs.LeaguesRules.{CupsBreakNone, LastsBreakNone, LeaguesBreakNone, MembersBreakNone};
ghost use Rattle.lawful_books.specs.LeaguesRules.{EntriesAreIssuedRightly, IssuesBreakNone};

/// A law on the definitions: the entries' keys, the leagues, the cups and the last commands of the empty book are lawful,
/// and those of every book behind a moment or a verdict on a request of the operator or of an entry.
pub fn books_keep_leagues()
    ensures empty { EmptyIsLawful }
    ensures moment { MomentsKeepLaws }
    ensures verdict { VerdictsKeepLaws }
{}

/// A law on the definitions: of a lawful book in a season, whose records stand in the order of their keys, what they tell of
/// a league, a member, a cup or a last command is in range and breaks no rule.
pub fn leagues_break_no_rule()
    ensures leagues { LeaguesBreakNone }
    ensures members { MembersBreakNone }
    ensures cups { CupsBreakNone }
    ensures lasts { LastsBreakNone }
{}

/// A law on the definitions: and what they tell of an entry has no gap before it, a key of its own, and room; it breaks a
/// rule only where it has no team in its first gameweek.
pub fn entries_are_issued_rightly()
    ensures issued { EntriesAreIssuedRightly }
    ensures rules { IssuesBreakNone }
{}

/// A law on the definitions: where an entry of a lawful book was given another key, that key is the entry's, and the one that
/// it had is nobody's.
pub fn keys_change_hands()
    ensures { KeysChangeHands }
{}
