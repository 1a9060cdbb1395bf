ghost use Rattle.lawful_books.specs.EntriesKeeping.{AmendmentsKeepHistories, ChangesKeepHistories, DeedsKeepHistories, EmptyIsLawful, MomentsKeepHistories};
ghost use Rattle.lawful_books.specs.Recorded.{FirstTeamsAreTold, TeamsAreInSeason, TransfersAreLawful};

/// A law on the definitions: the history of a manager who did nothing is lawful, and a lawful one stays so behind a
/// command of the operator, a moment and a command of its manager. Of the last this holds where the team of each
/// gameweek of a lawful history has a squad's shape.
pub fn histories_stay_lawful()
    ensures empty { EmptyIsLawful }
    ensures change { ChangesKeepHistories }
    ensures amended { AmendmentsKeepHistories }
    ensures moment { MomentsKeepHistories }
    ensures deed { DeedsKeepHistories }
{}

/// A law on the definitions: where records tell a book with a lawful history, its entry has a team in its first
/// gameweek, no transfer breaks a rule, and each gameweek with a team is in the entry's time and has a chip that can be
/// played there.
pub fn lawful_histories_break_no_rule()
    ensures first { FirstTeamsAreTold }
    ensures transfer { TransfersAreLawful }
    ensures season { TeamsAreInSeason }
{}
