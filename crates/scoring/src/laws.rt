// The final eleven and the score, as values.
ghost use Rattle.rule_book.specs.FinalSlots.{FinalElevenIsTheOne};
ghost use Rattle.rule_book.specs.ScoreOfTeam.{ScoreIsTheOne};
ghost use Rattle.rule_book.specs.ScoreRange.{ScoresAreInRange};

/// A law: the final eleven is `final_slots`, and no other.
pub fn final_eleven_is_the_one()
    ensures { FinalElevenIsTheOne }
{}

/// A law: the score of a team is `score_of`, and no other.
pub fn score_is_the_one()
    ensures { ScoreIsTheOne }
{}

/// A law: from figures of at most twenty matches each, and transfers that cost at most 300,000 points, comes a score that
/// is within a million points of 0, with at most 21,780 goals of either kind.
pub fn scores_are_in_range()
    ensures { ScoresAreInRange }
{}
