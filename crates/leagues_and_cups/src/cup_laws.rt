// What follows of the winners of a cup.
ghost use Rattle.std.specs.Prelude.{None, ℕ, ◌≡◌, ◌≤◌, ◌+◌, ◌*◌, ◌^◌, length};
ghost use Rattle.rule_book.specs.declared.cup.Bracket.{Bracket};
ghost use Rattle.rule_book.specs.declared.cup.Side.{Side};
ghost use Rattle.rule_book.specs.Cups.{IsCup, wrong_cup};
ghost use Rattle.rule_book.specs.CupLaws.{TieOfWinners, ByeLetsThrough, WonByEntrant};
ghost use Rattle.rule_book.specs.CupRounds.{rounds_of, winners_of};
ghost use Rattle.leagues_and_cups.specs.Rounds.{RoundFollows, WinnersHalve};
ghost use Rattle.leagues_and_cups.specs.Shapes.{HasShape};

/// A law: a tie is won by the one whom the tie of the two winners before sends on; where one of these is a bye, by the
/// other.
pub fn winners_meet()
    ensures tie { (b : Bracket) (side : ℕ → ℕ → Side) (r i : ℕ) → TieOfWinners b side r i }
    ensures bye { (b : Bracket) (side : ℕ → ℕ → Side) (r i : ℕ) → ByeLetsThrough b side r i }
{}

/// A law: in a cup that can be played each tie, from the first round on, is won by an entry of one of the slots that lead
/// to it, and never by a bye.
pub fn entrants_win()
    ensures { (b : Bracket) (gameweeks : ℕ) (side : ℕ → ℕ → Side) (r i : ℕ) → IsCup b gameweeks
        → 1 ≤ r → 2 ^ r * (i + 1) ≤ length b.slots → WonByEntrant b side r i }
{}

/// A law: a cup that can be played has the shape of one.
pub fn cups_have_shape()
    ensures { (b : Bracket) (gameweeks : ℕ) → IsCup b gameweeks → HasShape b }
{}

/// A law: so does a draw that breaks no rule, wherever the season stands.
pub fn unbroken_cups_have_shape()
    ensures { (b : Bracket) (gameweeks locked : ℕ) → wrong_cup b gameweeks locked ≡ None
        → HasShape b }
{}

/// A law: before the first round the winners are the slots; those of each round are half as many as before, and are who
/// goes through of two neighbours each; after the last round there is one.
pub fn rounds_follow()
    ensures start { (b : Bracket) (side : ℕ → ℕ → Side) → winners_of b side 0 ≡ b.slots }
    ensures count { (b : Bracket) (side : ℕ → ℕ → Side) (round : ℕ) → WinnersHalve b side round }
    ensures follows { (b : Bracket) (side : ℕ → ℕ → Side) (round : ℕ) → RoundFollows b side round }
    ensures last { (b : Bracket) (side : ℕ → ℕ → Side) → HasShape b
        → length (winners_of b side (rounds_of b)) ≡ 1 }
{}
