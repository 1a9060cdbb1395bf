// What follows from the rules of the rounds and of the matches.
ghost use Rattle.std.specs.Prelude.{◌≡◌, ◌≢◌, ◌≤◌, ◌<◌, ◌%◌, ◌+◌, ◌*◌, ℕ, ℤ, List, length};
ghost use Rattle.rule_book.specs.Pairings.{MeetsOne, MeetOnce, IsOpponent};
ghost use Rattle.rule_book.specs.declared.pairing.Opponent.{Opponent};
ghost use Rattle.rule_book.specs.HeadToHead.{head_score};
ghost use Rattle.rule_book.specs.Opponents.{MeanIsTheOne, OpponentIsTheOne};

/// A law: in each round, each of an even number of places meets one other place, which meets it; so a member has one
/// opponent.
pub fn each_meets_one()
    ensures places { (n k i : ℕ) → n % 2 ≡ 0 → i < n → MeetsOne n k i }
    ensures opponents { (members k i : ℕ) (a b : Opponent) → 2 ≤ members → i < members
        → IsOpponent members k i a → IsOpponent members k i b → a ≡ b }
{}

/// A law: over as many rounds as there are places but one, any two of an even number of places meet once.
pub fn meet_once()
    ensures { (n i j : ℕ) → n % 2 ≡ 0 → i < n → j < n → i ≢ j → MeetOnce n i j }
{}

/// A law: each match is won, drawn or lost, and the match points are 3 for each that was won and 1 for each drawn.
pub fn points_by_results()
    ensures results { (ms : List (ℤ × ℤ))
        → (head_score ms).won + (head_score ms).drawn + (head_score ms).lost ≡ length ms }
    ensures points { (ms : List (ℤ × ℤ))
        → (head_score ms).points ≡ 3 * (head_score ms).won + (head_score ms).drawn }
{}

/// A law: of two members or more, the opponent of a place in a round is `opponent_of`, and no other.
pub fn opponent_is_the_one()
    ensures { OpponentIsTheOne }
{}

/// A law: of one member or more, the points of the Average are `mean_of`, and no others.
pub fn mean_is_the_one()
    ensures { MeanIsTheOne }
{}
