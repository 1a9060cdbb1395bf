ghost use Rattle.std.specs.Prelude.{◌≡◌, ◌≢◌, MatchOption};

use crate::EntryId;

/// Where a player plays.
#[derive(Clone, Copy, Debug, PartialEq, Eq, PartialOrd, Ord, Hash)]
pub enum Position {
    Keeper,
    Defender,
    Midfielder,
    Forward,
}

impl Position {
    ghost use Rattle.fpl_base.specs.declared.kinds.Position.{Position};
    ghost use Rattle.fpl_base.specs.Letters.{letter_of};

    /// Its letter in files, bodies and answers: `G` for a goalkeeper, `D`, `M` or `F`.
    pub fn letter(self) -> &'static str
        ensures { result.now ≡ letter_of self }
    {
        match self {
            Position::Keeper => "G",
            Position::Defender => "D",
            Position::Midfielder => "M",
            Position::Forward => "F",
        }
    }

    /// The position of this letter; `None` exactly where no position has it.
    pub fn from_letter(letter: &[u8]) -> Option<Self>
        ensures { MatchOption result ((p : Position) → letter.now ≢ letter_of p)
            (λ p. letter.now ≡ letter_of p) }
    {
        match letter {
            b"G" => Some(Position::Keeper),
            b"D" => Some(Position::Defender),
            b"M" => Some(Position::Midfielder),
            b"F" => Some(Position::Forward),
            _ => None,
        }
    }
}

/// What a manager plays in a gameweek beside his team, at most one.
#[derive(Clone, Copy, Debug, PartialEq, Eq, PartialOrd, Ord, Hash)]
pub enum Chip {
    None,
    Wildcard,
    FreeHit,
    BenchBoost,
    TripleCaptain,
}

/// By which rules a season is played. `A` is that of season 2023/24: at most two free transfers, one after a
/// wildcard or a free hit, and 6 points for a goalkeeper's goal. Under `B` they are five, those that were held,
/// and 10.
#[derive(Clone, Copy, Debug, PartialEq, Eq, PartialOrd, Ord, Hash)]
pub enum Profile {
    A,
    B,
}

/// Who asks: the operator of the season, or the manager of an entry.
#[derive(Clone, Copy, Debug, PartialEq, Eq, PartialOrd, Ord, Hash)]
pub enum Caller {
    Operator,
    Entry(EntryId),
}
