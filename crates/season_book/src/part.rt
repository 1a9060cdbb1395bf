// The part of a book that a command changes.
ghost use Rattle.std.specs.Prelude.{◌≡◌};
ghost use Rattle.season_book.specs.Commands.{part_of};

use crate::Command;

/// A part of the book: the facts, the name and the position of one of their players, the list of entries, the keys and names
/// that they have, what the caller's entry did, the leagues, or the cups.
#[derive(Clone, Copy, Debug, PartialEq, Eq)]
pub enum Part {
    Facts,
    Players,
    Entries,
    Keys,
    Deeds,
    Leagues,
    Cups,
}

impl Command {
    /// The part that this command changes.
    pub fn part(&self) -> Part
        ensures { result ≡ part_of self.now }
    {
        match self {
            Command::AmendPlayer { .. } => Part::Players,
            Command::Key { .. } => Part::Entries,
            Command::Rekey { .. } => Part::Keys,
            Command::Squad { .. }
            | Command::Transfers { .. }
            | Command::Lineup { .. }
            | Command::Chip { .. }
            | Command::CancelChip => Part::Deeds,
            Command::Season { .. }
            | Command::Deadline { .. }
            | Command::Player { .. }
            | Command::Price { .. }
            | Command::Club { .. }
            | Command::Gone { .. }
            | Command::Fixture { .. }
            | Command::Move { .. }
            | Command::AmendFixture { .. }
            | Command::Sheet { .. }
            | Command::Line { .. }
            | Command::Drop { .. }
            | Command::Finished { .. } => Part::Facts,
            Command::League { .. } | Command::Join { .. } | Command::Draw { .. } => Part::Leagues,
            Command::Cup { .. } => Part::Cups,
        }
    }
}
