use fpl_base::{Gw, Key, Memory, Profile, Text};
use std::alloc::AllocError;

/// A command with the values of its options.
#[derive(Drop)]
pub enum Words {
    /// Scores the match whose rows are the input.
    Score {
        profile: Profile,
    },
    /// Runs one session over input and output.
    Pipe {
        key: Key,
        store: Option<Text>,
    },
    /// Runs a session with each of so many connections to a port of this machine; no number is 0. Where clients are gathered,
    /// so many at once, each message of theirs is a connection, and the files of a folder may be their pages.
    Serve {
        key: Key,
        port: u16,
        clients: Option<u16>,
        connections: u64,
        pages: Option<Text>,
        store: Option<Text>,
    },
    /// Loads a season from the three files of a folder, or what the season lacks of them. Its first half ends with the gameweek
    /// `split`, 0 to 38.
    Load {
        key: Key,
        store: Text,
        dir: Text,
        split: u8,
        profile: Profile,
        more: bool,
    },
    /// Writes one view of a season.
    Report {
        key: Key,
        store: Text,
        what: What,
    },
    /// Makes a season from a seed and runs it.
    Generate {
        seed: u64,
        store: Option<Text>,
    },
    /// Writes the team of the week of a locked gameweek.
    Dream {
        key: Key,
        store: Text,
        gameweek: Gw,
    },
    /// Sends the lines that the events of a match give. The fixture is not 0, and the match has 1 to 120 minutes.
    Events {
        key: Key,
        store: Text,
        fixture: u32,
        length: u8,
    },
    /// Writes what becomes of a draft league of 2 to 8 members.
    Draft {
        key: Key,
        store: Text,
        members: u8,
    },
}

/// What a report shows. An id is from 1 to 4294967295.
#[derive(Clone, Copy, Debug, PartialEq, Eq)]
pub enum What {
    /// Its gameweeks.
    Season,
    /// The table of a league.
    Table { id: u32 },
    /// The lines of a fixture.
    Fixture { id: u32 },
    /// The team of an entry in a gameweek.
    Entry { id: u32, gameweek: Gw },
}

/// Why no command was read.
#[derive(Clone, Copy, Debug, PartialEq, Eq)]
pub enum WordFault {
    /// The words are those of no command: the one who typed them has to change them.
    Unread,
    /// Memory ran out while they were read.
    Memory,
}

impl From<AllocError> for WordFault {
    ghost use Rattle.std.specs.Prelude.{◌≡◌};
    ghost use Rattle.command_line.specs.declared.words.WordFault.TheVariants as fault;

    ghost from_gives = { λ _ gives. gives ≡ fault.Memory };

    fn from(_: AllocError) -> Self {
        WordFault::Memory
    }
}

impl From<Memory> for WordFault {
    ghost use Rattle.std.specs.Prelude.{◌≡◌};
    ghost use Rattle.command_line.specs.declared.words.WordFault.TheVariants as fault;

    ghost from_gives = { λ _ gives. gives ≡ fault.Memory };

    fn from(_: Memory) -> Self {
        WordFault::Memory
    }
}
