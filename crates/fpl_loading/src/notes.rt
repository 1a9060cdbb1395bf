// What is noted of a load beside its output.
ghost use Rattle.std.specs.Prelude.{◌≡◌, ◌<◌, ◌≤◌, ◌+◌};
ghost use Rattle.fpl_loading.specs.Notes.{cause_of, file_of, note_passed, place_behind};

use fpl_base::Rule;
use season_book::{Answer, Command};

/// Where a command stands in the files: the number of its file, 1 for `clubs.csv`, 2 for `players.csv` and 3 for
/// `fixtures.csv`, and that of its row there, from 1. The command that begins the season stands in row 1 of the first.
#[derive(Clone, Copy, Debug, PartialEq, Eq)]
pub struct Place {
    pub file: u8,
    pub row: u64,
}

/// What whoever loads should know beside what is written.
#[derive(Clone, Copy, Debug, PartialEq, Eq)]
pub enum Note {
    /// A rule refused the command that stands here.
    Refused { place: Place, rule: Rule },
    /// Something that the command names which stands here is not there.
    Unknown { place: Place },
    /// Nothing was loaded, since the operator's last number is greater than the number of commands.
    Passed { last: u64 },
}

/// How a load ended: the exit status, and what is noted.
#[derive(Clone, Copy, Debug, PartialEq, Eq)]
pub struct LoadEnd {
    pub status: u8,
    pub note: Option<Note>,
}

// The place of a command behind that of the one before it.
pub(crate) fn place_behind(place: Place, command: &Command) -> Place
    requires few { place.row < 18446744073709551615 }
    ensures behind { result ≡ place_behind place command.now }
    ensures next { result.row ≤ place.row + 1 }
{
    let file = file_of(command);
    if file == place.file {
        Place {
            file,
            row: place.row + 1,
        }
    } else {
        Place { file, row: 1 }
    }
}

fn file_of(command: &Command) -> u8
    ensures { result ≡ file_of command.now }
{
    match command {
        Command::Season { .. } => 1,
        Command::Player { .. } => 2,
        _ => 3,
    }
}

// What is noted of an answer that ended a load at this place.
pub(crate) fn cause_of(place: Place, told: &Answer) -> Option<Note>
    ensures { result ≡ cause_of place told.now }
{
    match told {
        Answer::Rule(rule) => Some(Note::Refused { place, rule: *rule }),
        Answer::Unknown => Some(Note::Unknown { place }),
        _ => None,
    }
}

// What is noted behind so many commands, where this was the operator's last number as the load began.
pub(crate) fn note_passed(last: u64, commands: u64) -> Option<Note>
    ensures { result ≡ note_passed last commands }
{
    if commands < last {
        Some(Note::Passed { last })
    } else {
        None
    }
}
