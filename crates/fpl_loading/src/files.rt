// The season files of a folder.
ghost use Rattle.std.specs.Prelude.{◌≡◌, ℕ, All, IfErr, IfOk, string_bytes};
ghost use Rattle.season_book.specs.Commands.{IsCommand};
ghost use Rattle.fpl_loading.specs.Files.{AreFiles, AreOrdered, ExplainsFile, ExplainsLoad, HasLoadCause, IsFile, IsFileRead, IsReadFor, file_name, load_fault, path_in};

use fpl_base::{Bytes, Profile, ShelfFault, Text};
use fpl_reports::{FileFault, season_files};
use season_book::Command;
use season_folder::AskedShelf;
use std::alloc::{AllocError, Global};

const CLUBS: &str = "clubs.csv";

const PLAYERS: &str = "players.csv";

const FIXTURES: &str = "fixtures.csv";

/// Why a folder gives no commands. A file has a number: 1 for `clubs.csv`, 2 for `players.csv` and 3 for `fixtures.csv`.
#[derive(Clone, Copy, Debug, PartialEq, Eq)]
pub enum LoadFault {
    /// The shelf failed at this file, which its count of faults shows.
    Shelf { file: u8 },
    /// This file has more than 4,194,304 bytes.
    Long { file: u8 },
    /// The first wrong row: its file, and its number there, from 1. Blank lines are not counted.
    Row { file: u8, row: u32 },
    /// Memory ran out.
    Memory,
}

/// The commands that load the season of the files `clubs.csv`, `players.csv` and `fixtures.csv` of a folder, in the order
/// in which they are to be asked. All three are read, in this order and each once, before a row is judged; behind one that
/// is not had none is read. `split` is the last gameweek of the first half, 0 for none.
pub fn ordered_by<F: AskedShelf>(
    alloc: Global,
    shelf: &mut F,
    split: u8,
    profile: Profile,
    folder: &Text,
) -> Result<Vec<Command>, LoadFault>
    ensures orders { IfOk result
        (λ commands. AreOrdered (F.files shelf.old) folder.now split profile commands.items) }
    ensures lawful { IfOk result (λ commands. All IsCommand commands.items) }
    ensures fault { IfErr result (ExplainsLoad (F.files shelf.old) folder.now split) }
    ensures kept { F.files shelf.new ≡ F.files shelf.old }
    ensures read { IsReadFor F.one_read (F.files shelf.old) folder.now result shelf.old shelf.new }
    ensures cause { HasLoadCause (F.faults shelf.old) (F.faults shelf.new) result }
{
    let texts = texts_of(alloc, shelf, folder)?;
    match season_files(
        alloc,
        texts.0.as_slice(),
        texts.1.as_slice(),
        texts.2.as_slice(),
        split,
        profile,
    ) {
        Ok(commands) => Ok(commands),
        Err(FileFault::Row { file, row }) => Err(LoadFault::Row { file, row }),
        Err(FileFault::Memory) => Err(LoadFault::Memory),
    }
}

// The bytes of the three files: the clubs, the players and the fixtures.
fn texts_of<F: AskedShelf>(
    alloc: Global,
    shelf: &mut F,
    folder: &Text,
) -> Result<(Bytes, Bytes, Bytes), LoadFault>
    ensures texts { IfOk result
        (λ texts. AreFiles (F.files shelf.old) folder.now texts.0 texts.1 texts.2) }
    ensures fault { IfErr result (λ why. (split : ℕ) → ExplainsLoad (F.files shelf.old) folder.now split why) }
    ensures kept { F.files shelf.new ≡ F.files shelf.old }
    ensures read { IsReadFor F.one_read (F.files shelf.old) folder.now result shelf.old shelf.new }
    ensures cause { HasLoadCause (F.faults shelf.old) (F.faults shelf.new) result }
{
    let clubs = text_of(alloc, shelf, folder, 1)?;
    let players = text_of(alloc, shelf, folder, 2)?;
    let fixtures = text_of(alloc, shelf, folder, 3)?;
    Ok((clubs, players, fixtures))
}

// The bytes of the file of a number in the folder.
fn text_of<F: AskedShelf>(
    alloc: Global,
    shelf: &mut F,
    folder: &Text,
    file: u8,
) -> Result<Bytes, LoadFault>
    ensures text { IfOk result (IsFile (F.files shelf.old) (path_in folder.now (file_name file))) }
    ensures fault { IfErr result (ExplainsFile (F.files shelf.old) folder.now file) }
    ensures kept { F.files shelf.new ≡ F.files shelf.old }
    ensures read { IsFileRead F.one_read folder.now file result shelf.old shelf.new }
    ensures cause { HasLoadCause (F.faults shelf.old) (F.faults shelf.new) result }
{
    let Ok(path) = path_of(alloc, folder, file_name(file)) else {
        return Err(LoadFault::Memory);
    };
    match shelf.ask(alloc, path.as_str()) {
        Ok(bytes) => Ok(bytes),
        Err(fault) => Err(load_fault(file, fault)),
    }
}

// The name of the season file of a number.
pub(crate) fn file_name(file: u8) -> &'static str
    ensures { result.now ≡ file_name file }
{
    match file {
        1 => CLUBS,
        2 => PLAYERS,
        _ => FIXTURES,
    }
}

fn path_of(alloc: Global, folder: &Text, name: &str) -> Result<String, AllocError>
    ensures { IfOk result (λ path. string_bytes path ≡ path_in folder.now name.now) }
{
    format!(in alloc; "{}/{}", folder.text(), name)
}

fn load_fault(file: u8, fault: ShelfFault) -> LoadFault
    ensures { result ≡ load_fault file fault }
{
    match fault {
        ShelfFault::Failed => LoadFault::Shelf { file },
        ShelfFault::Long => LoadFault::Long { file },
        ShelfFault::Memory => LoadFault::Memory,
    }
}
