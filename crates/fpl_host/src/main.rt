//! The season host: the edges to the machine that it runs on, and its commands over them.
#![tactic(auto)]

mod causes;
mod files;
mod folder;
mod key_file;
mod notes;

ghost use Rattle.std.specs.Prelude.{◌≡◌, None};

use crate::causes::{tell, tell_port, tell_store};
use crate::folder::pages_in;
use crate::key_file::keyed;
use crate::notes::tell_note;
use command_line::{WordFault, Words, words_of};
use file_keeper::{Cause, with_file, with_file_behind};
use fpl_base::{Doors, Memory, Quiet, Text};
use fpl_loading::Note;
use fpl_run::run_here;
use listener::{Gathering, Listening};
use local_requests::status::{DOORS, KEEPER, MEMORY, SHELF};
use record_keepers::{AtPath, TreeKeeper, WithKeeper};
use season_folder::{AskedShelf, Disk};
use std::alloc::Global;
use std::io;
use std::process::ExitCode;
use std::rt::Env;
use std::time::Duration;

fn main(rt: HostRuntime) -> ExitCode {
    let alloc = rt.alloc();
    let status = match given_words(&rt, alloc) {
        Ok(words) => match keyed(&rt, alloc, words) {
            Ok(words) => outside(&rt, alloc, words.as_slice()),
            Err(status) => status,
        },
        Err(Memory) => MEMORY,
    };
    ExitCode::from(status)
}

// The words behind the program's name; none where one of them is no text, since no command has such a word.
fn given_words<R: Env + AllocGlobal>(rt: &R, alloc: Global) -> Result<Vec<Text>, Memory> {
    let mut words = Vec::new(alloc);
    let args = match std::env::args(rt) {
        Ok(args) => args,
        Err(fault) => {
            return match fault.kind() {
                io::ErrorKind::OutOfMemory => Err(Memory),
                _ => Ok(words),
            };
        }
    };
    for (i, word) in args.enumerate() {
        if i > 0 {
            words.push(Text::new(alloc, word.as_str())?)?;
        }
    }
    Ok(words)
}

// Makes the doors, the shelf and the keeper that the words ask for, runs, and tells why it failed where it did.
fn outside(rt: &HostRuntime, alloc: Global, words: &[Text]) -> u8 {
    match words_of(alloc, words) {
        Ok(
            Words::Serve {
                port,
                clients,
                pages,
                store,
                ..
            },
        ) => match clients {
            Some(most) => gathered(rt, alloc, words, port, most, pages, store),
            None => listening(rt, alloc, words, port, store),
        },
        // The store is opened behind the files, so that a season which cannot be read makes none.
        Ok(Words::Load { store, .. }) => loading(rt, alloc, words, store),
        Ok(Words::Report { store, .. }) => {
            kept(rt, alloc, words, &mut Quiet, &mut Quiet, Some(store))
        }
        Ok(Words::Dream { store, .. }) => {
            kept(rt, alloc, words, &mut Quiet, &mut Quiet, Some(store))
        }
        Ok(Words::Events { store, .. }) => {
            kept(rt, alloc, words, &mut Quiet, &mut Quiet, Some(store))
        }
        Ok(Words::Draft { store, .. }) => {
            kept(rt, alloc, words, &mut Quiet, &mut Quiet, Some(store))
        }
        Ok(Words::Pipe { store, .. }) => kept(rt, alloc, words, &mut Quiet, &mut Quiet, store),
        Ok(Words::Generate { store, .. }) => {
            kept(rt, alloc, words, &mut Quiet, &mut Quiet, store)
        }
        Err(WordFault::Memory) => MEMORY,
        _ => kept(rt, alloc, words, &mut Quiet, &mut Quiet, None),
    }
}

// Runs with doors over this port, whose clients come one after another.
fn listening(
    rt: &HostRuntime,
    alloc: Global,
    words: &[Text],
    port: u16,
    store: Option<Text>,
) -> u8 {
    let mut doors = Listening::at(rt, port);
    let status = kept(rt, alloc, words, &mut doors, &mut Quiet, store);
    if status == DOORS {
        tell_port(rt, port, doors.fault());
    }
    status
}

// How many seconds clients have for taking the last answers.
const FAREWELL: u64 = 60;

// Runs with doors over this port, which gather so many clients at once and show them the pages of a folder, which is read
// first, and waits behind it until the answers are taken.
fn gathered(
    rt: &HostRuntime,
    alloc: Global,
    words: &[Text],
    port: u16,
    most: u16,
    pages: Option<Text>,
    store: Option<Text>,
) -> u8 {
    let pages = match pages {
        Some(folder) => match pages_in(rt, alloc, folder.text()) {
            Ok(pages) => Some(pages),
            Err(status) => return status,
        },
        None => None,
    };
    let mut doors = Gathering::at(rt, alloc, port, most, pages);
    let status = kept(rt, alloc, words, &mut doors, &mut Quiet, store);
    doors.farewell(Duration::from_secs(FAREWELL));
    if status == DOORS {
        tell_port(rt, port, doors.fault());
    }
    status
}

// Runs with the files of this machine, over the store of this path.
fn loading(rt: &HostRuntime, alloc: Global, words: &[Text], store: Text) -> u8 {
    let mut disk = Disk::new(rt);
    let Ok(path) = Text::new(alloc, store.text()) else {
        return MEMORY;
    };
    let mut note = None;
    let cause = Cause::new();
    let status = stored_behind(
        rt, alloc, words, &cause, &mut Quiet, &mut disk, &mut note, store,
    );
    if let Some(note) = note {
        tell_note(rt, note);
    }
    if status == KEEPER {
        tell_store(rt, path.text(), &cause);
    }
    if status == SHELF {
        if let Some((name, fault)) = disk.missed() {
            tell(rt, "file", name, Some(fault));
        }
    }
    status
}

// Runs with these doors, this shelf and a place for what is noted of a load, over the store of this path, which is opened
// behind the files. Why it was not opened is kept in `cause`.
fn stored_behind<D: Doors, F: AskedShelf>(
    rt: &HostRuntime,
    alloc: Global,
    words: &[Text],
    cause: &Cause,
    doors: &mut D,
    shelf: &mut F,
    note: &mut Option<Note>,
    store: Text,
) -> u8
    requires untold { (d : D) → D.coming d ≡ None }
{
    let work = StoredRun {
        rt,
        alloc,
        words,
        doors,
        shelf,
        note,
    };
    with_file_behind(rt, cause, store, work)
}

// Runs with these doors and this shelf, over a store in this file, or in memory.
fn kept<D: Doors, F: AskedShelf>(
    rt: &HostRuntime,
    alloc: Global,
    words: &[Text],
    doors: &mut D,
    shelf: &mut F,
    store: Option<Text>,
) -> u8
    requires untold { (d : D) → D.coming d ≡ None }
{
    match store {
        Some(path) => stored(rt, alloc, words, doors, shelf, path),
        None => run_here(
            rt,
            alloc,
            words,
            &mut TreeKeeper::new(alloc),
            doors,
            shelf,
            &mut None,
        ),
    }
}

// Runs with these doors and this shelf, over the store of this path.
fn stored<D: Doors, F: AskedShelf>(
    rt: &HostRuntime,
    alloc: Global,
    words: &[Text],
    doors: &mut D,
    shelf: &mut F,
    path: Text,
) -> u8
    requires untold { (d : D) → D.coming d ≡ None }
{
    let Ok(name) = Text::new(alloc, path.text()) else {
        return MEMORY;
    };
    let mut note = None;
    let work = StoredRun {
        rt,
        alloc,
        words,
        doors,
        shelf,
        note: &mut note,
    };
    let cause = Cause::new();
    let status = with_file(rt, &cause, path, work);
    if status == KEEPER {
        tell_store(rt, name.text(), &cause);
    }
    status
}

// A run with these doors and this shelf, and a place for what is noted of a load, over the store of a path.
#[derive(Drop)]
struct StoredRun<'a, D: Doors, F: AskedShelf> {
    rt: &'a HostRuntime,
    alloc: Global,
    words: &'a [Text],
    doors: &'a mut D,
    shelf: &'a mut F,
    note: &'a mut Option<Note>,
}

impl<'a, D: Doors, F: AskedShelf> WithKeeper for StoredRun<'a, D, F> {
    ghost use Rattle.std.specs.Prelude.{◌≡◌, None, ⊤};

    ghost may = { λ _. (d : D) → D.coming d ≡ None };

    ghost ends = { λ _ _ _ _ _. ⊤ };

    fn with<K: AtPath>(self, keeper: &mut K) -> u8 {
        let StoredRun {
            rt,
            alloc,
            words,
            doors,
            shelf,
            note,
        } = self;
        run_here(rt, alloc, words, keeper, doors, shelf, note)
    }
}
