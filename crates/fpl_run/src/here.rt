// The top call over the standard input and output and the clock of this machine.
ghost use Rattle.std.specs.Prelude.{◌≡◌, ◌<◌, None};

use crate::run::run;
use fpl_base::{Doors, Keeper, ReadCount, Reading, SystemClock, Text, Writing};
use fpl_loading::Note;
use season_folder::AskedShelf;
use std::alloc::Global;
use std::io;
use std::marker::Brand;
use std::sync::ledger::{Blank, Ledger};

/// Runs the program, as `run` does, over the standard input and output and the clock of this machine, with a counter of reads
/// that nobody looks at. It answers the exit status.
pub fn run_here<K: Keeper, D: Doors, F: AskedShelf>(
    rt: &HostRuntime,
    alloc: Global,
    words: &[Text],
    keeper: &mut K,
    doors: &mut D,
    shelf: &mut F,
    note: &mut Option<Note>,
) -> u8
    requires untold { (d : D) → D.coming d ≡ None }
{
    counted::<K, D, F, Brand>(rt, alloc, words, keeper, doors, shelf, note, Blank::new(1))
}

fn counted<K: Keeper, D: Doors, F: AskedShelf, L: Ledger>(
    rt: &HostRuntime,
    alloc: Global,
    words: &[Text],
    keeper: &mut K,
    doors: &mut D,
    shelf: &mut F,
    note: &mut Option<Note>,
    blank: Blank,
) -> u8
    requires untold { (d : D) → D.coming d ≡ None }
    requires name { blank.name ≡ L.name }
    requires parts { blank.parts ≡ L.parts }
    requires some { 0 < blank.parts }
{
    let mut steps: ReadCount<L> = ReadCount::open(blank);
    let mut input = Reading::new(rt.reader());
    let mut output = Writing::new(io::writer(rt));
    run(
        alloc,
        words,
        &mut input,
        &mut output,
        &mut SystemClock::new(rt),
        keeper,
        doors,
        shelf,
        note,
        &mut steps,
    )
}
