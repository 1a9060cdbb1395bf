// The command that loads a season.
ghost use Rattle.std.specs.Prelude.{◌≡◌, ◌⊎◌, All};
ghost use Rattle.fpl_base.specs.Causes.{Rose};
ghost use Rattle.season_book.specs.Commands.{IsCommand};
ghost use Rattle.fpl_run.specs.LoadRequests.{Loads, LoadsAll};

use crate::opening::unopened;
use fpl_base::{Clock, Keeper, Key, Profile, ReadCount, Sink, Text};
use fpl_loading::{LoadEnd, loaded_by, ordered_by, unloaded};
use season_book::Command;
use season_folder::AskedShelf;
use season_keeping::Host;
use std::alloc::Global;
use std::sync::ledger::Ledger;

/// Loads the season of the files in a folder for the operator with this key, and answers the exit status with what is noted
/// beside: all of it, or with `more` what the season lacks. `split` is the last gameweek of the first half, 0 for none.
pub fn load<W: Sink, C: Clock, K: Keeper, F: AskedShelf, L: Ledger>(
    alloc: Global,
    key: &Key,
    folder: &Text,
    split: u8,
    profile: Profile,
    more: bool,
    output: &mut W,
    clock: &mut C,
    keeper: &mut K,
    shelf: &mut F,
    steps: &mut ReadCount<L>,
) -> LoadEnd
    ensures loads { Loads K.tells K.serves K.holds K.passes K.faults F.one_read keeper.old keeper.new
        key.now (F.files shelf.old) folder.now split profile more shelf.old shelf.new
        (C.left clock.old) (C.left clock.new) (W.taken output.old) (W.taken output.new)
        result.status result.note }
    ensures statuses { (result.status ≡ 0) ⊎ (result.status ≡ 3) ⊎ (result.status ≡ 4)
        ⊎ (result.status ≡ 5) ⊎ (result.status ≡ 6) ⊎ (result.status ≡ 9) ⊎ (result.status ≡ 10)
        ⊎ (result.status ≡ 11) ⊎ (result.status ≡ 13) }
    ensures write { result.status ≡ 3 → Rose (W.faults output.old) (W.faults output.new) }
    ensures keeper { result.status ≡ 4 → Rose (K.faults keeper.old) (K.faults keeper.new) }
    ensures shelf { result.status ≡ 9 → Rose (F.faults shelf.old) (F.faults shelf.new) }
{
    match ordered_by(alloc, shelf, split, profile, folder) {
        Ok(commands) => load_all(alloc, key, more, commands, output, clock, keeper, steps),
        Err(fault) => {
            let status = unloaded(alloc, fault, output);
            LoadEnd { status, note: None }
        }
    }
}

// Loads these commands.
fn load_all<W: Sink, C: Clock, K: Keeper, L: Ledger>(
    alloc: Global,
    key: &Key,
    more: bool,
    commands: Vec<Command>,
    output: &mut W,
    clock: &mut C,
    keeper: &mut K,
    steps: &mut ReadCount<L>,
) -> LoadEnd
    requires { All IsCommand commands.items }
    ensures loads { LoadsAll K.tells K.serves K.holds K.passes K.faults keeper.old keeper.new
        key.now more commands.items (C.left clock.old) (C.left clock.new) (W.taken output.old)
        (W.taken output.new) result.status result.note }
    ensures statuses { (result.status ≡ 0) ⊎ (result.status ≡ 3) ⊎ (result.status ≡ 4)
        ⊎ (result.status ≡ 5) ⊎ (result.status ≡ 6) ⊎ (result.status ≡ 13) }
    ensures write { result.status ≡ 3 → Rose (W.faults output.old) (W.faults output.new) }
    ensures keeper { result.status ≡ 4 → Rose (K.faults keeper.old) (K.faults keeper.new) }
{
    match Host::open(alloc, keeper, key, steps) {
        Ok(mut host) => loaded_by(
            alloc, &mut host, more, commands, output, clock, keeper, steps,
        ),
        Err(fault) => {
            let status = unopened(alloc, fault, output);
            LoadEnd { status, note: None }
        }
    }
}
