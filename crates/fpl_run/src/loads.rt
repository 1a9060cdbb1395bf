// The command that loads a season.
ghost use Rattle.std.specs.Prelude.{◌≡◌, ◌⊎◌};
ghost use Rattle.fpl_base.specs.Causes.{Rose};
ghost use Rattle.fpl_loading.specs.Notes.{noted_behind};
ghost use Rattle.fpl_run.specs.Loads.{Loaded};

use fpl_base::{Clock, Keeper, Key, Profile, ReadCount, Sink, Text};
use fpl_loading::Note;
use season_folder::AskedShelf;
use std::alloc::Global;
use std::sync::ledger::Ledger;

/// Loads the season of the files in a folder for the operator with this key, notes what is to be said of it, and answers the
/// exit status.
pub(crate) fn load<W: Sink, C: Clock, K: Keeper, F: AskedShelf, L: Ledger>(
    alloc: Global,
    key: &Key,
    folder: &Text,
    split: u8,
    profile: Profile,
    more: bool,
    output: &mut W,
    clock: &mut C,
    keeper: &mut K,
    shelf: &mut F,
    note: &mut Option<Note>,
    steps: &mut ReadCount<L>,
) -> u8
    ensures loaded { Loaded K.tells K.serves K.holds K.passes K.faults F.one_read keeper.old
        keeper.new key.now folder.now split profile more
        (record { shelf = shelf.old; texts = F.files shelf.old; noted = note.old })
        (record { shelf = shelf.new; texts = F.files shelf.new; noted = note.new })
        (C.left clock.old) (C.left clock.new) (W.taken output.old) (W.taken output.new) result }
    ensures statuses { (result ≡ 0) ⊎ (result ≡ 3) ⊎ (result ≡ 4) ⊎ (result ≡ 5) ⊎ (result ≡ 6)
        ⊎ (result ≡ 9) ⊎ (result ≡ 10) ⊎ (result ≡ 11) ⊎ (result ≡ 13) }
    ensures write { result ≡ 3 → Rose (W.faults output.old) (W.faults output.new) }
    ensures keeper { result ≡ 4 → Rose (K.faults keeper.old) (K.faults keeper.new) }
    ensures shelf { result ≡ 9 → Rose (F.faults shelf.old) (F.faults shelf.new) }
{
    let end = crate::load_request::load(
        alloc, key, folder, split, profile, more, output, clock, keeper, shelf, steps,
    );
    put(note, end.note);
    end.status
}

// Puts a note in the place of what was noted before, if there is one.
fn put(note: &mut Option<Note>, found: Option<Note>)
    ensures { note.new ≡ noted_behind note.old found }
{
    if let Some(found) = found {
        *note = Some(found);
    }
}
