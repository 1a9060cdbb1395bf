// Which slots a command touches.
ghost use Rattle.std.specs.Prelude.{◌≡◌, IfOk, IsSome};
ghost use Rattle.season_book.specs.Book.{Book, caller_number};
ghost use Rattle.season_book.specs.Commands.{IsCommand, begun_by};
ghost use Rattle.season_records.specs.Touched as records;
ghost use Rattle.season_running.specs.Standing.{Plays};

use crate::listing::one;
use crate::parts::{
    cup_slots, deed_slots, entry_slots, fact_slots, key_slots, league_slots, player_slots,
    season_slots,
};
use fpl_base::{Caller, Memory};
use season_book::{Command, Part};
use season_records::Slot;
use season_running::RunningSeason;
use std::alloc::Global;

/// The slots that a command of a caller may change, in the season before it: the caller's last command first. It takes
/// memory.
pub fn touched(
    alloc: Global,
    running: &RunningSeason,
    caller: &Caller,
    command: &Command,
) -> Result<Vec<Slot>, Memory>
    requires { IsCommand command.now }
    ensures { (book : Book) → Plays running.now book
        → IfOk result (λ slots. slots.items ≡ records.touched book caller.now command.now) }
{
    let number = number_of(caller);
    match command.part() {
        Part::Facts => fact_slots(alloc, running.season(), number, command),
        Part::Players => player_slots(alloc, number, command),
        Part::Entries => entry_slots(alloc, running.managers(), number, command),
        Part::Keys => key_slots(alloc, number, command),
        Part::Deeds => deed_slots(alloc, running.season(), running.managers(), number, command),
        Part::Leagues => league_slots(alloc, running.leagues(), number, command),
        Part::Cups => cup_slots(alloc, running.cups(), number, command),
    }
}

/// The slots that the command may change that begins a season, where there is none yet. It takes memory.
pub fn touched_first(alloc: Global, caller: &Caller, command: &Command) -> Result<Vec<Slot>, Memory>
    ensures { (book : Book) → IsSome (begun_by command.now)
        → IfOk result (λ slots. slots.items ≡ records.touched book caller.now command.now) }
{
    let last = Slot::Last(number_of(caller));
    match command {
        Command::Season { clubs, .. } => season_slots(alloc, last, clubs),
        _ => one(alloc, last),
    }
}

// The number of a caller.
fn number_of(caller: &Caller) -> u32
    ensures { result ≡ caller_number caller.now }
{
    match caller {
        Caller::Operator => 0,
        Caller::Entry(entry) => entry.get(),
    }
}
