// The last command of each caller.
ghost use Rattle.std.specs.Prelude.{◌≡◌, ℕ, IfOk, None, OnOk, Some};
ghost use Rattle.std.specs.Option.{option_map};
ghost use Rattle.fpl_base.specs.Keeping.{KeysRise, Map, applied_one, map_of};
ghost use Rattle.fpl_base.specs.declared.records.Op.TheVariants as op;
ghost use Rattle.season_records.specs.declared.slot.Slot.TheVariants as slot;
ghost use Rattle.rule_book.specs.ById.{AreSorted, at_id};
ghost use Rattle.season_book.specs.Book.{Last, caller_number};
ghost use Rattle.season_book.specs.Commands.{IsCommand};
ghost use Rattle.stored_records.specs.Stored.{told};
ghost use Rattle.store_validation.specs.Lawful.{judged};
ghost use Rattle.season_records.specs.Records.{last_item, made_id};
ghost use Rattle.season_records.specs.Told.{made_by};
ghost use Rattle.season_restoring.specs.LastCommands.{AreLasts, CanMake, IsLastRow};

use crate::league_parts::of_kind;
use fpl_base::{Caller, CupId, EntryId, LeagueId, Memory};
use season_book::{Command, Made};
use season_records::Item;
use season_running::{LastCommand, Lasts};
use std::alloc::Global;
use stored_records::Kept;

// The kind of a record of a last command.
const LAST: u8 = 12;

/// The last command of each caller of whom lawful records tell one.
pub fn lasts_of(alloc: Global, rows: &[Kept]) -> Result<Lasts, Memory>
    requires rise { KeysRise rows.now }
    requires lawful { judged rows.now ≡ None }
    ensures told { IfOk result
        (λ lasts. (c : ℕ)
        → option_map (last_item c) (at_id lasts c) ≡ told (map_of rows.now) (slot.Last c)) }
    ensures sorted { IfOk result (λ lasts. AreSorted lasts) }
    ensures makes { IfOk result
        (λ lasts. (c : ℕ) (last : Last) → at_id lasts c ≡ Some last
        → last.made ≡ made_by last.command (made_id last.made)) }
    ensures commands { IfOk result
        (λ lasts. (c : ℕ) (last : Last) → at_id lasts c ≡ Some last → IsCommand last.command) }
{
    let mut lasts = Lasts::new(alloc);
    for row in of_kind(rows, LAST) {
        put_last(row, &mut lasts)?;
    }
    Ok(lasts)
}

// Puts what the record of a last command tells of in its caller's place.
fn put_last(row: &Kept, lasts: &mut Lasts) -> Result<(), Memory>
    requires { IsLastRow row.now.0 row.now.1 }
    ensures { OnOk result
        ((m : Map) → AreLasts m lasts.old
        → AreLasts (applied_one m (op.Put row.now.0 row.now.1)) lasts.new) }
{
    match row.item() {
        Some(
            Item::Last {
                caller,
                number,
                made,
                command,
                ..
            },
        ) => {
            let last = LastCommand::new(*number, command.copy()?, made_of(command, *made));
            lasts.put(&caller_of(*caller), last)?;
            Ok(())
        }
        _ => Ok(()),
    }
}

// The caller of a number: 0 is the operator.
fn caller_of(number: u32) -> Caller
    ensures { caller_number result ≡ number }
{
    match EntryId::new(number) {
        Some(entry) => Caller::Entry(entry),
        None => Caller::Operator,
    }
}

// What a command made, under its id.
fn made_of(command: &Command, id: u32) -> Made
    requires { CanMake command.now id }
    ensures { result ≡ made_by command.now id }
{
    match command {
        Command::Key { .. } => match EntryId::new(id) {
            Some(entry) => Made::Entry(entry),
            None => Made::Nothing,
        },
        Command::League { .. } => match LeagueId::new(id) {
            Some(league) => Made::League(league),
            None => Made::Nothing,
        },
        Command::Cup { .. } => match CupId::new(id) {
            Some(cup) => Made::Cup(cup),
            None => Made::Nothing,
        },
        _ => Made::Nothing,
    }
}
