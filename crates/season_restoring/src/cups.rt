// The cups of a season.
ghost use Rattle.std.specs.Prelude.{◌≡◌, ◌<◌, ◌+◌, ◌++◌, [], ◌∷◌, ℕ, IfOk, None, OnOk, length};
ghost use Rattle.std.specs.Option.{option_map};
ghost use Rattle.leagues_and_cups.specs.Shapes.{HasShape};
ghost use Rattle.fpl_base.specs.Keeping.{KeysRise, Map, applied_one, map_of};
ghost use Rattle.fpl_base.specs.declared.records.Op.TheVariants as op;
ghost use Rattle.season_records.specs.declared.slot.Slot.TheVariants as slot;
ghost use Rattle.rule_book.specs.CupCalls.{most_cups};
ghost use Rattle.rule_book.specs.Entries.{entry_in};
ghost use Rattle.stored_records.specs.Stored.{told};
ghost use Rattle.store_validation.specs.Lawful.{judged};
ghost use Rattle.season_records.specs.Records.{cup_item};
ghost use Rattle.season_restoring.specs.CupRows.{IsCupRow, TellsCups};

use crate::league_parts::of_kind;
use fpl_base::{Memory, Refused};
use leagues_and_cups::Cups;
use rule_book::Bracket;
use season_records::Item;
use std::alloc::Global;
use stored_records::Kept;

// The kind of a record of a cup.
const CUP: u8 = 11;

/// The cups that lawful records tell, by number from 1.
pub fn cups_of(alloc: Global, rows: &[Kept]) -> Result<Cups, Memory>
    requires rise { KeysRise rows.now }
    requires lawful { judged rows.now ≡ None }
    ensures { IfOk result
        (λ cups. (c : ℕ)
        → option_map (cup_item c) (entry_in cups c) ≡ told (map_of rows.now) (slot.Cup c)) }
{
    let mut cups = Cups::new(alloc);
    for row in of_kind(rows, CUP) {
        add_cup(row, &mut cups)?;
    }
    Ok(cups)
}

// Adds the cup that a record tells of behind the others.
fn add_cup(row: &Kept, cups: &mut Cups) -> Result<(), Memory>
    requires room { length cups.old < most_cups }
    requires row { IsCupRow (length cups.old + 1) row.now.0 row.now.1 }
    ensures told { OnOk result
        ((m : Map) → TellsCups m cups.old
        → TellsCups (applied_one m (op.Put row.now.0 row.now.1)) cups.new) }
    ensures one_more { OnOk result (length cups.new ≡ length cups.old + 1) }
{
    match row.item() {
        Some(
            Item::Cup {
                start,
                slots,
                coins,
                ..
            },
        ) => {
            let cup = Bracket {
                start: *start,
                slots: slots.copy()?,
                coins: coins.copy()?,
            };
            put_cup(cups, cup)
        }
        _ => Ok(()),
    }
}

// Puts a cup behind the others, which are fewer than there can be.
fn put_cup(cups: &mut Cups, cup: Bracket) -> Result<(), Memory>
    requires room { length cups.old < most_cups }
    requires shape { HasShape cup }
    ensures { OnOk result (cups.new ≡ cups.old ++ cup ∷ []) }
{
    match cups.add(cup) {
        Ok(_) => Ok(()),
        Err(Refused::Memory) => Err(Memory),
        Err(Refused::Rule(_)) => unreachable!(),
    }
}
