// The transfers that records tell of an entry.
ghost use Rattle.std.specs.Prelude.{◌≡◌, ◌++◌, IfOk, OnOk};
ghost use Rattle.fpl_base.specs.Keeping.{map_of};
ghost use Rattle.manager_book.specs.Calls.{with_gameweek};
ghost use Rattle.stored_records.specs.EntryTold.{sale_told};
ghost use Rattle.stored_records.specs.Sequels.{sales_told};
ghost use Rattle.season_restoring.specs.Restoring.{AddsSale, entry_sales_told};

use crate::entry_teams::gameweek;
use fpl_base::{EntryId, Gw, Memory};
use rule_book::Sale;
use std::alloc::Global;
use stored_records::{Stored, sale_of};

// A gameweek has at most so many transfers.
const MOST_SALES: u32 = 1000;

// Adds the transfer of a number, where there is one; whether there is.
fn add_sale(
    stored: &Stored,
    entry: EntryId,
    gameweek: Gw,
    number: u32,
    sales: &mut Vec<(Gw, Sale)>,
) -> Result<bool, Memory>
    ensures { IfOk result (λ there.
        AddsSale gameweek (sale_told (map_of stored.now) entry gameweek number) there sales.old.items sales.new.items) }
{
    match sale_of(stored, entry, gameweek, number) {
        Some(sale) => {
            if sales.push((gameweek, sale)).is_err() {
                return Err(Memory);
            }
            Ok(true)
        }
        None => Ok(false),
    }
}

// Adds the transfers of a gameweek, in the order of their numbers.
fn add_sales(
    stored: &Stored,
    entry: EntryId,
    gameweek: Gw,
    sales: &mut Vec<(Gw, Sale)>,
) -> Result<(), Memory>
    ensures { OnOk result
        (sales.new.items
        ≡ sales.old.items
        ++ with_gameweek gameweek (sales_told (map_of stored.now) entry gameweek)) }
{
    for number in 1..MOST_SALES + 1 {
        if !add_sale(stored, entry, gameweek, number, sales)? {
            return Ok(());
        }
    }
    Ok(())
}

/// The transfers of an entry by ascending gameweek, and there in the order of their numbers.
pub(crate) fn sales_of(
    alloc: Global,
    stored: &Stored,
    entry: EntryId,
) -> Result<Vec<(Gw, Sale)>, Memory>
    ensures { IfOk result (λ sales. sales.items ≡ entry_sales_told (map_of stored.now) entry) }
{
    let mut sales = Vec::new(alloc);
    for number in 1..39u8 {
        add_sales(stored, entry, gameweek(number), &mut sales)?;
    }
    Ok(sales)
}
