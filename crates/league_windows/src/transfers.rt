// The transfers of an entry in some gameweeks, the latest first.
ghost use Rattle.std.specs.Prelude.{◌≡◌, ◌<◌, ◌==◌, [], if◌then◌else◌, map, reverse};
ghost use Rattle.json_members.specs.Tokens.{Appends, tokens_of};
ghost use Rattle.rule_book.specs.EntryRecords.{sales_in};
ghost use Rattle.rule_book.specs.Totals.{gameweeks};
ghost use Rattle.season_book.specs.Windows.{listed};
ghost use Rattle.league_windows.specs.RowTokens.{row_tokens};
ghost use Rattle.season_book.specs.TransfersWindow.{latest_of, transfer_row};

use fpl_base::{EntryId, Gw};
use json::Writer;
use json_members::write_count;
use rule_book::Sale;
use std::alloc::AllocError;

// Writes the transfers of some gameweeks, the latest first. Each gameweek is looked for among all transfers, which are few
// beside what is written of them.
pub fn write_latest(
    out: &mut Writer,
    entry: EntryId,
    from: u8,
    to: u8,
    sales: &[(Gw, Sale)],
) -> Result<(), AllocError>
    requires { to < 255 }
    ensures { Appends result out.old out.new
        (tokens_of (listed (transfer_row entry) (latest_of (sales_in sales.now) (gameweeks from to)))) }
{
    out.begin_array()?;
    let count = (to + 1).saturating_sub(from);
    for behind in 0..count {
        write_gameweek(out, entry, to - behind, sales)?;
    }
    out.end_array()
}

// Writes the transfers of a gameweek, the latest first.
fn write_gameweek(
    out: &mut Writer,
    entry: EntryId,
    gameweek: u8,
    sales: &[(Gw, Sale)],
) -> Result<(), AllocError>
    ensures { Appends result out.old out.new
        (row_tokens (transfer_row entry)
        (reverse (map (λ sale. (gameweek, sale)) (sales_in sales.now gameweek)))) }
{
    let count = sales.len();
    for behind in 0..count {
        write_if_made(out, entry, gameweek, &sales[count - 1 - behind])?;
    }
    Ok(())
}

// Writes a transfer, where it was made in the gameweek.
fn write_if_made(
    out: &mut Writer,
    entry: EntryId,
    gameweek: u8,
    sold: &(Gw, Sale),
) -> Result<(), AllocError>
    ensures { Appends result out.old out.new
        (if sold.now.0 == gameweek then tokens_of (transfer_row entry (gameweek, sold.now.1)) else []) }
{
    if sold.0.get() == gameweek {
        write_transfer(out, entry, gameweek, &sold.1)
    } else {
        Ok(())
    }
}

fn write_transfer(
    out: &mut Writer,
    entry: EntryId,
    gameweek: u8,
    sale: &Sale,
) -> Result<(), AllocError>
    ensures { Appends result out.old out.new (tokens_of (transfer_row entry (gameweek, sale.now))) }
{
    out.begin_object()?;
    write_count(out, "element_in", u64::from(sale.into.get()))?;
    write_count(out, "element_in_cost", u64::from(sale.bought.get()))?;
    write_count(out, "element_out", u64::from(sale.out.get()))?;
    write_count(out, "element_out_cost", u64::from(sale.sold.get()))?;
    write_count(out, "entry", u64::from(entry.get()))?;
    write_count(out, "event", u64::from(gameweek))?;
    out.end_object()
}
