// What is committed of the entries.
ghost use Rattle.std.specs.Prelude.{◌≡◌, Some, IfOk, IfSome, map, option_copied, slice_get};
ghost use Rattle.std.specs.Option.{option_map, option_and_then};
ghost use Rattle.rule_book.specs.Entries.{entry_in};
ghost use Rattle.rule_book.specs.EntryRecords.{sales_in};
ghost use Rattle.season_records.specs.declared.slot.Slot.TheVariants as slot;
ghost use Rattle.season_records.specs.Records.{pick_told, team_item};
ghost use Rattle.record_changes.specs.Batches.{Keeps};
ghost use Rattle.record_changes.specs.RowsTold.{manager_item, team_by, transfer_by};

use crate::changes::{delete, price_told, put};
use fpl_base::{EntryId, Gw, Memory, Op, PlayerId};
use manager_book::{Manager, ManagerBook};
use rule_book::{Pick, Sale, Team};
use season_records::{Item, Slot};
use std::alloc::Global;

// Of an entry.
pub fn entry_op(alloc: Global, managers: &ManagerBook, entry: u32) -> Result<Op, Memory>
    ensures { IfOk result
        (Keeps (slot.Entry entry)
        (option_map (manager_item entry) (entry_in managers.now.managers entry))) }
{
    match EntryId::new(entry) {
        Some(id) => match managers.manager(id) {
            Some(manager) => put_entry(alloc, id, manager),
            None => Ok(delete(Slot::Entry(entry))),
        },
        None => Ok(delete(Slot::Entry(entry))),
    }
}

fn put_entry(alloc: Global, entry: EntryId, manager: &Manager) -> Result<Op, Memory>
    ensures { IfOk result (Keeps (slot.Entry entry) (Some (manager_item entry manager.now))) }
{
    let item = Item::Entry {
        entry,
        first: manager.season.first(),
        key: manager.key.copy()?,
        name: manager.name.copy()?,
    };
    put(alloc, &item)
}

// Of the team of an entry in a gameweek.
pub fn team_op(
    alloc: Global,
    managers: &ManagerBook,
    entry: u32,
    gameweek: u32,
) -> Result<Op, Memory>
    ensures { IfOk result
        (Keeps (slot.Team entry gameweek)
        (option_and_then (team_by entry gameweek) (entry_in managers.now.managers entry))) }
{
    match EntryId::new(entry) {
        Some(id) => match managers.manager(id) {
            Some(manager) => team_of(alloc, id, manager, gameweek),
            None => Ok(delete(Slot::Team(entry, gameweek))),
        },
        None => Ok(delete(Slot::Team(entry, gameweek))),
    }
}

fn team_of(alloc: Global, entry: EntryId, manager: &Manager, gameweek: u32) -> Result<Op, Memory>
    ensures { IfOk result (Keeps (slot.Team entry gameweek) (team_by entry gameweek manager.now)) }
{
    match manager.season.row(gameweek) {
        Some(row) => put_team(alloc, entry, row.gw, &row.standing.team),
        None => Ok(delete(Slot::Team(entry.get(), gameweek))),
    }
}

fn put_team(alloc: Global, entry: EntryId, gameweek: Gw, team: &Team) -> Result<Op, Memory>
    ensures { IfOk result
        (Keeps (slot.Team entry gameweek) (Some (team_item entry gameweek team.now))) }
{
    let item = Item::Team {
        entry,
        gameweek,
        picks: picks_told(&team.picks)?,
        captain: team.captain,
        vice: team.vice,
        bank: team.bank.get(),
        chip: team.chip,
    };
    put(alloc, &item)
}

// The players of a team with their prices.
fn picks_told(picks: &[Pick; 15]) -> Result<[(PlayerId, u16); 15], Memory>
    ensures { IfOk result (λ told. told ≡ map pick_told picks.now) }
{
    let mut told = [pick_told(&picks[0])?; 15];
    for place in 0..15usize {
        told[place] = pick_told(&picks[place])?;
    }
    Ok(told)
}

fn pick_told(pick: &Pick) -> Result<(PlayerId, u16), Memory>
    ensures { IfOk result (λ told. told ≡ pick_told pick.now) }
{
    let bought = price_told(pick.bought)?;
    Ok((pick.player, bought))
}

// Of a transfer of an entry in a gameweek.
pub fn transfer_op(
    alloc: Global,
    managers: &ManagerBook,
    entry: u32,
    gameweek: u32,
    number: u32,
) -> Result<Op, Memory>
    ensures { IfOk result
        (Keeps (slot.Transfer entry gameweek number)
        (option_and_then (transfer_by entry gameweek number)
        (entry_in managers.now.managers entry))) }
{
    match EntryId::new(entry) {
        Some(id) => match managers.manager(id) {
            Some(manager) => transfer_of(alloc, id, manager, gameweek, number),
            None => Ok(delete(Slot::Transfer(entry, gameweek, number))),
        },
        None => Ok(delete(Slot::Transfer(entry, gameweek, number))),
    }
}

fn transfer_of(
    alloc: Global,
    entry: EntryId,
    manager: &Manager,
    gameweek: u32,
    number: u32,
) -> Result<Op, Memory>
    ensures { IfOk result
        (Keeps (slot.Transfer entry gameweek number)
        (transfer_by entry gameweek number manager.now)) }
{
    let slot = Slot::Transfer(entry.get(), gameweek, number);
    if number == 0 {
        return Ok(delete(slot));
    }
    match sale_at(manager.sales.as_slice(), gameweek, number - 1) {
        Some(made) => {
            let item = Item::Transfer {
                entry,
                gameweek: made.0,
                number,
                out: made.1.out,
                into: made.1.into,
                sold: price_told(made.1.sold)?,
                bought: price_told(made.1.bought)?,
            };
            put(alloc, &item)
        }
        None => Ok(delete(slot)),
    }
}

// The sale of a gameweek behind so many others of it.
fn sale_at(sales: &[(Gw, Sale)], gameweek: u32, others: u32) -> Option<&(Gw, Sale)>
    ensures gameweek { IfSome result (λ made. made.now.0 ≡ gameweek) }
    ensures sale { option_map (λ made. made.1) (option_copied result)
        ≡ slice_get (sales_in sales.now gameweek) others }
{
    let mut left = others;
    for made in sales {
        if u32::from(made.0.get()) == gameweek {
            if left == 0 {
                return Some(made);
            }
            left -= 1;
        }
    }
    None
}
