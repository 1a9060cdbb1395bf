// The entries that records tell, each with its teams and transfers.
ghost use Rattle.std.specs.Prelude.{◌≡◌, ◌+◌, ℕ, IfOk, None, length};
ghost use Rattle.std.specs.List.{AllByRecursion as Each};
ghost use Rattle.std.specs.Option.{option_and_then, option_map};
ghost use Rattle.fpl_base.specs.Keeping.{map_of};
ghost use Rattle.season_records.specs.declared.slot.Slot.TheVariants as slot;
ghost use Rattle.rule_book.specs.Entries.{entry_in};
ghost use Rattle.season_book.specs.Book.{Facts};
ghost use Rattle.stored_records.specs.Stored.{told};
ghost use Rattle.store_validation.specs.Lawful.{judged};
ghost use Rattle.season_entries.specs.EntryLaws.{AreEarly};
ghost use Rattle.season_records.specs.Records.{told_in};
ghost use Rattle.record_changes.specs.Ordered.{IsManagerInOrder};
ghost use Rattle.record_changes.specs.RowsTold.{manager_item, team_by, transfer_by};
ghost use Rattle.season_restoring.specs.Restoring.{ArePlayersTold, AreRestored, EndsAt, HasIssued, IsTold, parts_of};

use crate::entry_sales::sales_of;
use crate::entry_teams::teams_of;
use fpl_base::{EntryId, Gw, Key, Memory, Name, Profile};
use manager_book::ManagerBook;
use player_market::Players;
use season_records::{Item, Slot};
use std::alloc::Global;
use stored_records::Stored;

// So many entries are in a season at most.
const MOST_ENTRIES: u32 = 2048;

/// What the record of an entry tells: its first gameweek, its key and its manager's name.
#[derive(Drop)]
pub(crate) struct Parts {
    pub(crate) first: Option<Gw>,
    pub(crate) key: Key,
    pub(crate) name: Name,
}

// Makes the next entry, of which a record tells this, with its teams and transfers.
fn restore(
    alloc: Global,
    stored: &Stored,
    players: &Players,
    entry: EntryId,
    first: Option<Gw>,
    key: Key,
    name: Name,
    book: &mut ManagerBook,
) -> Result<(), Memory>
    requires lawful { judged stored.now ≡ None }
    requires players { ArePlayersTold players.now (map_of stored.now) }
    requires restored { AreRestored (map_of stored.now) players.now book.old.managers }
    requires next { entry ≡ length book.old.managers + 1 }
    requires told { IsTold (map_of stored.now) entry first key name }
    ensures profile { IfOk result (λ done. book.new.profile ≡ book.old.profile) }
    ensures count { IfOk result (λ done. length book.new.managers ≡ length book.old.managers + 1) }
    ensures restored { IfOk result
        (λ done. AreRestored (map_of stored.now) players.now book.new.managers) }
{
    let teams = teams_of(alloc, stored, players, entry)?;
    let sales = sales_of(alloc, stored, entry)?;
    book.restore(key, name, first, teams.as_slice(), sales.as_slice())
}

// What the record of an entry tells.
fn parts_of(item: Option<&Item>) -> Result<Option<Parts>, Memory>
    ensures { IfOk result (λ parts. parts ≡ parts_of (option_map (λ item. item.now) item.entry)) }
{
    match item {
        Some(
            Item::Entry {
                first,
                key,
                name,
                ..
            },
        ) => Ok(Some(Parts {
            first: *first,
            key: key.copy()?,
            name: name.copy()?,
        })),
        _ => Ok(None),
    }
}

// Makes the next entry, where there is one; whether there is.
fn restore_next(
    alloc: Global,
    stored: &Stored,
    players: &Players,
    book: &mut ManagerBook,
) -> Result<bool, Memory>
    requires lawful { judged stored.now ≡ None }
    requires players { ArePlayersTold players.now (map_of stored.now) }
    requires restored { AreRestored (map_of stored.now) players.now book.old.managers }
    ensures profile { IfOk result (λ there. book.new.profile ≡ book.old.profile) }
    ensures restored { IfOk result
        (λ there. AreRestored (map_of stored.now) players.now book.new.managers) }
    ensures goes { IfOk result
        (λ there. HasIssued (map_of stored.now) there (length book.old.managers)
        (length book.new.managers)) }
{
    let Some(entry) = EntryId::new(book.entries() + 1) else {
        unreachable!();
    };
    match parts_of(stored.item(Slot::Entry(entry.get())))? {
        Some(Parts { first, key, name }) => {
            restore(alloc, stored, players, entry, first, key, name, book)?;
            Ok(true)
        }
        None => Ok(false),
    }
}

// Makes all entries.
fn restored(
    alloc: Global,
    stored: &Stored,
    profile: Profile,
    players: &Players,
) -> Result<ManagerBook, Memory>
    requires lawful { judged stored.now ≡ None }
    requires players { ArePlayersTold players.now (map_of stored.now) }
    ensures profile { IfOk result (λ book. book.profile ≡ profile) }
    ensures restored { IfOk result
        (λ book. AreRestored (map_of stored.now) players.now book.managers) }
    ensures all { IfOk result (λ book. EndsAt (map_of stored.now) (length book.managers)) }
{
    let mut book = ManagerBook::new(alloc, profile);
    'entries: for _ in 0..MOST_ENTRIES {
        if !restore_next(alloc, stored, players, &mut book)? {
            return Ok(book);
        }
    }
    Ok(book)
}

/// The entries that lawful records tell, by number from 1, each with its key, its name, its teams and its transfers. The
/// players are those that the records tell; each one of a team has his position.
pub fn managers_of(
    alloc: Global,
    stored: &Stored,
    profile: Profile,
    players: &Players,
) -> Result<ManagerBook, Memory>
    requires lawful { judged stored.now ≡ None }
    requires players { ArePlayersTold players.now (map_of stored.now) }
    ensures profile { IfOk result (λ book. book.profile ≡ profile) }
    ensures entries { IfOk result (λ book. (e : ℕ) →
        option_map (manager_item e) (entry_in book.managers e)
        ≡ told (map_of stored.now) (slot.Entry e)) }
    ensures teams { IfOk result (λ book. (e g : ℕ) →
        option_and_then (team_by e g) (entry_in book.managers e)
        ≡ told (map_of stored.now) (slot.Team e g)) }
    ensures transfers { IfOk result (λ book. (e g n : ℕ) →
        option_and_then (transfer_by e g n) (entry_in book.managers e)
        ≡ told (map_of stored.now) (slot.Transfer e g n)) }
    ensures ordered { IfOk result (λ book. Each (IsManagerInOrder players.now) book.managers) }
    ensures early { IfOk result (λ book. (facts : Facts) →
        told_in facts slot.Season ≡ told (map_of stored.now) slot.Season
        → AreEarly facts book.managers) }
{
    Ok(restored(alloc, stored, profile, players)?)
}
