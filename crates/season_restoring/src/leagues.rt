// The leagues of a season.
ghost use Rattle.std.specs.Prelude.{◌≡◌, ◌<◌, ◌≤◌, ◌+◌, ℕ, AllPairs, IfOk, None, Some, length};
ghost use Rattle.std.specs.Option.{option_and_then, option_map};
ghost use Rattle.fpl_base.specs.Keeping.{KeysRise, map_of};
ghost use Rattle.season_records.specs.declared.item.Item.TheVariants as item;
ghost use Rattle.season_records.specs.declared.slot.Slot.TheVariants as slot;
ghost use Rattle.rule_book.specs.Entries.{entry_in};
ghost use Rattle.rule_book.specs.Leagues.{LeagueFacts};
ghost use Rattle.stored_records.specs.Stored.{told};
ghost use Rattle.store_validation.specs.Lawful.{judged};
ghost use Rattle.season_competitions.specs.Leagues.{AreMembers};
ghost use Rattle.season_records.specs.Records.{league_item, member_told};
ghost use Rattle.season_restoring.specs.LeagueRestoring.{AreLeaguesRestored, GoesOn, IsLeagueRestored, IsMadeOf, LeaguesEnd};

use crate::league_members::members_of;
use fpl_base::{Code, EntryId, Gw, LeagueId, Memory, Name};
use leagues_and_cups::{League, Leagues};
use rule_book::LeagueKind;
use season_book::Order;
use season_records::{Item, Slot};
use std::alloc::Global;
use stored_records::Stored;

// So many leagues are in a season at most.
const MOST_LEAGUES: u32 = 512;

// The league of which a record tells this, with its members.
fn league_of(
    alloc: Global,
    stored: &Stored,
    number: LeagueId,
    kind: LeagueKind,
    start: Gw,
    creator: EntryId,
    order: &Order,
    code: &Code,
    name: &Name,
) -> Result<League, Memory>
    requires rise { KeysRise stored.now }
    requires lawful { judged stored.now ≡ None }
    requires told { told (map_of stored.now) (slot.League number)
        ≡ Some (item.League number kind start creator order.now code.now name.now) }
    ensures { IfOk result (λ league. IsLeagueRestored stored.now number league) }
{
    let members = members_of(alloc, stored, number)?;
    Ok(League::restore(
        kind,
        name.copy()?,
        code.copy()?,
        start,
        creator,
        members,
        order.copy()?,
    ))
}

// The league of its record's item, with its members.
fn made_of(
    alloc: Global,
    stored: &Stored,
    number: LeagueId,
    item: Option<&Item>,
) -> Result<Option<League>, Memory>
    requires rise { KeysRise stored.now }
    requires lawful { judged stored.now ≡ None }
    requires told { option_map (λ item. item.now) item
        ≡ told (map_of stored.now) (slot.League number) }
    ensures { IfOk result
        (λ made. IsMadeOf stored.now number (option_map (λ item. item.now) item.entry) made) }
{
    match item {
        Some(
            Item::League {
                kind,
                start,
                creator,
                order,
                code,
                name,
                ..
            },
        ) => Ok(Some(league_of(
            alloc, stored, number, *kind, *start, *creator, order, code, name,
        )?)),
        _ => Ok(None),
    }
}

// The league of this number.
fn numbered(number: u32) -> LeagueId
    requires { 1 ≤ number }
    ensures { result ≡ number }
{
    LeagueId::new(number).unwrap()
}

// These leagues and the next one, of which there is a record.
fn with_next(alloc: Global, stored: &Stored, book: Leagues) -> Result<Leagues, Memory>
    requires rise { KeysRise stored.now }
    requires lawful { judged stored.now ≡ None }
    requires restored { AreLeaguesRestored stored.now book }
    requires there { GoesOn stored.now (length book) }
    ensures count { IfOk result (λ more. length more ≡ length book + 1) }
    ensures restored { IfOk result (λ more. AreLeaguesRestored stored.now more) }
{
    let next = numbered(book.count() + 1);
    let item = stored.item(Slot::League(next.get()));
    match made_of(alloc, stored, next, item)? {
        Some(league) => book.restore(league),
        None => unreachable!(),
    }
}

// All leagues.
fn restored(alloc: Global, stored: &Stored) -> Result<Leagues, Memory>
    requires rise { KeysRise stored.now }
    requires lawful { judged stored.now ≡ None }
    ensures restored { IfOk result (λ book. AreLeaguesRestored stored.now book) }
    ensures all { IfOk result (λ book. LeaguesEnd stored.now (length book)) }
{
    let mut book = Leagues::new(alloc);
    'leagues: for _ in 0..MOST_LEAGUES {
        if !stored.has(Slot::League(book.count() + 1)) {
            return Ok(book);
        }
        book = with_next(alloc, stored, book)?;
    }
    Ok(book)
}

/// The leagues that lawful records tell, by number from 1, each with its members.
pub fn leagues_of(alloc: Global, stored: &Stored) -> Result<Leagues, Memory>
    requires rise { KeysRise stored.now }
    requires lawful { judged stored.now ≡ None }
    ensures leagues { IfOk result
        (λ book. (l : ℕ)
        → option_map (league_item l) (entry_in book l) ≡ told (map_of stored.now) (slot.League l)) }
    ensures members { IfOk result
        (λ book. (l e : ℕ)
        → option_and_then (member_told l e) (entry_in book l)
        ≡ told (map_of stored.now) (slot.Member l e)) }
    ensures ordered { IfOk result
        (λ book. (l : ℕ) (league : LeagueFacts) → entry_in book l ≡ Some league
        → AllPairs (λ m n. m < n) league.members) }
    ensures entries { IfOk result
        (λ book. (n : ℕ)
        → ((e : ℕ) (i : Item) → told (map_of stored.now) (slot.Entry e) ≡ Some i → e ≤ n)
        → AreMembers n book) }
{
    Ok(restored(alloc, stored)?)
}
