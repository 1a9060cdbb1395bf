// Readers of the lists that commands hold.
ghost use Rattle.std.specs.Prelude.{All, ◌≡◌, ◌≤◌, ◌==◌, ◌&&◌, IfOk, Result, length, nat_le};
ghost use Rattle.std.specs.List.{list_any};
ghost use Rattle.season_book.specs.Commands.{club_ids};
ghost use Rattle.rule_book.specs.Ranks.{AllDiffer};
ghost use Rattle.fpl_requests.specs.declared.field.FieldName.{FieldName};
ghost use Rattle.fpl_requests.specs.declared.field.FieldName.TheVariants as field;
ghost use Rattle.fpl_requests.specs.Members.{Gives, GivesItems, each, entry, last_moment, under};
ghost use Rattle.fpl_requests.specs.Requests.{club, clubs, coins, deadlines, differ, fifteen, line, lines, order, player_line, slots, swap, swaps};
ghost use Rattle.json_tree.specs.Trees.{seen, view};

use crate::members::{
    club_id, drawn_entry, entry, items, moment_entry, player_entry, player_id, title, wrong,
};
use crate::{FieldName, ReadFault};
use fpl_base::{ClubId, Name, PlayerId};
use json_tree::{Items, Tree};
use rule_book::{Line, Swap};
use season_book::{Clubs, Coins, Lines, Moments, Order, Slots, Swaps};
use std::alloc::Global;

// Whatever is wrong inside of a list, the list is named.
fn under<T: Drop>(read: Result<T, ReadFault>, list: FieldName) -> Result<T, ReadFault>
    ensures { (given : Result T FieldName) → Gives read given → Gives result (under list given) }
{
    match read {
        Ok(value) => Ok(value),
        Err(ReadFault::Memory) => Err(ReadFault::Memory),
        Err(ReadFault::Malformed { field: _ }) => Err(wrong(list)),
    }
}

fn is_long(count: usize, low: usize, high: usize) -> bool
    ensures { result ≡ (nat_le low count && nat_le count high) }
{
    low <= count && count <= high
}

/// The deadlines of a season.
pub(crate) fn deadlines(alloc: Global, value: &Tree<'_, '_>) -> Result<Moments, ReadFault>
    ensures gives { Gives result (deadlines (view value.now)) }
    ensures long { IfOk result (λ ms. (1 ≤ length ms) × (length ms ≤ 38)) }
{
    let values = items(value, FieldName::Deadlines)?;
    let list = under(each_moment(alloc, values), FieldName::Deadlines)?;
    if is_long(list.as_slice().len(), 1, 38) {
        Ok(list)
    } else {
        Err(wrong(FieldName::Deadlines))
    }
}

fn each_moment(alloc: Global, values: Items<'_, '_>) -> Result<Moments, ReadFault>
    ensures { Gives result (each (entry field.Deadlines 0 last_moment) (seen values.entry)) }
{
    let mut list = Moments::new(alloc);
    let mut rest = values;
    while let Some(value) = rest.next_number() {
        let one = moment_entry(value, FieldName::Deadlines)?;
        list.push(one)?;
    }
    Ok(list)
}

/// The clubs of a season.
pub(crate) fn clubs(alloc: Global, value: &Tree<'_, '_>) -> Result<Clubs, ReadFault>
    ensures gives { Gives result (clubs (view value.now)) }
    ensures long { IfOk result (λ cs. (1 ≤ length cs) × (length cs ≤ 20)) }
    ensures differ { IfOk result (λ cs. AllDiffer (club_ids cs)) }
{
    let values = items(value, FieldName::Clubs)?;
    let list = under(each_club(alloc, values), FieldName::Clubs)?;
    if is_long(list.as_slice().len(), 1, 20) && differ(list.as_slice()) {
        Ok(list)
    } else {
        Err(wrong(FieldName::Clubs))
    }
}

fn each_club(alloc: Global, values: Items<'_, '_>) -> Result<Clubs, ReadFault>
    ensures { Gives result (each club (seen values.entry)) }
{
    let mut list = Clubs::new(alloc);
    let mut rest = values;
    while let Some(value) = rest.next() {
        let one = club(alloc, &value)?;
        list.push(one)?;
    }
    Ok(list)
}

fn club(alloc: Global, value: &Tree<'_, '_>) -> Result<(ClubId, Name), ReadFault>
    ensures { Gives result (club (view value.now)) }
{
    let id = club_id(value, FieldName::Id)?;
    let name = title(alloc, value, FieldName::Name)?;
    Ok((id, name))
}

// No id stands twice.
fn differ(clubs: &[(ClubId, Name)]) -> bool
    ensures { result ≡ differ (club_ids clubs.now) }
{
    match clubs {
        [] => true,
        [first, rest @ ..] => !has_id(rest, first.0) && differ(rest),
    }
}

fn has_id(clubs: &[(ClubId, Name)], id: ClubId) -> bool
    ensures { result ≡ list_any (λ y. y == id) (club_ids clubs.now) }
{
    for club in clubs {
        if club.0 == id {
            return true;
        }
    }
    false
}

/// A player with his figures.
pub(crate) fn player_line(
    alloc: Global,
    value: &Tree<'_, '_>,
) -> Result<(PlayerId, Line), ReadFault>
    ensures { Gives result (player_line (view value.now)) }
{
    let player = player_id(value, FieldName::Player)?;
    let line = line(alloc, value)?;
    Ok((player, line))
}

#[tactic(auto, using(crate::proofs::EntryLemmas::under_entry))]
fn line(alloc: Global, value: &Tree<'_, '_>) -> Result<Line, ReadFault>
    ensures { Gives result (line (view value.now)) }
{
    let values = items(value, FieldName::Figures)?;
    let list = each_figure(alloc, values)?;
    match <[u16; 28]>::try_from(list.as_slice()) {
        Ok(figures) => Ok(Line { figures }),
        Err(_) => Err(wrong(FieldName::Figures)),
    }
}

fn each_figure(alloc: Global, values: Items<'_, '_>) -> Result<Vec<u16>, ReadFault>
    ensures { GivesItems result (each (entry field.Figures 0 65535) (seen values.entry)) }
{
    let mut list = Vec::with_capacity(alloc, 28)?;
    let mut rest = values;
    while let Some(value) = rest.next_number() {
        let one = entry(value, FieldName::Figures, 0, 65_535)?;
        list.push(one as u16)?;
    }
    Ok(list)
}

/// Players with their figures.
pub(crate) fn lines(alloc: Global, value: &Tree<'_, '_>) -> Result<Lines, ReadFault>
    ensures gives { Gives result (lines (view value.now)) }
    ensures long { IfOk result (λ ls. length ls ≤ 100) }
{
    let values = items(value, FieldName::Lines)?;
    let list = under(each_line(alloc, values), FieldName::Lines)?;
    if is_long(list.as_slice().len(), 0, 100) {
        Ok(list)
    } else {
        Err(wrong(FieldName::Lines))
    }
}

fn each_line(alloc: Global, values: Items<'_, '_>) -> Result<Lines, ReadFault>
    ensures { Gives result (each player_line (seen values.entry)) }
{
    let mut list = Lines::new(alloc);
    let mut rest = values;
    while let Some(value) = rest.next() {
        let one = player_line(alloc, &value)?;
        list.push(one)?;
    }
    Ok(list)
}

/// The fifteen players of a team, by slot.
#[tactic(auto, using(crate::proofs::EntryLemmas::under_entry))]
pub(crate) fn fifteen(alloc: Global, value: &Tree<'_, '_>) -> Result<[PlayerId; 15], ReadFault>
    ensures { Gives result (fifteen (view value.now)) }
{
    let values = items(value, FieldName::Players)?;
    let list = each_player(alloc, values)?;
    match <[PlayerId; 15]>::try_from(list.as_slice()) {
        Ok(players) => Ok(players),
        Err(_) => Err(wrong(FieldName::Players)),
    }
}

fn each_player(alloc: Global, values: Items<'_, '_>) -> Result<Vec<PlayerId>, ReadFault>
    ensures { GivesItems result (each (entry field.Players 1 999999) (seen values.entry)) }
{
    let mut list = Vec::with_capacity(alloc, 15)?;
    let mut rest = values;
    while let Some(value) = rest.next_number() {
        let one = player_entry(value, FieldName::Players)?;
        list.push(one)?;
    }
    Ok(list)
}

/// The transfers of a batch.
pub(crate) fn swaps(alloc: Global, value: &Tree<'_, '_>) -> Result<Swaps, ReadFault>
    ensures gives { Gives result (swaps (view value.now)) }
    ensures long { IfOk result (λ ss. (1 ≤ length ss) × (length ss ≤ 15)) }
{
    let values = items(value, FieldName::Swaps)?;
    let list = under(each_swap(alloc, values), FieldName::Swaps)?;
    if is_long(list.as_slice().len(), 1, 15) {
        Ok(list)
    } else {
        Err(wrong(FieldName::Swaps))
    }
}

fn each_swap(alloc: Global, values: Items<'_, '_>) -> Result<Swaps, ReadFault>
    ensures { Gives result (each swap (seen values.entry)) }
{
    let mut list = Swaps::new(alloc);
    let mut rest = values;
    while let Some(value) = rest.next() {
        let one = swap(&value)?;
        list.push(one)?;
    }
    Ok(list)
}

fn swap(value: &Tree<'_, '_>) -> Result<Swap, ReadFault>
    ensures { Gives result (swap (view value.now)) }
{
    let out = player_id(value, FieldName::Out)?;
    let into = player_id(value, FieldName::In)?;
    Ok(Swap { out, into })
}

/// Entries by their places in a draw.
pub(crate) fn order(alloc: Global, value: &Tree<'_, '_>) -> Result<Order, ReadFault>
    ensures gives { Gives result (order (view value.now)) }
    ensures long { IfOk result (λ es. length es ≤ 64) }
{
    let values = items(value, FieldName::Order)?;
    let list = under(each_entry(alloc, values), FieldName::Order)?;
    if is_long(list.as_slice().len(), 0, 64) {
        Ok(list)
    } else {
        Err(wrong(FieldName::Order))
    }
}

fn each_entry(alloc: Global, values: Items<'_, '_>) -> Result<Order, ReadFault>
    ensures { Gives result (each (entry field.Order 1 4294967295) (seen values.entry)) }
{
    let mut list = Order::new(alloc);
    let mut rest = values;
    while let Some(value) = rest.next_number() {
        let one = drawn_entry(value, FieldName::Order)?;
        list.push(one)?;
    }
    Ok(list)
}

/// The slots of a cup.
pub(crate) fn slots(alloc: Global, value: &Tree<'_, '_>) -> Result<Slots, ReadFault>
    ensures gives { Gives result (slots (view value.now)) }
    ensures long { IfOk result (λ ss. length ss ≤ 1024) }
{
    let values = items(value, FieldName::Slots)?;
    let list = under(each_slot(alloc, values), FieldName::Slots)?;
    if is_long(list.as_slice().len(), 0, 1024) {
        Ok(list)
    } else {
        Err(wrong(FieldName::Slots))
    }
}

fn each_slot(alloc: Global, values: Items<'_, '_>) -> Result<Slots, ReadFault>
    ensures { Gives result (each (entry field.Slots 0 4294967295) (seen values.entry)) }
{
    let mut list = Slots::new(alloc);
    let mut rest = values;
    while let Some(value) = rest.next_number() {
        let one = entry(value, FieldName::Slots, 0, 4_294_967_295)?;
        list.push(one as u32)?;
    }
    Ok(list)
}

/// The coins of a cup.
pub(crate) fn coins(alloc: Global, value: &Tree<'_, '_>) -> Result<Coins, ReadFault>
    ensures gives { Gives result (coins (view value.now)) }
    ensures long { IfOk result (λ cs. length cs ≤ 1024) }
    ensures sides { IfOk result (λ cs. All (λ coin. coin ≤ 1) cs) }
{
    let values = items(value, FieldName::Coins)?;
    let list = under(each_coin(alloc, values), FieldName::Coins)?;
    if is_long(list.as_slice().len(), 0, 1024) {
        Ok(list)
    } else {
        Err(wrong(FieldName::Coins))
    }
}

fn each_coin(alloc: Global, values: Items<'_, '_>) -> Result<Coins, ReadFault>
    ensures { Gives result (each (entry field.Coins 0 1) (seen values.entry)) }
{
    let mut list = Coins::new(alloc);
    let mut rest = values;
    while let Some(value) = rest.next_number() {
        let one = entry(value, FieldName::Coins, 0, 1)?;
        list.push(one as u8)?;
    }
    Ok(list)
}
