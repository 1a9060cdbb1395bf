// What is committed of leagues, of cups, and of each caller's last command.
ghost use Rattle.std.specs.Prelude.{◌≡◌, Some, IfOk};
ghost use Rattle.std.specs.Option.{option_map, option_and_then};
ghost use Rattle.rule_book.specs.ById.{at_id};
ghost use Rattle.rule_book.specs.Entries.{entry_in};
ghost use Rattle.season_records.specs.declared.slot.Slot.TheVariants as slot;
ghost use Rattle.season_book.specs.Book.{caller_number};
ghost use Rattle.season_book.specs.Commands.{IsCommand};
ghost use Rattle.season_records.specs.Records.{cup_item, last_item, league_item, made_id, member_told, status_of};
ghost use Rattle.record_changes.specs.Batches.{Keeps};

use crate::changes::{delete, put};
use crate::seeking::member_at;
use fpl_base::{Caller, CupId, EntryId, LeagueId, Memory, Op};
use leagues_and_cups::{Cups, League, Leagues};
use season_book::{Command, Made, Order};
use season_records::{Item, Slot, encode_last};
use season_running::Lasts;
use std::alloc::Global;

// Of a league.
pub fn league_op(alloc: Global, leagues: &Leagues, league: u32) -> Result<Op, Memory>
    ensures { IfOk result
        (Keeps (slot.League league)
        (option_map (league_item league) (entry_in leagues.now league))) }
{
    match LeagueId::new(league) {
        Some(id) => match leagues.get(id) {
            Some(there) => put_league(alloc, id, there),
            None => Ok(delete(Slot::League(league))),
        },
        None => Ok(delete(Slot::League(league))),
    }
}

fn put_league(alloc: Global, league: LeagueId, there: &League) -> Result<Op, Memory>
    ensures { IfOk result (Keeps (slot.League league) (Some (league_item league there.now))) }
{
    let item = Item::League {
        league,
        kind: there.kind(),
        start: there.start(),
        creator: there.creator(),
        order: Order::of(Vec::from_slice(alloc, there.order())?),
        code: there.code().copy()?,
        name: there.name().copy()?,
    };
    put(alloc, &item)
}

// Of a member of a league.
pub fn member_op(alloc: Global, leagues: &Leagues, league: u32, entry: u32) -> Result<Op, Memory>
    ensures { IfOk result
        (Keeps (slot.Member league entry)
        (option_and_then (member_told league entry) (entry_in leagues.now league))) }
{
    match LeagueId::new(league) {
        Some(id) => match leagues.get(id) {
            Some(there) => member_of(alloc, id, there, entry),
            None => Ok(delete(Slot::Member(league, entry))),
        },
        None => Ok(delete(Slot::Member(league, entry))),
    }
}

fn member_of(alloc: Global, league: LeagueId, there: &League, entry: u32) -> Result<Op, Memory>
    ensures { IfOk result (Keeps (slot.Member league entry) (member_told league entry there.now)) }
{
    match member_at(there, entry) {
        Some(member) => {
            let item = Item::Member {
                league,
                entry: member,
            };
            put(alloc, &item)
        }
        None => Ok(delete(Slot::Member(league.get(), entry))),
    }
}

// Of a cup.
pub fn cup_op(alloc: Global, cups: &Cups, cup: u32) -> Result<Op, Memory>
    ensures { IfOk result
        (Keeps (slot.Cup cup) (option_map (cup_item cup) (entry_in cups.now cup))) }
{
    match CupId::new(cup) {
        Some(id) => match cups.get(id) {
            Some(there) => {
                let item = Item::Cup {
                    cup: id,
                    start: there.start,
                    slots: there.slots.copy()?,
                    coins: there.coins.copy()?,
                };
                put(alloc, &item)
            }
            None => Ok(delete(Slot::Cup(cup))),
        },
        None => Ok(delete(Slot::Cup(cup))),
    }
}

// Of a caller's last command.
pub fn last_op(alloc: Global, lasts: &Lasts, caller: u32) -> Result<Op, Memory>
    ensures { IfOk result
        (Keeps (slot.Last caller) (option_map (last_item caller) (at_id lasts.now caller))) }
{
    match lasts.get(&caller_of(caller)) {
        Some(last) => put_last(alloc, caller, last.number(), &last.made(), last.command()),
        None => Ok(delete(Slot::Last(caller))),
    }
}

// The same, where the command can be ordered.
fn put_last(
    alloc: Global,
    caller: u32,
    number: u64,
    made: &Made,
    command: &Command,
) -> Result<Op, Memory>
    requires { IsCommand command.now }
    ensures { IfOk result
        (Keeps (slot.Last caller)
        (Some (last_item caller
        (record { number = number; command = command.now; made = made.now })))) }
{
    let status = status_of(made);
    let made = made_id(made);
    let (key, body) = encode_last(alloc, caller, number, status, made, command)?;
    Ok(Op::Put(key, body))
}

// The caller of a number: 0 is the operator.
fn caller_of(number: u32) -> Caller
    ensures { caller_number result ≡ number }
{
    match EntryId::new(number) {
        Some(entry) => Caller::Entry(entry),
        None => Caller::Operator,
    }
}

// The id of what a command made; 0 where it made nothing.
fn made_id(made: &Made) -> u32
    ensures { result ≡ made_id made.now }
{
    match made {
        Made::Nothing => 0,
        Made::Entry(entry) => entry.get(),
        Made::League(league) => league.get(),
        Made::Cup(cup) => cup.get(),
    }
}

// The status of the answer to a command that made this.
fn status_of(made: &Made) -> u16
    ensures { result ≡ status_of made.now }
{
    match made {
        Made::Nothing => 200,
        Made::Entry(_) | Made::League(_) | Made::Cup(_) => 201,
    }
}
