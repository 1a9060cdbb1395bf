// Records and commands as bytes.
ghost use Rattle.std.specs.Prelude.{◌≡◌, IfOk, IsTrue};
ghost use Rattle.season_records.specs.Items.{body_of, is_item, key_of_item};
ghost use Rattle.season_records.specs.Ranges.{IsItem};
ghost use Rattle.season_records.specs.declared.item.Item.TheVariants as item;

use crate::bodies::{
    club_body, cup_body, entry_body, fixture_body, last_body, league_body, line_body, player_body,
    season_body, team_body, transfer_body,
};
use crate::{Item, Slot};
use fpl_base::{Bytes, ClubId, Memory, Name, PlayerId, Position, RecordKey};
use season_book::Command;
use std::alloc::Global;

/// The key and the body of a record. What is written has its values in the ranges of its fields' types. It takes memory.
pub fn encode(alloc: Global, item: &Item) -> Result<(RecordKey, Bytes), Memory>
    requires { IsTrue (is_item item.now) }
    ensures key { IfOk result (λ record_of. record_of.0 ≡ key_of_item item.now) }
    ensures body { IfOk result (λ record_of. record_of.1 ≡ body_of item.now) }
    ensures fits { IfOk result (λ _. IsItem item.now) }
{
    match *item {
        Item::Season {
            profile,
            split,
            locked,
            ref deadlines,
        } => {
            let body = season_body(alloc, profile, split, locked, deadlines)?;
            Ok((Slot::Season.key(), body))
        }
        Item::Club { club, ref name } => {
            let body = club_body(alloc, name)?;
            Ok((Slot::Club(club.get() as u32).key(), body))
        }
        Item::Player {
            player,
            position,
            club,
            price,
            gone,
            ref name,
        } => encode_player(alloc, player, position, club, price, gone, name),
        Item::Fixture {
            fixture,
            home,
            away,
            gameweek,
            kickoff,
            finished,
        } => {
            let body = fixture_body(alloc, home, away, gameweek, kickoff, finished)?;
            Ok((Slot::Fixture(fixture.get()).key(), body))
        }
        Item::Line {
            fixture,
            player,
            ref line,
        } => {
            let body = line_body(alloc, line)?;
            Ok((Slot::Line(fixture.get(), player.get()).key(), body))
        }
        Item::Entry {
            entry,
            first,
            ref key,
            ref name,
        } => {
            let body = entry_body(alloc, first, key, name)?;
            Ok((Slot::Entry(entry.get()).key(), body))
        }
        Item::Team {
            entry,
            gameweek,
            ref picks,
            captain,
            vice,
            bank,
            chip,
        } => {
            let body = team_body(alloc, picks, captain, vice, bank, chip)?;
            Ok((Slot::Team(entry.get(), gameweek.get() as u32).key(), body))
        }
        Item::Transfer {
            entry,
            gameweek,
            number,
            out,
            into,
            sold,
            bought,
        } => {
            let body = transfer_body(alloc, out, into, sold, bought)?;
            let slot = Slot::Transfer(entry.get(), gameweek.get() as u32, number);
            Ok((slot.key(), body))
        }
        Item::League {
            league,
            kind,
            start,
            creator,
            ref order,
            ref code,
            ref name,
        } => {
            let body = league_body(alloc, kind, start, creator, order, code, name)?;
            Ok((Slot::League(league.get()).key(), body))
        }
        Item::Member { league, entry } => {
            let slot = Slot::Member(league.get(), entry.get());
            Ok((slot.key(), Bytes::new(alloc)))
        }
        Item::Cup {
            cup,
            start,
            ref slots,
            ref coins,
        } => {
            let body = cup_body(alloc, start, slots, coins)?;
            Ok((Slot::Cup(cup.get()).key(), body))
        }
        Item::Last {
            caller,
            number,
            status,
            made,
            ref command,
        } => encode_last(alloc, caller, number, status, made, command),
    }
}

/// The same of a player, whose name is not moved into an item. It takes memory.
pub fn encode_player(
    alloc: Global,
    player: PlayerId,
    position: Position,
    club: ClubId,
    price: u16,
    gone: bool,
    name: &Name,
) -> Result<(RecordKey, Bytes), Memory>
    ensures key { IfOk result
        (λ record_of. record_of.0
        ≡ key_of_item (item.Player player position club price gone name.now)) }
    ensures body { IfOk result
        (λ record_of. record_of.1
        ≡ body_of (item.Player player position club price gone name.now)) }
    ensures fits { IfOk result
        (λ _. IsItem (item.Player player position club price gone name.now)) }
{
    let key = Slot::Player(player.get()).key();
    let body = player_body(alloc, position, club, price, gone, name)?;
    Ok((key, body))
}

/// The same of a caller's last command, which is not moved into an item. It takes memory.
pub fn encode_last(
    alloc: Global,
    caller: u32,
    number: u64,
    status: u16,
    made: u32,
    command: &Command,
) -> Result<(RecordKey, Bytes), Memory>
    requires { IsTrue (is_item (item.Last caller number status made command.now)) }
    ensures key { IfOk result
        (λ record_of. record_of.0 ≡ key_of_item (item.Last caller number status made command.now)) }
    ensures body { IfOk result
        (λ record_of. record_of.1 ≡ body_of (item.Last caller number status made command.now)) }
    ensures fits { IfOk result (λ _. IsItem (item.Last caller number status made command.now)) }
{
    let key = Slot::Last(caller).key();
    let body = last_body(alloc, number, status, made, command)?;
    Ok((key, body))
}
