//! The calls on the managers' book: `team_at`, `free`, `cost`, `counted`, `entry_of` and `lineup`. So many entries stand
//! before, each with a team of its own in each of the 38 gameweeks; `lineup` changes that of gameweek 38.
ghost use Rattle.std.specs.Prelude.{◌≡◌, ◌<◌, ◌↔◌, IsTrue, IsSome, All};
ghost use Rattle.rule_book.specs.Players.{player_of};

use crate::Plan;
use fpl_base::{ClubId, EntryId, Gw, Key, Name, PlayerId, Position, Profile, ReadCount, Tenths};
use manager_book::{ManagerBook, judge_lineup, judge_squad};
use player_market::{Player, Players};
use std::alloc::Global;
use std::marker::Brand;
use std::sync::ledger::{Blank, Ledger};

const GAMEWEEKS: u8 = 38;

#[derive(Clone, Copy)]
enum Call {
    TeamAt,
    Free,
    Cost,
    Counted,
    EntryOf,
    Lineup,
}

/// Makes so many of these calls for the plan's gameweek, and answers what they told together.
pub fn told_of(alloc: Global, word: &str, plan: Plan) -> Option<u64> {
    let call = call_of(word)?;
    ran::<Brand>(alloc, plan, call, Blank::new(1))
}

// Fills the book, and makes the calls.
fn ran<L: Ledger>(alloc: Global, plan: Plan, call: Call, blank: Blank) -> Option<u64>
    requires name { blank.name ≡ L.name }
    requires parts { blank.parts ≡ L.parts }
    requires some { 0 < blank.parts }
{
    let squad = squad()?;
    let players = players(alloc, &squad)?;
    let mut book = filled(alloc, plan.size, &players, &squad)?;
    let mut steps: ReadCount<L> = ReadCount::open(blank);
    called(alloc, &mut book, plan, call, &squad, &mut steps)
}

fn call_of(word: &str) -> Option<Call> {
    match word {
        "team_at" => Some(Call::TeamAt),
        "free" => Some(Call::Free),
        "cost" => Some(Call::Cost),
        "counted" => Some(Call::Counted),
        "entry_of" => Some(Call::EntryOf),
        "lineup" => Some(Call::Lineup),
        _ => None,
    }
}

// Players 1 to 15, by slot.
fn squad() -> Option<[PlayerId; 15]> {
    let mut squad = [PlayerId::new(1)?; 15];
    for slot in 0..15usize {
        squad[slot] = PlayerId::new(slot as u32 + 1)?;
    }
    Some(squad)
}

fn position_of(slot: u32) -> Position {
    match slot {
        1 | 12 => Position::Keeper,
        2..=5 | 13 => Position::Defender,
        6..=9 | 14 => Position::Midfielder,
        _ => Position::Forward,
    }
}

// The players of the squad, each of another club.
fn players(alloc: Global, squad: &[PlayerId; 15]) -> Option<Players> {
    let mut players = Players::new(alloc);
    for id in squad {
        let number = id.get();
        let name = match Name::new(alloc, b"Player") {
            Ok(Some(name)) => name,
            Ok(None) | Err(_) => return None,
        };
        let player = Player {
            id: *id,
            name,
            position: position_of(number),
            club: ClubId::new((number % 255) as u8 + 1)?,
            price: Tenths::new(50)?,
            gone: false,
        };
        if players.add(player).is_err() {
            return None;
        }
    }
    Some(players)
}

fn are_players(players: &Players, squad: &[PlayerId; 15]) -> bool
    ensures { IsTrue result ↔ All (λ id. IsSome (player_of players.now id)) squad.now }
{
    squad.iter().all(|id| players.get(*id).is_some())
}

// The key of an entry.
fn key_of(alloc: Global, number: u32) -> Option<Key> {
    let text = format!(in alloc; "entrykey{number}").ok()?;
    match Key::new(alloc, text.as_bytes()) {
        Ok(key) => key,
        Err(_) => None,
    }
}

// Entries 1 to so many, each with a team of its own in each gameweek.
fn filled(
    alloc: Global,
    entries: u32,
    players: &Players,
    squad: &[PlayerId; 15],
) -> Option<ManagerBook> {
    let mut book = ManagerBook::new(alloc, Profile::A);
    for number in 1..=entries {
        let e = entered(alloc, &mut book, number, players, squad)?;
        for g in 2..=GAMEWEEKS {
            lined(&mut book, e, g, squad)?;
        }
    }
    Some(book)
}

// A new entry, registered in gameweek 1.
fn entered(
    alloc: Global,
    book: &mut ManagerBook,
    number: u32,
    players: &Players,
    squad: &[PlayerId; 15],
) -> Option<EntryId> {
    let key = key_of(alloc, number)?;
    let name = match Name::new(alloc, b"Manager") {
        Ok(Some(name)) => name,
        Ok(None) | Err(_) => return None,
    };
    let e = match book.issue(key, name) {
        Ok(e) => e,
        Err(_) => return None,
    };
    if e.get() > book.entries() || !are_players(players, squad) {
        return None;
    }
    let first = Gw::new(1)?;
    let deed = match judge_squad(book.issued(e), first, players, squad, squad[5], squad[6]) {
        Ok(deed) => deed,
        Err(_) => return None,
    };
    match book.keep(e, &deed) {
        Ok(()) => Some(e),
        Err(_) => None,
    }
}

// An entry changes its lineup in a gameweek.
fn lined(book: &mut ManagerBook, e: EntryId, g: u8, squad: &[PlayerId; 15]) -> Option<u64> {
    let g = Gw::new(g)?;
    if e.get() > book.entries() || !book.is_up_to(e, g) {
        return None;
    }
    let captain = squad[usize::from(g.get() % 10) + 1];
    let vice = squad[usize::from((g.get() + 1) % 10) + 1];
    let deed = match judge_lineup(book.issued(e), g, squad, captain, vice) {
        Ok(deed) => deed,
        Err(_) => return None,
    };
    match book.keep(e, &deed) {
        Ok(()) => Some(1),
        Err(_) => None,
    }
}

// Makes the calls, over all entries in turn, and answers what they told together.
fn called<L: Ledger>(
    alloc: Global,
    book: &mut ManagerBook,
    plan: Plan,
    call: Call,
    squad: &[PlayerId; 15],
    steps: &mut ReadCount<L>,
) -> Option<u64> {
    let g = Gw::new(plan.gameweek)?;
    let key = key_of(alloc, plan.size)?;
    let mut total = 0u64;
    for turn in 0..plan.times {
        let e = EntryId::new(turn.wrapping_mul(97) % plan.size.max(1) + 1)?;
        let told = made(book, call, e, g, &key, squad, steps)?;
        total = total.wrapping_add(told);
    }
    Some(total)
}

fn made<L: Ledger>(
    book: &mut ManagerBook,
    call: Call,
    e: EntryId,
    g: Gw,
    key: &Key,
    squad: &[PlayerId; 15],
    steps: &mut ReadCount<L>,
) -> Option<u64> {
    match call {
        Call::TeamAt => Some(u64::from(book.team_at(e, g, steps).is_some())),
        Call::Free => Some(u64::from(book.free(e, g, steps)?)),
        Call::Cost => Some(u64::from(book.cost(e, g, steps))),
        Call::Counted => Some(u64::from(book.counted_transfers(e, g.get(), steps))),
        Call::EntryOf => Some(u64::from(book.entry_of(key)?.get())),
        Call::Lineup => lined(book, e, GAMEWEEKS, squad),
    }
}
