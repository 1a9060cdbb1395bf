//! The calls on players: `get`, `at`, `set_price`, `set_club`, `add` and `add_rising`. So many stand before; `add` adds so
//! many to none, the greatest id first, and `add_rising` the least id first.
use crate::Plan;
use fpl_base::{ClubId, Name, PlayerId, Position, Refused, Tenths};
use player_market::{Player, Players};
use std::alloc::Global;

#[derive(Clone, Copy)]
enum Call {
    Get,
    At,
    SetPrice,
    SetClub,
    Add(Order),
}

#[derive(Clone, Copy)]
enum Order {
    Falling,
    Rising,
}

/// Makes so many of these calls, and answers what they told together.
pub fn told_of(alloc: Global, word: &str, plan: Plan) -> Option<u64> {
    let call = call_of(word)?;
    let mut players = filled(alloc, plan.size, Order::Falling)?;
    called(alloc, &mut players, plan, call)
}

fn call_of(word: &str) -> Option<Call> {
    match word {
        "get" => Some(Call::Get),
        "at" => Some(Call::At),
        "set_price" => Some(Call::SetPrice),
        "set_club" => Some(Call::SetClub),
        "add" => Some(Call::Add(Order::Falling)),
        "add_rising" => Some(Call::Add(Order::Rising)),
        _ => None,
    }
}

// Players 1 to so many. Where their ids fall, each goes before those that are there; where they rise, behind.
fn filled(alloc: Global, count: u32, order: Order) -> Option<Players> {
    let mut players = Players::new(alloc);
    for turn in 0..count {
        let id = match order {
            Order::Falling => count - turn,
            Order::Rising => turn + 1,
        };
        let player = player(alloc, id)?;
        match players.add(player) {
            Ok(()) => {}
            Err(Refused::Memory) | Err(Refused::Rule(_)) => return None,
        }
    }
    Some(players)
}

fn player(alloc: Global, id: u32) -> Option<Player> {
    let name = match Name::new(alloc, b"Player") {
        Ok(Some(name)) => name,
        Ok(None) | Err(_) => return None,
    };
    Some(Player {
        id: PlayerId::new(id)?,
        name,
        position: Position::Midfielder,
        club: ClubId::new(1)?,
        price: Tenths::new(50)?,
        gone: false,
    })
}

// Makes the calls, over all players in turn, and answers what they told together.
fn called(alloc: Global, players: &mut Players, plan: Plan, call: Call) -> Option<u64> {
    let mut total = 0u64;
    for turn in 0..plan.times {
        let id = turn.wrapping_mul(97) % plan.size.max(1) + 1;
        let told = made(alloc, players, plan, call, id)?;
        total = total.wrapping_add(told);
    }
    Some(total)
}

fn made(alloc: Global, players: &mut Players, plan: Plan, call: Call, id: u32) -> Option<u64> {
    let player = PlayerId::new(id)?;
    match call {
        Call::Get => Some(u64::from(players.get(player).is_some())),
        Call::At => Some(u64::from(players.at(id as usize - 1).is_some())),
        Call::SetPrice => match players.set_price(player, Tenths::new(30 + id % 171)?) {
            Ok(()) => Some(1),
            Err(_) => None,
        },
        Call::SetClub => {
            players.set_club(player, ClubId::new((id % 255) as u8 + 1)?);
            Some(1)
        }
        Call::Add(order) => Some(filled(alloc, plan.size, order)?.len() as u64),
    }
}
