//! Makes one call many times, for a count of its instructions: `bench KIND CALL SIZE TIMES GAMEWEEK`. The scripts of
//! bench/ run it. KIND is `facts`, `calendar`, `players`, `managers`, `engine` or `http`; the module of that name says
//! which calls it has. SIZE is how many things stand before, and of `http` the size of the pieces in which the standard
//! input is fed. TIMES and GAMEWEEK are 0 where a kind does not ask for them. It prints what the calls told together, so
//! that none of them is left out.
#![tactic(auto)]

mod calendar;
mod changes;
mod engine;
mod facts;
mod http;
mod managers;
mod players;
mod tree;

use std::env;
use std::io::Read;

/// How many things stand before, how many calls are made, and for which gameweek.
#[derive(Clone, Copy)]
pub struct Plan {
    /// How many things stand before.
    pub size: u32,
    /// How many calls are made.
    pub times: u32,
    /// The gameweek of calls that ask for one.
    pub gameweek: u8,
}

fn main(rt: HostRuntime) -> Result<(), &'static str> {
    let total = told(&rt).ok_or("usage: bench KIND CALL SIZE TIMES GAMEWEEK")?;
    println!(rt; "{total}").map_err(|_| "nothing can be written")
}

// Reads the words, and makes the calls.
fn told(rt: &HostRuntime) -> Option<u64> {
    let mut words = env::args(rt).ok()?;
    words.next()?;
    let kind = words.next()?;
    let call = words.next()?;
    let size = words.next()?.as_str().parse::<u32>().ok()?;
    let times = words.next()?.as_str().parse::<u32>().ok()?;
    let gameweek = words.next()?.as_str().parse::<u8>().ok()?;
    let plan = Plan {
        size,
        times,
        gameweek,
    };
    match kind.as_str() {
        "facts" => facts::told_of(rt.alloc(), call.as_str(), plan),
        "calendar" => calendar::told_of(rt.alloc(), call.as_str(), plan),
        "players" => players::told_of(rt.alloc(), call.as_str(), plan),
        "managers" => managers::told_of(rt.alloc(), call.as_str(), plan),
        "engine" => engine::told_of(rt.alloc(), call.as_str(), size),
        "http" => fed(rt, size),
        _ => None,
    }
}

// Feeds the standard input to a decoder.
fn fed(rt: &HostRuntime, size: u32) -> Option<u64> {
    let mut stream = Vec::new(rt.alloc());
    rt.stdin().read_to_end(&mut stream).ok()?;
    http::told_of(rt.alloc(), &stream, size)
}
