// A keeper that fails on the way. Of the store in a file, and of faults of the input, the output and the doors, `tests/` tells.
ghost use Rattle.std.specs.Prelude.{◌≡◌, ◌<◌};

use fpl_base::{Keeper, Key, Memory, Moment, ReadCount, Sink, Source};
use fpl_http::{Buffers, Ending, session};
use request_handler::opened;
use season_opening::OpenFault;
use std::alloc::Global;
use std::marker::Brand;
use std::sync::ledger::{Blank, Ledger};
use test_doubles::{FaultyKeeper, FaultySink, MemoryClock, MemoryKeeper, MemorySource, Plan};

// How a session for the operator with this key ends.
fn ran<S: Source, W: Sink, K: Keeper, L: Ledger>(
    alloc: Global,
    key: &Key,
    input: &mut S,
    output: &mut W,
    keeper: &mut K,
    blank: Blank,
) -> Result<Ending, OpenFault>
    requires name { blank.name ≡ L.name }
    requires parts { blank.parts ≡ L.parts }
    requires some { 0 < blank.parts }
{
    let mut steps: ReadCount<L> = ReadCount::open(blank);
    let mut clock = MemoryClock::new(Moment::new(0).unwrap(), &[]);
    match opened(alloc, key, keeper) {
        Ok((handler, mut host)) => Ok(session(
            alloc,
            &mut Buffers::new(),
            &handler,
            &mut host,
            keeper,
            input,
            output,
            &mut clock,
            &mut steps,
        )),
        Err(fault) => Err(fault),
    }
}

// A season, two players and a view of the second.
const SEASON: &str =
    "POST /season HTTP/1.1\r\nFpl-Key: operator1\r\nContent-Length: 71\r\n\r\n{\"number\":1,\"deadlines\":[1000],\"split\":1,\"clubs\":[{\"id\":1,\"name\":\"C\"}]}POST /players HTTP/1.1\r\nFpl-Key: operator1\r\nContent-Length: 65\r\n\r\n{\"number\":2,\"id\":1,\"name\":\"A\",\"position\":\"F\",\"club\":1,\"price\":50}POST /players HTTP/1.1\r\nFpl-Key: operator1\r\nContent-Length: 65\r\n\r\n{\"number\":3,\"id\":2,\"name\":\"B\",\"position\":\"F\",\"club\":1,\"price\":50}GET /players/2 HTTP/1.1\r\nFpl-Key: operator1\r\n\r\n";

const DONE_1: &str =
    "HTTP/1.1 200 OK\r\nContent-Type: application/json\r\nContent-Length: 10\r\n\r\n{\"done\":1}";

const DONE_2: &str =
    "HTTP/1.1 200 OK\r\nContent-Type: application/json\r\nContent-Length: 10\r\n\r\n{\"done\":2}";

const DONE_3: &str =
    "HTTP/1.1 200 OK\r\nContent-Type: application/json\r\nContent-Length: 10\r\n\r\n{\"done\":3}";

const FAILED: &str =
    "HTTP/1.1 503 Service Unavailable\r\nContent-Type: application/json\r\nContent-Length: 18\r\n\r\n{\"error\":\"keeper\"}";

const AFTER_0: &str =
    "HTTP/1.1 409 Conflict\r\nContent-Type: application/json\r\nContent-Length: 34\r\n\r\n{\"error\":\"rule\",\"last\":0,\"rule\":1}";

const AFTER_1: &str =
    "HTTP/1.1 409 Conflict\r\nContent-Type: application/json\r\nContent-Length: 34\r\n\r\n{\"error\":\"rule\",\"last\":1,\"rule\":1}";

const NO_SEASON: &str =
    "HTTP/1.1 409 Conflict\r\nContent-Type: application/json\r\nContent-Length: 25\r\n\r\n{\"error\":\"rule\",\"rule\":4}";

const UNKNOWN: &str =
    "HTTP/1.1 404 Not Found\r\nContent-Type: application/json\r\nContent-Length: 19\r\n\r\n{\"error\":\"unknown\"}";

const PLAYER: &str =
    "HTTP/1.1 200 OK\r\nContent-Type: application/json\r\nContent-Length: 67\r\n\r\n{\"club\":1,\"gone\":false,\"id\":2,\"name\":\"B\",\"position\":\"F\",\"price\":50}";

// Whether the bytes are these texts, one behind the other.
fn are(bytes: &[u8], texts: &[&str]) -> bool {
    let mut rest = bytes;
    for text in texts {
        match rest.strip_prefix(text.as_bytes()) {
            Some(behind) => rest = behind,
            None => return false,
        }
    }
    rest.is_empty()
}

// What came of a session of the season over a keeper whose calls of these numbers fail, each before it stores or behind
// that: 0 where it ended as its source did, 4 where the keeper gave no host, and 99 where other answers came.
fn ended(alloc: Global, stores: bool, failing: &[u64], answers: &[&str]) -> Result<u8, Memory> {
    let Some(key) = Key::new(alloc, b"operator1")? else {
        return Ok(99);
    };
    let mut input = MemorySource::new(SEASON.as_bytes(), 65536);
    let mut output = FaultySink::new(alloc, 9999, Plan::new(Vec::new(alloc)))?;
    let plan = Plan::new(Vec::from_slice(alloc, failing)?);
    let mut keeper = FaultyKeeper::new(MemoryKeeper::new(alloc), stores, plan);
    let end = ran::<MemorySource, FaultySink, FaultyKeeper, Brand>(
        alloc,
        &key,
        &mut input,
        &mut output,
        &mut keeper,
        Blank::new(1),
    );
    if !are(output.bytes(), answers) {
        return Ok(99);
    }
    match end {
        Ok(Ending::Done) => Ok(0),
        Err(OpenFault::Keeper) => Ok(4),
        _ => Ok(99),
    }
}

// The keeper's first call loads, and then each accepted command is a call, and each load behind a failed one.
#[test]
fn a_keeper_fails_on_the_way(rt: HostRuntime) {
    for (stores, failing, answers, wanted) in [
        (
            false,
            &[2][..],
            &[FAILED, AFTER_0, AFTER_0, NO_SEASON][..],
            0,
        ),
        (true, &[2][..], &[FAILED, DONE_2, DONE_3, PLAYER][..], 0),
        (false, &[3][..], &[DONE_1, FAILED, AFTER_1, UNKNOWN][..], 0),
        (true, &[3][..], &[DONE_1, FAILED, DONE_3, PLAYER][..], 0),
        (false, &[4][..], &[DONE_1, DONE_2, FAILED, UNKNOWN][..], 0),
        (true, &[4][..], &[DONE_1, DONE_2, FAILED, PLAYER][..], 0),
        (
            false,
            &[2, 3][..],
            &[FAILED, FAILED, AFTER_0, NO_SEASON][..],
            0,
        ),
        (false, &[1][..], &[][..], 4),
    ] {
        assert_eq!(rt; ended(rt.alloc(), stores, failing, answers), Ok(wanted));
    }
}
