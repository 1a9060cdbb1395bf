// The commands that ask requests of a host in this process.
ghost use Rattle.std.specs.Prelude.{◌≡◌, ◌<◌, ◌^◌, ◌⊎◌, IfOk, Option, length};
ghost use Rattle.fpl_base.specs.Causes.{Rose};
ghost use Rattle.fpl_base.specs.Moments.{Moments};
ghost use Rattle.fpl_events.specs.Rows.{AreDoable};
ghost use Rattle.fpl_events.specs.Playing.{IsPlayed};
ghost use Rattle.season_generator.specs.Generating.{IsGenerated};
ghost use Rattle.fpl_run.specs.Requests.{Dreams, Generates, Plays, Reports, RunsThrough, made_up_key, view_of};

use crate::opening::unopened;
use command_line::What;
use fpl_base::{Clock, Gw, Keeper, Key, Memory, ReadCount, Sink};
use fpl_dreaming::dreamed;
use fpl_events::{EventRow, event_rows, played};
use local_requests::status::MEMORY;
use local_requests::{reported, unread_rows};
use season_book::View;
use season_generator::generated;
use season_keeping::Host;
use std::alloc::Global;
use std::sync::ledger::Ledger;

/// The operator of a made-up season has this key.
const MADE_UP_KEY: &[u8] = b"operator1";

/// Asks a view as the operator with this key, writes its report, and answers the exit status.
pub fn report<W: Sink, C: Clock, K: Keeper, L: Ledger>(
    alloc: Global,
    key: &Key,
    what: What,
    output: &mut W,
    clock: &mut C,
    keeper: &mut K,
    steps: &mut ReadCount<L>,
) -> u8
    ensures reports { Reports K.tells K.serves K.holds K.passes K.faults keeper.old keeper.new
        key.now what (C.left clock.old) (C.left clock.new) (W.taken output.old)
        (W.taken output.new) result }
    ensures statuses { (result ≡ 0) ⊎ (result ≡ 3) ⊎ (result ≡ 4) ⊎ (result ≡ 5) ⊎ (result ≡ 6)
        ⊎ (result ≡ 13) }
    ensures write { result ≡ 3 → Rose (W.faults output.old) (W.faults output.new) }
    ensures keeper { result ≡ 4 → Rose (K.faults keeper.old) (K.faults keeper.new) }
{
    match Host::open(alloc, keeper, key, steps) {
        Ok(mut host) => reported(
            alloc,
            &mut host,
            view_of(what),
            output,
            clock,
            keeper,
            steps,
        ),
        Err(fault) => unopened(alloc, fault, output),
    }
}

// The view of a report.
fn view_of(what: What) -> View
    ensures { result ≡ view_of what }
{
    match what {
        What::Season => View::Season,
        What::Table { id } => View::League { league: id },
        What::Fixture { id } => View::Fixture { fixture: id },
        What::Entry { id, gameweek } => View::EntryGameweek {
            entry: id,
            gameweek: u32::from(gameweek.get()),
        },
    }
}

/// Asks as the operator with this key for what each player did in a gameweek, writes the team of the week, and answers the
/// exit status.
pub fn dream<W: Sink, C: Clock, K: Keeper, L: Ledger>(
    alloc: Global,
    key: &Key,
    gameweek: Gw,
    output: &mut W,
    clock: &mut C,
    keeper: &mut K,
    steps: &mut ReadCount<L>,
) -> u8
    ensures dreams { Dreams K.tells K.serves K.holds K.passes K.faults keeper.old keeper.new key.now
        gameweek (C.left clock.old) (C.left clock.new) (W.taken output.old) (W.taken output.new)
        result }
    ensures statuses { (result ≡ 0) ⊎ (result ≡ 3) ⊎ (result ≡ 4) ⊎ (result ≡ 5) ⊎ (result ≡ 6)
        ⊎ (result ≡ 13) }
    ensures write { result ≡ 3 → Rose (W.faults output.old) (W.faults output.new) }
    ensures keeper { result ≡ 4 → Rose (K.faults keeper.old) (K.faults keeper.new) }
{
    match Host::open(alloc, keeper, key, steps) {
        Ok(mut host) => dreamed(alloc, &mut host, gameweek, output, clock, keeper, steps),
        Err(fault) => unopened(alloc, fault, output),
    }
}

/// Records a match of so many minutes by the rows of its events, for the operator with this key, and answers the exit
/// status.
pub fn play<W: Sink, C: Clock, K: Keeper, L: Ledger>(
    alloc: Global,
    key: &Key,
    fixture: u32,
    minutes: u8,
    bytes: &[u8],
    output: &mut W,
    clock: &mut C,
    keeper: &mut K,
    steps: &mut ReadCount<L>,
) -> u8
    ensures plays { Plays K.tells K.serves K.holds K.passes K.faults keeper.old keeper.new key.now
        fixture minutes bytes.now (C.left clock.old) (C.left clock.new) (W.taken output.old)
        (W.taken output.new) result }
    ensures statuses { (result ≡ 0) ⊎ (result ≡ 3) ⊎ (result ≡ 4) ⊎ (result ≡ 5) ⊎ (result ≡ 6)
        ⊎ (result ≡ 11) ⊎ (result ≡ 13) ⊎ (result ≡ 14) }
    ensures write { result ≡ 3 → Rose (W.faults output.old) (W.faults output.new) }
    ensures keeper { result ≡ 4 → Rose (K.faults keeper.old) (K.faults keeper.new) }
{
    match event_rows(alloc, bytes, minutes) {
        Ok(rows) => play_all(
            alloc,
            key,
            fixture,
            minutes,
            rows.as_slice(),
            output,
            clock,
            keeper,
            steps,
        ),
        Err(fault) => unread_rows(alloc, fault, output),
    }
}

// Does these rows.
fn play_all<W: Sink, C: Clock, K: Keeper, L: Ledger>(
    alloc: Global,
    key: &Key,
    fixture: u32,
    minutes: u8,
    rows: &[EventRow],
    output: &mut W,
    clock: &mut C,
    keeper: &mut K,
    steps: &mut ReadCount<L>,
) -> u8
    requires doable { AreDoable minutes 0 rows.now }
    requires few { length rows.now < 2 ^ 32 }
    ensures plays { RunsThrough K.tells K.serves K.holds K.passes K.faults keeper.old keeper.new
        key.now (C.left clock.old) (C.left clock.new) (W.taken output.old) (W.taken output.new)
        result
        (IsPlayed fixture minutes rows.now (W.taken output.old) (W.taken output.new) result) }
    ensures statuses { (result ≡ 0) ⊎ (result ≡ 3) ⊎ (result ≡ 4) ⊎ (result ≡ 5) ⊎ (result ≡ 6)
        ⊎ (result ≡ 13) ⊎ (result ≡ 14) }
    ensures write { result ≡ 3 → Rose (W.faults output.old) (W.faults output.new) }
    ensures keeper { result ≡ 4 → Rose (K.faults keeper.old) (K.faults keeper.new) }
{
    match Host::open(alloc, keeper, key, steps) {
        Ok(mut host) => played(
            alloc, &mut host, fixture, minutes, rows, output, clock, keeper, steps,
        ),
        Err(fault) => unopened(alloc, fault, output),
    }
}

/// Asks the made-up season of a seed, writes its summary, and answers the exit status.
pub fn generate<W: Sink, K: Keeper, L: Ledger>(
    alloc: Global,
    seed: u64,
    output: &mut W,
    keeper: &mut K,
    steps: &mut ReadCount<L>,
) -> u8
    ensures generates { (moments : Option Moments)
        → Generates K.tells K.serves K.holds K.passes K.faults keeper.old keeper.new seed moments
        (W.taken output.old) (W.taken output.new) result }
    ensures statuses { (result ≡ 0) ⊎ (result ≡ 3) ⊎ (result ≡ 4) ⊎ (result ≡ 5) ⊎ (result ≡ 6)
        ⊎ (result ≡ 13) }
    ensures write { result ≡ 3 → Rose (W.faults output.old) (W.faults output.new) }
    ensures keeper { result ≡ 4 → Rose (K.faults keeper.old) (K.faults keeper.new) }
{
    match made_up_key(alloc) {
        Ok(key) => generate_as(alloc, &key, seed, output, keeper, steps),
        Err(Memory) => MEMORY,
    }
}

// Asks it of the host of the operator with this key.
fn generate_as<W: Sink, K: Keeper, L: Ledger>(
    alloc: Global,
    key: &Key,
    seed: u64,
    output: &mut W,
    keeper: &mut K,
    steps: &mut ReadCount<L>,
) -> u8
    ensures generates { (moments : Option Moments)
        → RunsThrough K.tells K.serves K.holds K.passes K.faults keeper.old keeper.new key.now
        moments moments (W.taken output.old) (W.taken output.new) result
        (IsGenerated seed (W.taken output.old) (W.taken output.new) result) }
    ensures statuses { (result ≡ 0) ⊎ (result ≡ 3) ⊎ (result ≡ 4) ⊎ (result ≡ 5) ⊎ (result ≡ 6)
        ⊎ (result ≡ 13) }
    ensures write { result ≡ 3 → Rose (W.faults output.old) (W.faults output.new) }
    ensures keeper { result ≡ 4 → Rose (K.faults keeper.old) (K.faults keeper.new) }
{
    match Host::open(alloc, keeper, key, steps) {
        Ok(mut host) => generated(alloc, &mut host, seed, output, keeper, steps),
        Err(fault) => unopened(alloc, fault, output),
    }
}

fn made_up_key(alloc: Global) -> Result<Key, Memory>
    ensures { IfOk result (λ key. key ≡ made_up_key) }
{
    match Key::new(alloc, MADE_UP_KEY) {
        Ok(Some(key)) => Ok(key),
        Ok(None) => unreachable!(),
        Err(Memory) => Err(Memory),
    }
}
