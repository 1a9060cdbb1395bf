// The team of the week of a gameweek.
ghost use Rattle.std.specs.Prelude.{◌≡◌, ◌≤◌, ◌<◌, ◌⊎◌, [], All, AllPairs, IfOk, OnOk, length, map, nat_le, false};
ghost use Rattle.fpl_base.specs.Causes.{Rose};
ghost use Rattle.rule_book.specs.FigureRange.{IsWithin};
ghost use Rattle.rule_book.specs.Ranks.{AllDiffer};
ghost use Rattle.season_running.specs.Standing.{players_in};
ghost use Rattle.request_handler.specs.Kept.{Leads, kept_as};
ghost use Rattle.local_requests.specs.Printing.{Prints, PrintsOne, unknown_text};
ghost use Rattle.fpl_dreaming.specs.Dreaming.{AsksOn, IsDreamed, IsDreamedIn, TellsDream};
ghost use Rattle.fpl_dreaming.specs.Rows.{with_row};
ghost use Rattle.fpl_dreaming.specs.Texts.{dream_text};

use crate::rows::{ask_row, locked_in};
use crate::text::dream_text;
use fpl_base::{Caller, Clock, Gw, Keeper, Memory, PlayerId, Position, ReadCount, Sink};
use local_requests::status::{DECLINED, DONE, MEMORY};
use local_requests::{ask, halted, print};
use season_book::{Request, View};
use season_keeping::Host;
use squad_rules::{Dream, dream_team};
use std::alloc::Global;
use std::sync::ledger::Ledger;

const UNKNOWN: &str = "unknown\n";

// No legal eleven can be formed of those who played.
const NO_ELEVEN: &str = "rule 50\n";

/// Asks for the season as the operator, and where the gameweek is locked for each player and what he did in it. It writes
/// the team of the week of those who played, and answers the exit status.
pub fn dreamed<W: Sink, C: Clock, K: Keeper, L: Ledger>(
    alloc: Global,
    host: &mut Host,
    gameweek: Gw,
    output: &mut W,
    clock: &mut C,
    keeper: &mut K,
    steps: &mut ReadCount<L>,
) -> u8
    requires fresh { host.old.stale ≡ false }
    ensures dreamed { Leads K.tells K.serves K.holds K.passes
        (kept_as host.old (C.left clock.old) (K.faults keeper.old) keeper.old)
        (kept_as host.new (C.left clock.new) (K.faults keeper.new) keeper.new)
        (IsDreamed gameweek (W.taken output.old) (W.taken output.new) result) }
    ensures statuses { (result ≡ 0) ⊎ (result ≡ 3) ⊎ (result ≡ 4) ⊎ (result ≡ 6) ⊎ (result ≡ 13) }
    ensures keeper { result ≡ 4 → Rose (K.faults keeper.old) (K.faults keeper.new) }
    ensures write { result ≡ 3 → Rose (W.faults output.old) (W.faults output.new) }
    ensures later { K.faults keeper.old ≤ K.faults keeper.new }
{
    let asked = Request::View(View::Season);
    let told = ask(host, keeper, clock, steps, Caller::Operator, &asked);
    match locked_in(&told) {
        Some(locked) => {
            if is_locked(gameweek, locked) {
                dreamed_in(alloc, host, gameweek, output, clock, keeper, steps)
            } else {
                tell_unknown(output)
            }
        }
        None => halted(alloc, &told, output),
    }
}

// Whether a gameweek is among so many that are locked.
fn is_locked(gameweek: Gw, locked: u8) -> bool
    ensures { result ≡ nat_le gameweek locked }
{
    gameweek.get() <= locked
}

// Writes that the gameweek is not locked.
fn tell_unknown<W: Sink>(output: &mut W) -> u8
    ensures printed { Prints unknown_text 13 result (W.taken output.old) (W.taken output.new) }
    ensures statuses { (result ≡ 3) ⊎ (result ≡ 13) }
    ensures write { result ≡ 3 → Rose (W.faults output.old) (W.faults output.new) }
{
    print(output, UNKNOWN.as_bytes(), DECLINED)
}

// Asks for each player of the season and what he did in the gameweek, which is locked.
fn dreamed_in<W: Sink, C: Clock, K: Keeper, L: Ledger>(
    alloc: Global,
    host: &mut Host,
    gameweek: Gw,
    output: &mut W,
    clock: &mut C,
    keeper: &mut K,
    steps: &mut ReadCount<L>,
) -> u8
    requires fresh { host.old.stale ≡ false }
    ensures dreamed { Leads K.tells K.serves K.holds K.passes
        (kept_as host.old (C.left clock.old) (K.faults keeper.old) keeper.old)
        (kept_as host.new (C.left clock.new) (K.faults keeper.new) keeper.new)
        (IsDreamedIn gameweek (W.taken output.old) (W.taken output.new) result) }
    ensures statuses { (result ≡ 0) ⊎ (result ≡ 3) ⊎ (result ≡ 4) ⊎ (result ≡ 6) ⊎ (result ≡ 13) }
    ensures keeper { result ≡ 4 → Rose (K.faults keeper.old) (K.faults keeper.new) }
    ensures write { result ≡ 3 → Rose (W.faults output.old) (W.faults output.new) }
    ensures later { K.faults keeper.old ≤ K.faults keeper.new }
{
    match players_of(alloc, host) {
        Ok(players) => asked_on(
            alloc, host, &players, gameweek, output, clock, keeper, steps,
        ),
        Err(Memory) => MEMORY,
    }
}

// The players of the season, by ascending id.
fn players_of(alloc: Global, host: &Host) -> Result<Vec<PlayerId>, Memory>
    ensures value { IfOk result (λ players.
        players.items ≡ map (λ player. player.id) (players_in host.now.rows.facts)) }
    ensures rise { IfOk result (λ players. AllPairs (λ a b. a < b) players.items) }
    ensures few { IfOk result (λ players. length players.items ≤ 1200) }
{
    // That the players are lawful, for the prover.
    host.keeps_order();
    let mut players = Vec::new(alloc);
    while let Some(player) = host.player_at(players.len()) {
        players.push(player)?;
    }
    Ok(players)
}

// Asks for these players one after another, and writes the team of the week of those who played.
fn asked_on<W: Sink, C: Clock, K: Keeper, L: Ledger>(
    alloc: Global,
    host: &mut Host,
    players: &[PlayerId],
    gameweek: Gw,
    output: &mut W,
    clock: &mut C,
    keeper: &mut K,
    steps: &mut ReadCount<L>,
) -> u8
    requires fresh { host.old.stale ≡ false }
    requires rise { AllPairs (λ a b. a < b) players.now }
    requires few { length players.now ≤ 1200 }
    ensures asked { Leads K.tells K.serves K.holds K.passes
        (kept_as host.old (C.left clock.old) (K.faults keeper.old) keeper.old)
        (kept_as host.new (C.left clock.new) (K.faults keeper.new) keeper.new)
        (AsksOn gameweek players.now [] (W.taken output.old) (W.taken output.new) result) }
    ensures statuses { (result ≡ 0) ⊎ (result ≡ 3) ⊎ (result ≡ 4) ⊎ (result ≡ 6) ⊎ (result ≡ 13) }
    ensures keeper { result ≡ 4 → Rose (K.faults keeper.old) (K.faults keeper.new) }
    ensures write { result ≡ 3 → Rose (W.faults output.old) (W.faults output.new) }
    ensures later { K.faults keeper.old ≤ K.faults keeper.new }
{
    let mut rows = Vec::new(alloc);
    for player in players {
        match ask_row(host, *player, gameweek, clock, keeper, steps) {
            Ok(row) => {
                if keep(&mut rows, row).is_err() {
                    return MEMORY;
                }
            }
            Err(told) => return halted(alloc, &told, output),
        }
    }
    tell(alloc, &rows, output)
}

// Keeps a row, if there is one.
fn keep(
    rows: &mut Vec<(PlayerId, Position, i32)>,
    row: Option<(PlayerId, Position, i32)>,
) -> Result<(), Memory>
    ensures { OnOk result (rows.new.items ≡ with_row rows.old.items row) }
{
    if let Some(row) = row {
        rows.push(row)?;
    }
    Ok(())
}

// Writes the team of the week of rows, or that there is none.
fn tell<W: Sink>(alloc: Global, rows: &[(PlayerId, Position, i32)], output: &mut W) -> u8
    requires few { length rows.now ≤ 1200 }
    requires differ { AllDiffer (map (λ row. row.0) rows.now) }
    requires near { All (λ row. IsWithin 1000000 row.2) rows.now }
    ensures told { TellsDream rows.now (W.taken output.old) (W.taken output.new) result }
    ensures statuses { (result ≡ 0) ⊎ (result ≡ 3) ⊎ (result ≡ 6) ⊎ (result ≡ 13) }
    ensures write { result ≡ 3 → Rose (W.faults output.old) (W.faults output.new) }
{
    match dream_team(alloc, rows) {
        Ok(Some(dream)) => write_dream(alloc, rows, &dream, output),
        Ok(None) => print(output, NO_ELEVEN.as_bytes(), DECLINED),
        Err(Memory) => MEMORY,
    }
}

fn write_dream<W: Sink>(
    alloc: Global,
    rows: &[(PlayerId, Position, i32)],
    dream: &Dream,
    output: &mut W,
) -> u8
    ensures printed { PrintsOne (λ text. text ≡ dream_text rows.now dream.now) 0 result
        (W.taken output.old) (W.taken output.new) }
    ensures statuses { (result ≡ 0) ⊎ (result ≡ 3) ⊎ (result ≡ 6) }
    ensures write { result ≡ 3 → Rose (W.faults output.old) (W.faults output.new) }
{
    match dream_text(alloc, rows, dream) {
        Ok(text) => print(output, text.as_bytes(), DONE),
        Err(Memory) => MEMORY,
    }
}
