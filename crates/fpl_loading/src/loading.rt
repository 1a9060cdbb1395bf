// The load: commands that are asked of a host, one after another.
ghost use Rattle.std.specs.Prelude.{◌≡◌, ◌≤◌, ◌+◌, ◌⊎◌, All, IfErr, IfOk, IfSome, None, Some, false, string_bytes, true};
ghost use Rattle.fpl_base.specs.Causes.{Rose};
ghost use Rattle.fpl_base.specs.declared.kinds.Caller.TheVariants as caller_of;
ghost use Rattle.season_book.specs.Commands.{IsCommand};
ghost use Rattle.season_book.specs.Hosts.{IsRequest};
ghost use Rattle.season_book.specs.declared.answer.Answer.TheVariants as answer_of;
ghost use Rattle.season_book.specs.declared.request.Request.TheVariants as request_of;
ghost use Rattle.season_keeping.specs.Answering.{IsCaused};
ghost use Rattle.request_handler.specs.Kept.{Leads, kept_as};
ghost use Rattle.local_requests.specs.Asking.{IsHeard};
ghost use Rattle.local_requests.specs.Printing.{PrintsOne};
ghost use Rattle.fpl_loading.specs.Loading.{IsLoad, counts_of, is_number_old, loaded_text};

use crate::notes::{LoadEnd, Place, cause_of, note_passed, place_behind};
use fpl_base::{Caller, Clock, Keeper, ReadCount, Rule, Sink};
use local_requests::status::{DONE, MEMORY};
use local_requests::{ask, halted, print};
use season_book::{Answer, Command, Request};
use season_keeping::Host;
use std::alloc::{AllocError, Global};
use std::sync::ledger::Ledger;

/// Asks commands as the operator, one after another, the first with number 1 and each other one with the next. Behind the
/// last of them it writes how many were loaded and how many were there before; an answer that is neither ends the load. It
/// answers the exit status, and what whoever loads should know beside.
pub fn loaded<W: Sink, C: Clock, K: Keeper, L: Ledger>(
    alloc: Global,
    host: &mut Host,
    commands: Vec<Command>,
    output: &mut W,
    clock: &mut C,
    keeper: &mut K,
    steps: &mut ReadCount<L>,
) -> LoadEnd
    requires fresh { host.old.stale ≡ false }
    requires lawful { All IsCommand commands.items }
    ensures loaded { Leads K.tells K.serves K.holds K.passes
        (kept_as host.old (C.left clock.old) (K.faults keeper.old) keeper.old)
        (kept_as host.new (C.left clock.new) (K.faults keeper.new) keeper.new)
        (IsLoad commands.items (W.taken output.old) (W.taken output.new) result.status
        result.note) }
    ensures statuses { (result.status ≡ 0) ⊎ (result.status ≡ 3) ⊎ (result.status ≡ 4)
        ⊎ (result.status ≡ 6) ⊎ (result.status ≡ 13) }
    ensures keeper { result.status ≡ 4 → Rose (K.faults keeper.old) (K.faults keeper.new) }
    ensures write { result.status ≡ 3 → Rose (W.faults output.old) (W.faults output.new) }
    ensures later { K.faults keeper.old ≤ K.faults keeper.new }
{
    let last = host.last(Caller::Operator);
    let mut loaded = 0u64;
    let mut there = 0u64;
    let mut number = 0u64;
    let mut place = Place { file: 0, row: 0 };
    for command in commands {
        let here = place_behind(place, &command);
        place = here;
        number += 1;
        let told = ask_command(host, number, command, clock, keeper, steps);
        match counted(last, number, told) {
            Ok(counts) => {
                loaded += counts.0;
                there += counts.1;
            }
            Err(told) => {
                let note = cause_of(here, &told);
                let status = halted(alloc, &told, output);
                return LoadEnd { status, note };
            }
        }
    }
    let note = note_passed(last, number);
    let status = tell(alloc, loaded, there, output);
    LoadEnd { status, note }
}

// Asks a command as the operator.
fn ask_command<C: Clock, K: Keeper, L: Ledger>(
    host: &mut Host,
    number: u64,
    command: Command,
    clock: &mut C,
    keeper: &mut K,
    steps: &mut ReadCount<L>,
) -> Answer
    requires fresh { host.old.stale ≡ false }
    requires asked { IsRequest (request_of.Command number command) }
    ensures heard { Leads K.tells K.serves K.holds K.passes
        (kept_as host.old (C.left clock.old) (K.faults keeper.old) keeper.old)
        (kept_as host.new (C.left clock.new) (K.faults keeper.new) keeper.new)
        (λ served behind. IsHeard served caller_of.Operator
        (request_of.Command number command) result behind) }
    ensures stale { host.new.stale ≡ true
        → (result ≡ answer_of.Memory) ⊎ (result ≡ answer_of.Keeper) }
    ensures caused { IsCaused
        (record { before = K.faults keeper.old; behind = K.faults keeper.new }) result }
    ensures later { K.faults keeper.old ≤ K.faults keeper.new }
{
    let asked = Request::Command { number, command };
    ask(host, keeper, clock, steps, Caller::Operator, &asked)
}

// How many commands an answer counts as loaded, and as there before; or it is the answer that ends the load.
fn counted(last: u64, number: u64, told: Answer) -> Result<(u64, u64), Answer>
    ensures counts { IfOk result (λ counts. Some counts ≡ counts_of last number told) }
    ensures one { IfOk result (λ counts. counts.0 + counts.1 ≡ 1) }
    ensures ends { IfErr result (λ other. (other ≡ told) × (None ≡ counts_of last number told)) }
{
    match counts_of(last, number, &told) {
        Some(counts) => Ok(counts),
        None => Err(told),
    }
}

fn counts_of(last: u64, number: u64, told: &Answer) -> Option<(u64, u64)>
    ensures counts { result ≡ counts_of last number told.now }
    ensures one { IfSome result (λ counts. counts.0 + counts.1 ≡ 1) }
{
    match told {
        Answer::Done { .. } => {
            if number > last {
                Some((1, 0))
            } else {
                Some((0, 1))
            }
        }
        Answer::Rule(broken) => {
            if is_number_old(broken) {
                Some((0, 1))
            } else {
                None
            }
        }
        _ => None,
    }
}

fn is_number_old(broken: &Rule) -> bool
    ensures { result ≡ is_number_old broken.now }
{
    matches!(broken, Rule::NumberOld { .. })
}

// Writes how many commands were loaded, and how many were there before.
fn tell<W: Sink>(alloc: Global, loaded: u64, there: u64, output: &mut W) -> u8
    ensures told { PrintsOne (λ text. text ≡ loaded_text loaded there) 0 result (W.taken output.old)
        (W.taken output.new) }
    ensures statuses { (result ≡ 0) ⊎ (result ≡ 3) ⊎ (result ≡ 6) }
    ensures write { result ≡ 3 → Rose (W.faults output.old) (W.faults output.new) }
{
    match loaded_line(alloc, loaded, there) {
        Ok(text) => print(output, text.as_bytes(), DONE),
        Err(AllocError) => MEMORY,
    }
}

fn loaded_line(alloc: Global, loaded: u64, there: u64) -> Result<String, AllocError>
    ensures { IfOk result (λ text. string_bytes text ≡ loaded_text loaded there) }
{
    format!(in alloc; "loaded {}, there {}\n", loaded, there)
}
