// A command that is judged and done in memory, with the slots of the records that it may have changed.
ghost use Rattle.std.specs.Prelude.{◌≡◌, ◌≢◌, ◌≤◌, ◌+◌, ℕ, IfErr, IfOk, OnOk};
ghost use Rattle.season_book.specs.Book.{Book};
ghost use Rattle.season_book.specs.Commands.{IsCommand};
ghost use Rattle.season_book.specs.Doing.{IsStoreless};
ghost use Rattle.season_book.specs.declared.answer.Answer.TheVariants as answer_of;
ghost use Rattle.season_records.specs.Touched.{touched};
ghost use Rattle.season_running.specs.Accepting.{IsGrantedTo, IsTaken, IsTakenOrOut, IsWorkedOut};
ghost use Rattle.season_running.specs.Standing.{Plays};
ghost use Rattle.season_cells.specs.Plans.{IsPlanOf, lines_named};
ghost use Rattle.season_host.specs.Accepted.{IsBegunAndKept, made_in, made_of};
ghost use Rattle.season_host.specs.Cells.{IsChangeOf, LeadsFrom};

use crate::change::Change;
use fpl_base::{Caller, Key, Memory, Moment, ReadCount};
use record_changes::{touched, touched_first};
use season_book::{Answer, Command, Made};
use season_cells::{Plan, planned, plans_lead};
use season_records::Slot;
use season_running::{Judged, Lasts, RunningSeason, begun, change, keep};
use std::alloc::Global;
use std::sync::ledger::Ledger;

/// What a command made, the slots of the records that it may have changed, and what it changed that cells hang on.
#[derive(Drop)]
pub struct Done {
    pub made: Made,
    pub slots: Vec<Slot>,
    pub change: Change,
}

/// A season that a command began, and the slots of its records.
#[derive(Drop)]
pub struct Begun {
    pub running: RunningSeason,
    pub slots: Vec<Slot>,
}

// Does a command on a running season, where nothing refuses it. It is judged before memory is asked for. The line that it
// takes away, and those with which it is compared, are counted reads.
pub fn accept<L: Ledger>(
    alloc: Global,
    running: &mut RunningSeason,
    lasts: &mut Lasts,
    operator: &Key,
    caller: &Caller,
    now: Moment,
    number: u64,
    command: &Command,
    steps: &mut ReadCount<L>,
) -> Result<Done, Answer>
    requires { IsCommand command.now }
    ensures taken { IsTaken operator.now caller.now now number command.now running.old running.new
        lasts.old lasts.new (made_in result) }
    ensures touched { IfOk result
        (λ done. (book : Book) → Plays running.old book
        → done.slots.items ≡ touched book caller.now command.now) }
    ensures change { IfOk result (λ done. IsChangeOf running.old running.new done.change) }
    ensures storeless { IfErr result IsStoreless }
    ensures counted { steps.new ≤ steps.old + lines_named running.old.facts command.now + 1 }
    ensures refused { IfErr result (λ reply. reply ≢ answer_of.Memory → steps.new ≤ steps.old + 1) }
{
    match running.judge(operator, caller, now, command, steps) {
        Ok(judged) => match touched(alloc, running, caller, command) {
            Ok(slots) => match change_as(
                alloc, running, lasts, caller, now, number, command, &judged, steps,
            ) {
                Ok((made, plan)) => Ok(Done {
                    made,
                    slots,
                    change: Change::Plan(plan),
                }),
                Err(Memory) => Err(Answer::Memory),
            },
            Err(Memory) => Err(Answer::Memory),
        },
        Err(refused) => Err(refused),
    }
}

// Does a command that nothing refuses, and tells what it made and what it changed that cells hang on.
fn change_as<L: Ledger>(
    alloc: Global,
    running: &mut RunningSeason,
    lasts: &mut Lasts,
    caller: &Caller,
    now: Moment,
    number: u64,
    command: &Command,
    judged: &Judged,
    steps: &mut ReadCount<L>,
) -> Result<(Made, Plan), Memory>
    requires read { IsCommand command.now }
    requires granted { IsGrantedTo running.old caller.now now command.now }
    requires worked { IsWorkedOut running.old caller.now command.now judged.now }
    ensures taken { IsTakenOrOut caller.now now number command.now running.old running.new lasts.old
        lasts.new (made_of result) }
    ensures leads { IfOk result (λ done. LeadsFrom running.old running.new done.1) }
    ensures counted { steps.new ≤ steps.old + lines_named running.old.facts command.now }
{
    let plan = planned(alloc, running.season(), running.leagues(), command, steps)?;
    let made = change_by(running, lasts, caller, now, number, command, judged, &plan)?;
    Ok((made, plan))
}

// Does a command of which the plan says what it changes.
fn change_by(
    running: &mut RunningSeason,
    lasts: &mut Lasts,
    caller: &Caller,
    now: Moment,
    number: u64,
    command: &Command,
    judged: &Judged,
    plan: &Plan,
) -> Result<Made, Memory>
    requires read { IsCommand command.now }
    requires granted { IsGrantedTo running.old caller.now now command.now }
    requires worked { IsWorkedOut running.old caller.now command.now judged.now }
    requires plan { IsPlanOf running.old.facts running.old.leagues command.now plan.now }
    ensures taken { IsTakenOrOut caller.now now number command.now running.old running.new lasts.old
        lasts.new result }
    ensures leads { OnOk result (LeadsFrom running.old running.new plan.now) }
{
    // The laws by which a season stands behind it, for the prover: of before, and of what is left.
    plans_lead();
    running.keeps_rows();
    let made = change(running, lasts, caller, now, number, command, judged)?;
    running.keeps_rows();
    running.season().keeps_facts();
    Ok(made)
}

// The season that a command begins, which is kept as its caller's last one.
pub fn begin(
    alloc: Global,
    lasts: &mut Lasts,
    caller: &Caller,
    number: u64,
    command: &Command,
) -> Result<Begun, Answer>
    requires { IsCommand command.now }
    ensures begun { (now : ℕ)
        → IsBegunAndKept caller.now now number command.now lasts.old lasts.new result }
    ensures touched { IfOk result
        (λ begun. (book : Book) → begun.slots.items ≡ touched book caller.now command.now) }
    ensures storeless { IfErr result IsStoreless }
{
    match begun(alloc, command) {
        Ok(season) => match touched_first(alloc, caller, command) {
            Ok(slots) => match keep(lasts, caller, number, command, &Made::Nothing) {
                Ok(before) => {
                    drop(before);
                    let running = RunningSeason::begin(alloc, season);
                    Ok(Begun { running, slots })
                }
                Err(Memory) => Err(Answer::Memory),
            },
            Err(Memory) => Err(Answer::Memory),
        },
        Err(refused) => Err(refused),
    }
}
