// A command that is done, and kept as its caller's last one.
ghost use Rattle.std.specs.Prelude.{ℕ, IfErr, OnOk};
ghost use Rattle.season_book.specs.Commands.{IsCommand};
ghost use Rattle.season_book.specs.Doing.{IsStoreless};
ghost use Rattle.season_running.specs.Accepting.{IsBegun, IsGrantedTo, IsKept, IsTakenOrOut, IsWorkedOut};
ghost use Rattle.season_running.specs.Changed.{IsChangedBy};

use crate::judged::Judged;
use crate::lasts::{LastCommand, Lasts};
use crate::running::RunningSeason;
use fpl_base::{Caller, Memory, Moment, Rule};
use season_book::{Answer, Command, Made};
use season_facts::Season;
use std::alloc::Global;

/// Does a command that nothing refuses on a running season, by what `RunningSeason::judge` worked out, and keeps it as its
/// caller's last one under this number; tells what it made. It is put among the last commands before the season is
/// changed, since the change may not be taken back, and what stood there is put back where memory is wanting.
pub fn change(
    running: &mut RunningSeason,
    lasts: &mut Lasts,
    caller: &Caller,
    now: Moment,
    number: u64,
    command: &Command,
    judged: &Judged,
) -> Result<Made, Memory>
    requires read { IsCommand command.now }
    requires granted { IsGrantedTo running.old caller.now now command.now }
    requires worked { IsWorkedOut running.old caller.now command.now judged.now }
    ensures taken { IsTakenOrOut caller.now now number command.now running.old running.new lasts.old
        lasts.new result }
    ensures changed { OnOk result (IsChangedBy caller.now command.now running.old running.new) }
{
    let made = running.made_by(command);
    let before = keep(lasts, caller, number, command, &made)?;
    match running.change(caller, now, command, judged) {
        Ok(()) => {
            drop(before);
            Ok(made)
        }
        Err(Memory) => {
            lasts.put_back(caller, before);
            Err(Memory)
        }
    }
}

/// The facts of the season that a command begins, where none runs yet; the answer that refuses it, or want of memory.
pub fn begun(alloc: Global, command: &Command) -> Result<Season, Answer>
    requires { IsCommand command.now }
    ensures begun { (now : ℕ) → IsBegun now command.now result }
    ensures storeless { IfErr result IsStoreless }
{
    match command {
        Command::Season {
            profile,
            deadlines,
            split,
            clubs,
        } => Season::begin(alloc, *profile, deadlines, *split, clubs),
        _ => Err(Answer::Rule(Rule::NoSeason)),
    }
}

/// Keeps a command as its caller's last one, and hands out what stood there; as before after want of memory.
pub fn keep(
    lasts: &mut Lasts,
    caller: &Caller,
    number: u64,
    command: &Command,
    made: &Made,
) -> Result<Option<LastCommand>, Memory>
    requires { IsCommand command.now }
    ensures { IsKept caller.now number command.now made.now lasts.old lasts.new result }
{
    let last = LastCommand::new(number, command.copy()?, *made);
    Ok(lasts.put(caller, last)?)
}
