// The draw of a cup.
ghost use Rattle.std.specs.Prelude.{◌≡◌, OnErr, OnOk, length};
ghost use Rattle.rule_book.specs.Refusals.{IsJudged};
ghost use Rattle.season_book.specs.Commands.{part_of};
ghost use Rattle.season_book.specs.LeagueCommands.{cup_broken};
ghost use Rattle.season_entries.specs.Known.{is_registered_by};
ghost use Rattle.season_book.specs.declared.command.Command.TheVariants as command;
ghost use Rattle.season_book.specs.declared.part.Part.TheVariants as part;
ghost use Rattle.season_entries.specs.Deeds.{IsAnswered};
ghost use Rattle.season_competitions.specs.Cups.{IsCupGranted, IsCupJudgedByBooks, cup_answer_by, cups_after};

use crate::known::{are_entrants_issued, are_entrants_registered};
use fpl_base::{Gw, Memory, Refused, Rule};
use leagues_and_cups::{Bracket, Coins, Cups, Slots, check_draw, unbroken_cups_have_shape};
use manager_book::ManagerBook;
use season_book::{Answer, Command};
use season_entries::entries_are_known;
use season_facts::Season;

// What refuses a draw whose ids are there.
fn judge_there(
    season: &Season,
    managers: &ManagerBook,
    cups: &Cups,
    start: Gw,
    slots: &[u32],
    coins: &[u8],
) -> Result<(), Rule>
    ensures { IsJudged
        (cup_broken season.now (is_registered_by managers.now.managers) (length cups.now)
        (record { start = start; slots = slots.now; coins = coins.now })) result }
{
    if cups.count() >= 32 {
        return Err(Rule::CupsFull);
    }
    let calendar = season.calendar();
    match check_draw(start, slots, coins, calendar.gameweeks(), calendar.locked()) {
        Ok(()) => {}
        Err(rule) => return Err(rule),
    }
    if are_entrants_registered(managers, slots) {
        Ok(())
    } else {
        Err(Rule::DrawWrong)
    }
}

// What refuses a draw.
fn judge_draw(
    season: &Season,
    managers: &ManagerBook,
    cups: &Cups,
    start: Gw,
    slots: &[u32],
    coins: &[u8],
) -> Result<(), Answer>
    ensures { IsAnswered
        (cup_answer_by season.now managers.now.managers (length cups.now)
        (command.Cup start slots.now coins.now)) result }
{
    if start.get() > season.calendar().gameweeks() {
        return Err(Answer::Unknown);
    }
    if !are_entrants_issued(managers, slots) {
        return Err(Answer::Unknown);
    }
    match judge_there(season, managers, cups, start, slots, coins) {
        Ok(()) => Ok(()),
        Err(rule) => Err(Answer::Rule(rule)),
    }
}

// The same of a command.
fn judge_by_rows(
    season: &Season,
    managers: &ManagerBook,
    cups: &Cups,
    command: &Command,
) -> Result<(), Answer>
    requires { part_of command.now ≡ part.Cups }
    ensures { IsAnswered
        (cup_answer_by season.now managers.now.managers (length cups.now) command.now) result }
{
    match command {
        Command::Cup {
            start,
            slots,
            coins,
        } => judge_draw(
            season,
            managers,
            cups,
            *start,
            slots.as_slice(),
            coins.as_slice(),
        ),
        _ => unreachable!(),
    }
}

/// The answer that refuses the draw of a cup; `Ok` where nothing does. It takes no memory. The first of these that holds
/// refuses it: `Unknown`, the gameweek or an entry that it names is not there; then by the rules of docs/RULES.md, "Cups".
pub fn judge_cup(
    season: &Season,
    managers: &ManagerBook,
    cups: &Cups,
    command: &Command,
) -> Result<(), Answer>
    requires { part_of command.now ≡ part.Cups }
    ensures rows { IsAnswered
        (cup_answer_by season.now managers.now.managers (length cups.now) command.now) result }
    ensures books { IsCupJudgedByBooks season.now managers.now.managers
        (length cups.now) command.now result }
    ensures granted { OnOk result (IsCupGranted season.now cups.now command.now) }
{
    // The law on which the clause of books stands, and that players are lawful, for the prover.
    entries_are_known();
    let _players = season.players().len();
    judge_by_rows(season, managers, cups, command)
}

/// Draws a cup where nothing refuses it, as `judge_cup` says; unchanged where memory is wanting.
pub fn do_cup(season: &Season, cups: &mut Cups, command: &Command) -> Result<(), Memory>
    requires part { part_of command.now ≡ part.Cups }
    requires granted { IsCupGranted season.now cups.old command.now }
    ensures done { OnOk result (cups.new ≡ cups_after cups.old command.now) }
    ensures err { OnErr result (cups.new ≡ cups.old) }
{
    match command {
        Command::Cup {
            start,
            slots,
            coins,
        } => add(season, cups, *start, slots, coins),
        _ => unreachable!(),
    }
}

// Adds a cup that nothing refuses.
fn add(
    season: &Season,
    cups: &mut Cups,
    start: Gw,
    slots: &Slots,
    coins: &Coins,
) -> Result<(), Memory>
    requires granted { IsCupGranted season.now cups.old (command.Cup start slots.now coins.now) }
    ensures done { OnOk result
        (cups.new ≡ cups_after cups.old (command.Cup start slots.now coins.now)) }
    ensures err { OnErr result (cups.new ≡ cups.old) }
{
    // The law that a cup which breaks no rule has the shape of one, and what the type tells of the season, for the prover.
    unbroken_cups_have_shape();
    let _season = season;
    let slots = slots.copy()?;
    let coins = coins.copy()?;
    match cups.add(Bracket {
        start,
        slots,
        coins,
    }) {
        Ok(_) => Ok(()),
        Err(Refused::Memory) => Err(Memory),
        Err(Refused::Rule(_)) => unreachable!(),
    }
}
