// What refuses a manager's command, and what it comes to.
ghost use Rattle.std.specs.Prelude.{◌≡◌, ◌≤◌, true, length, IfOk};
ghost use Rattle.rule_book.specs.Calendar.{next_gameweek};
ghost use Rattle.rule_book.specs.Refusals.{IsJudged};
ghost use Rattle.manager_book.specs.Managers.{season_of};
ghost use Rattle.season_book.specs.Commands.{IsCommand, part_of};
ghost use Rattle.season_book.specs.EntryCommands.{names_players};
ghost use Rattle.season_book.specs.declared.part.Part.TheVariants as part;
ghost use Rattle.season_entries.specs.Deeds.{AreInTime, IsAnswered, IsDeedJudged, IsJudgedByBooks, deed_answer, rows_refusal};

use crate::there::names_players;
use fpl_base::{EntryId, Rule};
use manager_book::{
    JudgedDeed, ManagerBook, judge_cancel, judge_chip, judge_lineup, judge_squad, judge_transfers,
    rows_refuse_alike,
};
use season_book::{Answer, Command};
use season_facts::Season;

// What a command comes to whose players are there.
fn judge_named(
    season: &Season,
    managers: &ManagerBook,
    e: EntryId,
    command: &Command,
) -> Result<JudgedDeed, Rule>
    requires issued { e ≤ length managers.now.managers }
    requires read { IsCommand command.now }
    requires deed { part_of command.now ≡ part.Deeds }
    requires later { AreInTime (next_gameweek season.now.calendar) managers.now.managers }
    requires there { names_players season.now command.now ≡ true }
    ensures refused { IsJudged
        (rows_refusal season.now (season_of managers.now e) command.now) result }
    ensures judged { IfOk result
        (IsDeedJudged season.now (season_of managers.now e) command.now) }
{
    let Some(g) = season.calendar().next() else {
        return Err(Rule::SeasonOver);
    };
    let rows = managers.issued(e);
    match command {
        Command::Squad {
            players,
            captain,
            vice,
        } => judge_squad(rows, g, season.players(), players, *captain, *vice),
        Command::Transfers { swaps } => {
            judge_transfers(rows, g, season.players(), swaps.as_slice())
        }
        Command::Lineup {
            players,
            captain,
            vice,
        } => judge_lineup(rows, g, players, *captain, *vice),
        Command::Chip { chip } => judge_chip(rows, g, season.calendar().split(), *chip),
        Command::CancelChip => judge_cancel(rows, g),
        _ => unreachable!(),
    }
}

/// What a command of entry `e`'s manager comes to in the next gameweek, for `do_deed`, or the answer that refuses it. It
/// takes no memory. The first of these that holds refuses it: `Unknown`, a player whom it names is not there;
/// `SeasonOver`, every gameweek is locked; then what `manager_book`'s judge of the command says.
pub fn judge_deed(
    season: &Season,
    managers: &ManagerBook,
    e: EntryId,
    command: &Command,
) -> Result<JudgedDeed, Answer>
    requires issued { e ≤ length managers.now.managers }
    requires read { IsCommand command.now }
    requires deed { part_of command.now ≡ part.Deeds }
    requires later { AreInTime (next_gameweek season.now.calendar) managers.now.managers }
    ensures rows { IsAnswered
        (deed_answer season.now
        (rows_refusal season.now (season_of managers.now e) command.now) command.now) result }
    ensures books { IsJudgedByBooks season.now managers.now.managers e command.now result }
    ensures judged { IfOk result
        (IsDeedJudged season.now (season_of managers.now e) command.now) }
{
    // The law on which the clause of books stands, and that the ids of a season's players differ, for the prover.
    rows_refuse_alike();
    let _count = season.players().len();
    if !names_players(season, command) {
        return Err(Answer::Unknown);
    }
    match judge_named(season, managers, e, command) {
        Ok(deed) => Ok(deed),
        Err(rule) => Err(Answer::Rule(rule)),
    }
}
