// What refuses a player another name and another position.
ghost use Rattle.std.specs.Prelude.{◌≡◌, OnOk};
ghost use Rattle.rule_book.specs.Batch.{is_same_position};
ghost use Rattle.rule_book.specs.PlayerFigures.{position_in};
ghost use Rattle.rule_book.specs.Refusals.{IsJudged};
ghost use Rattle.manager_book.specs.Managers.{managers_had};
ghost use Rattle.season_book.specs.PlayerCommands.{use_refusal};
ghost use Rattle.season_entries.specs.Amended.{AmendmentsLeaveEntries, CanAmend, IsAmendJudgedByBooks, amend_broken};
ghost use Rattle.season_entries.specs.Deeds.{IsAnswered};

use fpl_base::{PlayerId, Position, Rule};
use manager_book::ManagerBook;
use season_book::Answer;
use season_facts::Season;

// Whether two positions are the same.
fn is_same_position(one: Position, other: Position) -> bool
    ensures { result ≡ is_same_position one other }
{
    one == other
}

// Whether a player plays at a position.
fn plays_at(season: &Season, player: PlayerId, position: Position) -> bool
    ensures { result ≡ is_same_position (position_in season.now.players player) position }
{
    match season.players().get(player) {
        Some(row) => is_same_position(row.position, position),
        None => is_same_position(Position::Keeper, position),
    }
}

// What refuses a player this position.
fn judge_use(
    season: &Season,
    managers: &ManagerBook,
    player: PlayerId,
    position: Position,
) -> Result<(), Rule>
    ensures { IsJudged
        (use_refusal season.now (managers_had managers.now.managers player) player position) result }
{
    if plays_at(season, player, position) {
        return Ok(());
    }
    if managers.have_had(player) {
        return Err(Rule::InUse { player });
    }
    if season.has_lines(player) {
        return Err(Rule::InUse { player });
    }
    Ok(())
}

// The answer that refuses a player this position, by the managers' rows and transfers.
fn judge_amend_by_rows(
    season: &Season,
    managers: &ManagerBook,
    number: u32,
    position: Position,
) -> Result<(), Answer>
    ensures { IsAnswered (amend_broken season.now managers.now.managers number position) result }
{
    match season.player_there(number) {
        Some(player) => match judge_use(season, managers, player, position) {
            Ok(()) => Ok(()),
            Err(rule) => Err(Answer::Rule(rule)),
        },
        None => Err(Answer::Unknown),
    }
}

/// The answer that refuses a player this position, and with it any name; `Ok` where nothing does. It takes no memory.
/// `Unknown` refuses it where there is no such player, and then `InUse` where the position is another one and an entry has
/// had him, a transfer names him or he has a line. Only where the position is another one are the rows and the transfers of
/// all entries gone through, and the lines of all fixtures.
pub fn judge_amend(
    season: &Season,
    managers: &ManagerBook,
    number: u32,
    position: Position,
) -> Result<(), Answer>
    ensures rows { IsAnswered (amend_broken season.now managers.now.managers number position) result }
    ensures books { IsAmendJudgedByBooks season.now managers.now.managers number position result }
    ensures granted { OnOk result (CanAmend season.now managers.now.managers number position) }
{
    // That the ids of a season's players differ, for the prover.
    let _count = season.players().len();
    judge_amend_by_rows(season, managers, number, position)
}

/// A law: another name and another position, which nothing refuses a player, leave the entries.
pub fn amendments_leave_entries()
    ensures { AmendmentsLeaveEntries }
{}
