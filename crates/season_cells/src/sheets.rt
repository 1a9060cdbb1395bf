// What a sheet changes: the lines that are others, and the mark.
ghost use Rattle.std.specs.Prelude.{◌≡◌, ◌≤◌, ◌+◌, IfOk, length};
ghost use Rattle.rule_book.specs.MatchFacts.{is_finished, line_in, lines_of};
ghost use Rattle.season_cells.specs.Plans.{AreOthersIn, IsSheet};

use crate::plan::{Plan, has_line};
use fpl_base::{FixtureId, Memory, PlayerId, ReadCount};
use rule_book::Line;
use season_facts::Season;
use std::alloc::Global;
use std::sync::ledger::Ledger;

// A sheet in the place of the one that stands.
pub(crate) fn sheet_plan<L: Ledger>(
    alloc: Global,
    season: &Season,
    fixture: FixtureId,
    lines: &[(PlayerId, Line)],
    finished: bool,
    steps: &mut ReadCount<L>,
) -> Result<Plan, Memory>
    ensures plan { IfOk result
        (λ plan. IsSheet fixture (lines_of season.now.matches fixture)
        (is_finished season.now.matches fixture) lines.now finished plan) }
    ensures counted { steps.new ≤ steps.old + length (lines_of season.now.matches fixture) }
{
    let players = others(alloc, season, fixture, lines, steps)?;
    Ok(Plan::Sheet {
        fixture,
        players,
        marked: season.is_finished(fixture) != finished,
    })
}

// The players whose lines are others in a sheet: of those who have a line, and of those who get one.
fn others<L: Ledger>(
    alloc: Global,
    season: &Season,
    fixture: FixtureId,
    lines: &[(PlayerId, Line)],
    steps: &mut ReadCount<L>,
) -> Result<Vec<PlayerId>, Memory>
    ensures others { IfOk result
        (λ players. AreOthersIn (lines_of season.now.matches fixture) lines.now players.items) }
    ensures counted { steps.new ≤ steps.old + length (lines_of season.now.matches fixture) }
{
    let mut found = Vec::new(alloc);
    for player in season.matches().players_of(fixture) {
        if !has_line(season, fixture, *player, &line_among(lines, *player), steps) {
            found.push(*player)?;
        }
    }
    for row in lines {
        if !season.matches().has_line(fixture, row.0) {
            found.push(row.0)?;
        }
    }
    Ok(found)
}

// A player's line among some lines.
fn line_among(lines: &[(PlayerId, Line)], player: PlayerId) -> Option<Line>
    ensures { result ≡ line_in lines.now player }
{
    for row in lines {
        if row.0 == player {
            return Some(row.1);
        }
    }
    None
}
