// The refusals of what is handed in on a match, in their order.
ghost use Rattle.std.specs.Prelude.{◌≡◌, ◌≤◌, ◌==◌, All, length, OnOk};
ghost use Rattle.std.specs.List.{list_any};
ghost use Rattle.rule_book.specs.MatchFacts.{players_in};
ghost use Rattle.rule_book.specs.MatchCalls.{not_locked, lines_range, sheet_refusal};
ghost use Rattle.rule_book.specs.Repeats.{first_repeat};
ghost use Rattle.rule_book.specs.Refusals.{IsJudged};

use crate::line_ok;
use fpl_base::{FixtureId, PlayerId, Rule};
use rule_book::Line;

/// At most so many lines stand in a fixture.
pub const MOST_LINES: usize = 64;

/// Whether facts of a fixture may be handed in. `locked` says whether it stands in a locked gameweek.
pub fn judge_lock(fixture: FixtureId, locked: bool) -> Result<(), Rule>
    ensures { IsJudged (not_locked fixture locked) result }
{
    if locked {
        Ok(())
    } else {
        Err(Rule::NotLocked { fixture })
    }
}

/// Whether a sheet may be handed in. `locked` says whether its fixture stands in a locked gameweek.
pub fn judge_sheet(fixture: FixtureId, locked: bool, lines: &[(PlayerId, Line)]) -> Result<(), Rule>
    ensures judged { IsJudged (sheet_refusal fixture locked lines.now) result }
    ensures few { OnOk result (length lines.now ≤ 64) }
{
    judge_lock(fixture, locked)?;
    if lines.len() > MOST_LINES {
        return Err(Rule::LinesFull);
    }
    if let Some(player) = first_twice(lines) {
        return Err(Rule::LineTwice { player });
    }
    judge_lines(lines)
}

// The first player who has an earlier line too.
fn first_twice(lines: &[(PlayerId, Line)]) -> Option<PlayerId>
    ensures { result ≡ first_repeat (players_in lines.now) }
{
    let mut greatest = 0;
    for (place, line) in lines.iter().enumerate() {
        if is_among(&lines[..place], greatest, line.0) {
            return Some(line.0);
        }
        greatest = greatest.max(line.0.get());
    }
    None
}

// Whether a player is among them, none of whom has a greater id than this one: mostly they ascend.
fn is_among(lines: &[(PlayerId, Line)], greatest: u32, player: PlayerId) -> bool
    requires { All (λ row. row.0 ≤ greatest) lines.now }
    ensures { result ≡ list_any (λ row. row.0 == player) lines.now }
{
    if player.get() > greatest {
        return false;
    }
    has_line(lines, player)
}

// Whether a player is among them.
fn has_line(lines: &[(PlayerId, Line)], player: PlayerId) -> bool
    ensures { result ≡ list_any (λ row. row.0 == player) lines.now }
{
    lines.iter().any(|line| line.0 == player)
}

// Whether each line is in its ranges.
fn judge_lines(lines: &[(PlayerId, Line)]) -> Result<(), Rule>
    ensures { IsJudged (lines_range lines.now) result }
{
    for line in lines {
        line_ok(&line.1)?;
    }
    Ok(())
}
