// The lines of a gameweek, gathered by its fixtures.
ghost use Rattle.std.specs.Prelude.{◌≡◌, ◌≤◌, ◌+◌, ◌++◌, ◌∷◌, [], ℕ, All, IfOk, OnOk, length, map, sum_by};
ghost use Rattle.std.specs.List.{zip};
ghost use Rattle.std.specs.Option.{unwrap_or};
ghost use Rattle.rescore_graph.specs.Graph.{Among};
ghost use Rattle.rule_book.specs.declared.line.Line.{Line};
ghost use Rattle.rule_book.specs.ById.{at_id};
ghost use Rattle.rule_book.specs.Calendar.{standing};
ghost use Rattle.rule_book.specs.Figures.{IsLine};
ghost use Rattle.rule_book.specs.MatchFacts.{lines_of};
ghost use Rattle.rule_book.specs.PlayerFigures.{bonus_at};
ghost use Rattle.season_views.specs.Seen.{IsKept};
ghost use Rattle.live_windows.specs.Gathered.{gathered, line_with, sheet_lines, sheet_reads};

use crate::sums::LiveLine;
use fpl_base::{FixtureId, Gw, PlayerId, ReadCount};
use rule_book::Line;
use season_graph::lines_are_told;
use season_rules::bonus_among;
use season_views::{Seen, SeenCells, bonuses_held};
use std::alloc::{AllocError, Global};
use std::sync::ledger::Ledger;

/// The lines of the fixtures that stand in a gameweek, each with its bonus. Each line and each fixture is read once.
pub(crate) fn gather<L: Ledger>(
    alloc: Global,
    seen: &Seen<L>,
    cells: &SeenCells<L>,
    gameweek: Gw,
    steps: &mut ReadCount<L>,
) -> Result<Vec<LiveLine>, AllocError>
    requires kept { IsKept seen.now cells.now }
    ensures value { IfOk result (λ lines. lines.items ≡ gathered seen.now.facts gameweek) }
    ensures ranges { IfOk result (λ lines. All (λ own. IsLine own.line) lines.items) }
    ensures cost { steps.new
        ≤ steps.old
        + sum_by (sheet_reads seen.now.facts) (standing seen.now.facts.calendar gameweek) }
{
    let mut lines = Vec::new(alloc);
    for fixture in seen.calendar().standing(gameweek) {
        add_fixture(&mut lines, seen, cells, *fixture, steps)?;
    }
    Ok(lines)
}

// Puts the lines of a fixture behind those that there are.
fn add_fixture<L: Ledger>(
    lines: &mut Vec<LiveLine>,
    seen: &Seen<L>,
    cells: &SeenCells<L>,
    fixture: FixtureId,
    steps: &mut ReadCount<L>,
) -> Result<(), AllocError>
    requires kept { IsKept seen.now cells.now }
    requires ranges { All (λ own. IsLine own.line) lines.old.items }
    ensures value { OnOk result
        (lines.new.items ≡ lines.old.items ++ sheet_lines seen.now.facts fixture) }
    ensures ranges { OnOk result (All (λ own. IsLine own.line) lines.new.items) }
    ensures cost { steps.new ≤ steps.old + sheet_reads seen.now.facts fixture }
{
    // The law on what is told of lines, for the prover.
    lines_are_told();
    let bonuses = bonuses_held(cells, fixture, steps);
    let (players, figures) = seen.rows(fixture, steps);
    add_rows(lines, seen, fixture, bonuses, players, figures)
}

// Puts the lines of these players in a fixture behind those that there are, of which these have a bonus.
fn add_rows<L: Ledger>(
    lines: &mut Vec<LiveLine>,
    seen: &Seen<L>,
    fixture: FixtureId,
    bonuses: &[(PlayerId, u8)],
    players: &[PlayerId],
    figures: &[Line],
) -> Result<(), AllocError>
    requires paired { length figures.now ≡ length players.now }
    requires rows { zip players.now figures.now ≡ lines_of seen.now.facts.matches fixture }
    requires told { (row : ℕ × Line) → Among (lines_of seen.now.facts.matches fixture) row
        → IsLine row.1 × (unwrap_or (at_id bonuses.now row.0) 0
        ≡ bonus_at seen.now.facts.players seen.now.facts.matches fixture row) }
    requires ranges { All (λ own. IsLine own.line) lines.old.items }
    ensures value { OnOk result
        (lines.new.items ≡ lines.old.items ++ sheet_lines seen.now.facts fixture) }
    ensures ranges { OnOk result (All (λ own. IsLine own.line) lines.new.items) }
{
    for (place, player) in players.iter().enumerate() {
        let bonus = bonus_among(bonuses, *player);
        add_line(lines, fixture, *player, &figures[place], bonus)?;
    }
    Ok(())
}

fn add_line(
    lines: &mut Vec<LiveLine>,
    fixture: FixtureId,
    player: PlayerId,
    line: &Line,
    bonus: u8,
) -> Result<(), AllocError>
    ensures { OnOk result
        (lines.new.items ≡ lines.old.items ++ line_with fixture player line.now bonus ∷ []) }
{
    lines.push(LiveLine {
        fixture,
        player,
        line: *line,
        bonus,
    })?;
    Ok(())
}
