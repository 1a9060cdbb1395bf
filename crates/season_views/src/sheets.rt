// The lines of a fixture, and what they are worth.
ghost use Rattle.std.specs.Prelude.{◌≡◌, ◌≤◌, ◌+◌, IfOk, length, map, true};
ghost use Rattle.std.specs.Option.{unwrap_or};
ghost use Rattle.rule_book.specs.ById.{at_id};
ghost use Rattle.rule_book.specs.MatchFacts.{lines_of};
ghost use Rattle.season_graph.specs.Followed.{AreEvaluated};
ghost use Rattle.season_nodes.specs.Season.{SeasonFacts, is_live, line_worth};
ghost use Rattle.season_nodes.specs.declared.nodes.Node.{Node};
ghost use Rattle.season_book.specs.Views.{line_shown};
ghost use Rattle.season_views.specs.Cells.{AreKeptOf, line_with};

use crate::reading::{bonuses_held, line_held};
use crate::seen::{Seen, SeenCells};
use fpl_base::{FixtureId, Memory, PlayerId, ReadCount};
use season_book::{ShownLine, ShownLines};
use season_graph::lines_are_told;
use season_rules::bonus_among;
use std::alloc::Global;
use std::sync::ledger::Ledger;

/// The lines of a fixture by player, and what they are worth as their cells hold it.
pub fn lines_shown<L: Ledger>(
    alloc: Global,
    seen: &Seen<L>,
    cells: &SeenCells<L>,
    fixture: FixtureId,
    steps: &mut ReadCount<L>,
) -> Result<ShownLines, Memory>
    requires { AreKeptOf seen.now.facts cells.now }
    ensures value { IfOk result
        (λ lines. lines
        ≡ map (line_shown seen.now.facts fixture) (lines_of seen.now.facts.matches fixture)) }
    ensures cost { steps.new ≤ steps.old + (1 + length (lines_of seen.now.facts.matches fixture)) }
{
    // The law by which the lines of a fixture have what is told of their nodes, for the prover.
    lines_are_told();
    let bonuses = bonuses_held(cells, fixture, steps);
    let players = seen.players_of(fixture);
    let mut shown = ShownLines::with_room(alloc, players.len())?;
    for player in players {
        shown.push(line_shown(cells, fixture, bonuses, *player, steps))?;
    }
    Ok(shown)
}

/// What a player's line in a fixture is worth as its cell holds it, with his bonus among those of the fixture.
pub fn line_shown<L: Ledger>(
    cells: &SeenCells<L>,
    fixture: FixtureId,
    bonuses: &[(PlayerId, u8)],
    player: PlayerId,
    steps: &mut ReadCount<L>,
) -> ShownLine
    ensures value { (b : SeasonFacts) → AreEvaluated b cells.now
        → is_live b (Node.Line fixture player) ≡ true
        → result ≡ line_with player (line_worth b fixture player)
        (unwrap_or (at_id bonuses.now player) 0) }
    ensures cost { steps.new ≡ steps.old + 1 }
{
    let worth = line_held(cells, fixture, player, steps);
    ShownLine {
        player,
        points: i32::from(worth.points),
        bps: i32::from(worth.bps),
        bonus: bonus_among(bonuses, player),
    }
}
