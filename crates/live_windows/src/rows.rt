// Who played in a gameweek.
ghost use Rattle.std.specs.Prelude.{◌≡◌, ◌≤◌, ◌+◌, All, IfOk, IfSome, None, OnOk, Some, if◌then◌else◌, length, map, true};
ghost use Rattle.rule_book.specs.FigureRange.{IsWithin};
ghost use Rattle.rule_book.specs.Ranks.{AllDiffer};
ghost use Rattle.season_graph.specs.Followed.{AreEvaluated};
ghost use Rattle.season_graph.specs.Told.{gameweek_figures};
ghost use Rattle.season_nodes.specs.Season.{SeasonFacts, is_live};
ghost use Rattle.season_nodes.specs.declared.nodes.Node.{Node};
ghost use Rattle.season_views.specs.Seen.{IsKept};
ghost use Rattle.season_book.specs.DreamTeamWindow.{has_gameweek, rows_of_gameweek};
ghost use Rattle.live_windows.specs.Kept.{with_row};

use fpl_base::{Gw, Memory, PlayerId, Position, ReadCount};
use rule_book::Player;
use season_views::{Seen, SeenCells, gameweek_held};
use std::alloc::Global;
use std::sync::ledger::Ledger;

/// Whether the season has a gameweek of this number.
pub fn has_gameweek<L: Ledger>(seen: &Seen<L>, number: u32) -> bool
    ensures { result ≡ has_gameweek seen.now.facts.calendar number }
{
    number >= 1 && number <= u32::from(seen.calendar().gameweeks())
}

/// Those who played in a locked gameweek, by id. Each player's gameweek is a counted read.
pub fn rows_of<L: Ledger>(
    alloc: Global,
    seen: &Seen<L>,
    cells: &SeenCells<L>,
    gameweek: Gw,
    steps: &mut ReadCount<L>,
) -> Result<Vec<(PlayerId, Position, i32)>, Memory>
    requires kept { IsKept seen.now cells.now }
    requires from_1 { 1 ≤ gameweek }
    requires locked { gameweek ≤ seen.now.facts.calendar.locked }
    ensures value { IfOk result (λ rows. rows.items ≡ rows_of_gameweek seen.now.facts gameweek) }
    ensures few { IfOk result (λ rows. length rows.items ≤ 1200) }
    ensures differ { IfOk result (λ rows. AllDiffer (map (λ row. row.0) rows.items)) }
    ensures near { IfOk result (λ rows. All (λ row. IsWithin 1000000 row.2) rows.items) }
    ensures cost { steps.new ≤ steps.old + length seen.now.facts.players }
{
    let players = seen.players();
    let mut rows = Vec::new(alloc);
    for place in 0..players.len() {
        let player = players.at(place).unwrap();
        let row = row_of(cells, player, gameweek, steps);
        keep(&mut rows, row)?;
    }
    Ok(rows)
}

// The row of a player, if he played in a gameweek.
fn row_of<L: Ledger>(
    cells: &SeenCells<L>,
    player: &Player,
    gameweek: Gw,
    steps: &mut ReadCount<L>,
) -> Option<(PlayerId, Position, i32)>
    ensures value { (b : SeasonFacts) → AreEvaluated b cells.now
        → is_live b (Node.PlayerGw player.now.id gameweek) ≡ true
        → result
        ≡ (if (gameweek_figures b player.now.id gameweek).played
        then Some (player.now.id, player.now.position, (gameweek_figures b player.now.id gameweek).points)
        else None) }
    ensures near { IfSome result (λ row. IsWithin 1000000 row.2) }
    ensures cost { steps.new ≡ steps.old + 1 }
{
    let figures = gameweek_held(cells, player.id, gameweek, steps);
    if figures.played {
        Some((player.id, player.position, figures.points))
    } else {
        None
    }
}

// Keeps a row, if there is one.
fn keep(
    rows: &mut Vec<(PlayerId, Position, i32)>,
    row: Option<(PlayerId, Position, i32)>,
) -> Result<(), Memory>
    ensures { OnOk result (rows.new.items ≡ with_row rows.old.items row) }
{
    if let Some(row) = row {
        rows.push(row)?;
    }
    Ok(())
}
