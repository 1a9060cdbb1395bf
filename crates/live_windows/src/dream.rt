// The team of the week of a gameweek, and who had the most points in it.
ghost use Rattle.std.specs.Prelude.{◌≡◌, ◌≤◌, ◌+◌, All, IfOk, Some, length, map};
ghost use Rattle.rule_book.specs.FigureRange.{IsWithin};
ghost use Rattle.rule_book.specs.Ranks.{AllDiffer};
ghost use Rattle.season_views.specs.Seen.{IsKept, ShowsEach, WritesShown};
ghost use Rattle.season_book.specs.DreamTeamWindow.{dream_team_data, dream_team_window, who_played};
ghost use Rattle.season_views.specs.DreamTeamWindowReads.{dream_team_reads};

use crate::rows::{has_gameweek, rows_of};
use crate::team::{team_of, write_dream};
use fpl_base::{Memory, PlayerId, Position, ReadCount};
use json::Writer;
use season_views::{Seen, SeenCells, locked_gameweek};
use std::alloc::Global;
use std::sync::ledger::Ledger;

/// Writes the team of the week of a gameweek, if the season has it, and answers whether it has. Each player's gameweek is a
/// counted read.
pub fn write_dream_team<L: Ledger>(
    out: &mut Writer,
    alloc: Global,
    seen: &Seen<L>,
    cells: &SeenCells<L>,
    gameweek: u32,
    steps: &mut ReadCount<L>,
) -> Result<bool, Memory>
    requires kept { IsKept seen.now cells.now }
    ensures value { ShowsEach seen.now (λ entries. dream_team_window seen.now.facts gameweek) result
        out.old out.new }
    ensures cost { steps.new ≤ steps.old + dream_team_reads seen.now.facts }
{
    if !has_gameweek(seen, gameweek) {
        return Ok(false);
    }
    write_there(out, alloc, seen, cells, gameweek, steps)
}

// Writes that of a gameweek that the season has.
fn write_there<L: Ledger>(
    out: &mut Writer,
    alloc: Global,
    seen: &Seen<L>,
    cells: &SeenCells<L>,
    gameweek: u32,
    steps: &mut ReadCount<L>,
) -> Result<bool, Memory>
    requires kept { IsKept seen.now cells.now }
    requires from_1 { 1 ≤ gameweek }
    ensures value { WritesShown (Some (dream_team_data (who_played seen.now.facts gameweek))) result
        out.old out.new }
    ensures cost { steps.new ≤ steps.old + length seen.now.facts.players }
{
    let rows = who_played(alloc, seen, cells, gameweek, steps)?;
    let team = team_of(alloc, &rows)?;
    write_dream(out, &team, &rows)?;
    Ok(true)
}

// Those who played in a gameweek of the season, by id; nobody while it is open.
fn who_played<L: Ledger>(
    alloc: Global,
    seen: &Seen<L>,
    cells: &SeenCells<L>,
    number: u32,
    steps: &mut ReadCount<L>,
) -> Result<Vec<(PlayerId, Position, i32)>, Memory>
    requires kept { IsKept seen.now cells.now }
    requires from_1 { 1 ≤ number }
    ensures value { IfOk result (λ rows. rows.items ≡ who_played seen.now.facts number) }
    ensures few { IfOk result (λ rows. length rows.items ≤ 1200) }
    ensures differ { IfOk result (λ rows. AllDiffer (map (λ row. row.0) rows.items)) }
    ensures near { IfOk result (λ rows. All (λ row. IsWithin 1000000 row.2) rows.items) }
    ensures cost { steps.new ≤ steps.old + length seen.now.facts.players }
{
    match locked_gameweek(seen, number) {
        Some(gameweek) => rows_of(alloc, seen, cells, gameweek, steps),
        None => Ok(Vec::new(alloc)),
    }
}
