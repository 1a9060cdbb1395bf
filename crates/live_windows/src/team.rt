// The team of the week of those who played, and who of them had the most points.
ghost use Rattle.std.specs.Prelude.{◌≡◌, ◌≤◌, ◌<◌, ◌==◌, All, IfOk, Some, find, if◌then◌else◌, length, map, pos, slice_index_or};
ghost use Rattle.std.specs.Option.{option_map_or};
ghost use Rattle.json_members.specs.Tokens.{Appends, tokens_of};
ghost use Rattle.fpl_base.specs.declared.kinds.Position.{Position};
ghost use Rattle.rule_book.specs.FigureRange.{IsWithin};
ghost use Rattle.rule_book.specs.Ranks.{AllDiffer};
ghost use Rattle.squad_rules.specs.Elevens.{Row, is_better};
ghost use Rattle.season_book.specs.Windows.{listed, numbered};
ghost use Rattle.season_book.specs.DreamTeamWindow.{dream_row, dream_team_data, top_data};
ghost use Rattle.season_book.specs.TeamOfTheWeek.{team_of_the_week, top_of};

use fpl_base::{Memory, PlayerId, Position};
use json::Writer;
use json_members::{write_count, write_integer};
use squad_rules::dream_team;
use std::alloc::{AllocError, Global};

/// The players of the team of the week of rows, in their order; nobody where there is none.
pub fn team_of(alloc: Global, rows: &[(PlayerId, Position, i32)]) -> Result<Vec<PlayerId>, Memory>
    requires few { length rows.now ≤ 1200 }
    requires differ { AllDiffer (map (λ row. row.0) rows.now) }
    requires near { All (λ row. IsWithin 1000000 row.2) rows.now }
    ensures { IfOk result
        (λ players. players.items ≡ map (λ row. row.0) (team_of_the_week rows.now)) }
{
    match dream_team(alloc, rows)? {
        Some(dream) => copied(alloc, &dream.players),
        None => Ok(Vec::new(alloc)),
    }
}

fn copied(alloc: Global, players: &[PlayerId]) -> Result<Vec<PlayerId>, Memory>
    ensures { IfOk result (λ copy. copy.items ≡ players.now) }
{
    let mut copy = Vec::with_capacity(alloc, players.len())?;
    for player in players {
        copy.push(*player)?;
    }
    Ok(copy)
}

// Writes the team of the week of rows, whose players these are, and who had the most points.
pub(crate) fn write_dream(
    out: &mut Writer,
    team: &[PlayerId],
    rows: &[(PlayerId, Position, i32)],
) -> Result<(), AllocError>
    requires team { team.now ≡ map (λ row. row.0) (team_of_the_week rows.now) }
    requires differ { AllDiffer (map (λ row. row.0) rows.now) }
    ensures { Appends result out.old out.new (tokens_of (dream_team_data rows.now)) }
{
    out.begin_object()?;
    out.key("team")?;
    write_team(out, team, rows)?;
    out.key("top_player")?;
    write_top(out, rows)?;
    out.end_object()
}

fn write_team(
    out: &mut Writer,
    team: &[PlayerId],
    rows: &[(PlayerId, Position, i32)],
) -> Result<(), AllocError>
    requires team { team.now ≡ map (λ row. row.0) (team_of_the_week rows.now) }
    requires differ { AllDiffer (map (λ row. row.0) rows.now) }
    ensures { Appends result out.old out.new
        (tokens_of (listed dream_row (numbered (team_of_the_week rows.now)))) }
{
    out.begin_array()?;
    for (place, player) in team.iter().enumerate() {
        write_dream_row(out, place as u64 + 1, *player, points_among(rows, *player))?;
    }
    out.end_array()
}

// Writes a player at his place of the team.
fn write_dream_row(
    out: &mut Writer,
    place: u64,
    player: PlayerId,
    points: i32,
) -> Result<(), AllocError>
    ensures { (position : Position) → Appends result out.old out.new
        (tokens_of (dream_row (place, (player, position, points)))) }
{
    out.begin_object()?;
    write_count(out, "element", u64::from(player.get()))?;
    write_integer(out, "points", points)?;
    write_count(out, "position", place)?;
    out.end_object()
}

// The points of a player's row; 0 where he has none.
fn points_among(rows: &[(PlayerId, Position, i32)], player: PlayerId) -> i32
    ensures { result
        ≡ option_map_or (λ row. row.2) (find (λ row. row.0 == player) rows.now) (pos 0) }
{
    for row in rows {
        if row.0 == player {
            return row.2;
        }
    }
    0
}

// Writes who had the most points, if anybody played.
fn write_top(out: &mut Writer, rows: &[(PlayerId, Position, i32)]) -> Result<(), AllocError>
    requires { AllDiffer (map (λ row. row.0) rows.now) }
    ensures { Appends result out.old out.new (tokens_of (top_data (top_of rows.now))) }
{
    if rows.is_empty() {
        return out.null();
    }
    let best = best_place(rows);
    write_top_row(out, &rows[best])
}

fn write_top_row(out: &mut Writer, row: &(PlayerId, Position, i32)) -> Result<(), AllocError>
    ensures { Appends result out.old out.new (tokens_of (top_data (Some row.now))) }
{
    out.begin_object()?;
    write_count(out, "id", u64::from(row.0.get()))?;
    write_integer(out, "points", row.2)?;
    out.end_object()
}

// The place of the row that is better than all others.
fn best_place(rows: &[(PlayerId, Position, i32)]) -> usize
    requires some { 0 < length rows.now }
    requires differ { AllDiffer (map (λ row. row.0) rows.now) }
    ensures within { result < length rows.now }
    ensures best { (d : Row) → top_of rows.now ≡ Some (slice_index_or rows.now result d) }
{
    let mut best = 0;
    for place in 0..rows.len() {
        best = better_place(rows, place, best);
    }
    best
}

// The first of two places, if its row is better, else the other.
fn better_place(rows: &[(PlayerId, Position, i32)], place: usize, best: usize) -> usize
    requires place { place < length rows.now }
    requires best { best < length rows.now }
    ensures { (d : Row) → result
        ≡ (if is_better (slice_index_or rows.now place d) (slice_index_or rows.now best d) then place
        else best) }
{
    if is_better(&rows[place], &rows[best]) {
        place
    } else {
        best
    }
}

fn is_better(one: &(PlayerId, Position, i32), other: &(PlayerId, Position, i32)) -> bool
    ensures { result ≡ is_better one.now other.now }
{
    one.2 > other.2 || (one.2 == other.2 && one.0 < other.0)
}
