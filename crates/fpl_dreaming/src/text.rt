// The text of a team of the week.
ghost use Rattle.std.specs.Prelude.{◌≡◌, ◌==◌, IfOk, find, option_copied, string_bytes};
ghost use Rattle.fpl_dreaming.specs.Texts.{dream_text, line_of, lines_of, row_text};

use fpl_base::{Memory, PlayerId, Position};
use squad_rules::Dream;
use std::alloc::{AllocError, Global};

// A header, the lines of the eleven in their order, and their total.
pub(crate) fn dream_text(
    alloc: Global,
    rows: &[(PlayerId, Position, i32)],
    dream: &Dream,
) -> Result<String, Memory>
    ensures { IfOk result (λ text. string_bytes text ≡ dream_text rows.now dream.now) }
{
    let lines = lines_of(alloc, rows, &dream.players)?;
    let total = dream.total;
    Ok(format!(in alloc;
        "player,position,points\n{}total,{},\n",
        lines.as_str(),
        total
    )?)
}

fn lines_of(
    alloc: Global,
    rows: &[(PlayerId, Position, i32)],
    players: &[PlayerId],
) -> Result<String, Memory>
    ensures { IfOk result (λ text. string_bytes text ≡ lines_of rows.now players.now) }
{
    let mut text = String::new(alloc);
    for player in players {
        let line = line_of(alloc, rows, *player)?;
        text.push_str(line.as_str())?;
    }
    Ok(text)
}

fn line_of(
    alloc: Global,
    rows: &[(PlayerId, Position, i32)],
    player: PlayerId,
) -> Result<String, Memory>
    ensures { IfOk result (λ text. string_bytes text ≡ line_of rows.now player) }
{
    match row_named(rows, player) {
        Some(row) => Ok(row_text(alloc, row)?),
        None => Ok(String::new(alloc)),
    }
}

fn row_named(
    rows: &[(PlayerId, Position, i32)],
    player: PlayerId,
) -> Option<&(PlayerId, Position, i32)>
    ensures { option_copied result ≡ find (λ row. row.0 == player) rows.now }
{
    rows.iter().find(|row| row.0 == player)
}

fn row_text(alloc: Global, row: &(PlayerId, Position, i32)) -> Result<String, AllocError>
    ensures { IfOk result (λ text. string_bytes text ≡ row_text row.now) }
{
    let (player, position, points) = *row;
    format!(in alloc; "{},{},{}\n", player.get(), position.letter(), points)
}
