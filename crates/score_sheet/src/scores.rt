// What the rows of a match score.
ghost use Rattle.std.specs.Prelude.{◌≡◌, ◌≤◌, ℤ, List, All, IfOk, string_bytes};
ghost use Rattle.scoring.specs.Levels.{bonus_by};
ghost use Rattle.rule_book.specs.Bonus.{takes_part, standing, bonus_of, bonus_in};
ghost use Rattle.rule_book.specs.Figures.{IsLine};
ghost use Rattle.rule_book.specs.declared.line.Appearance.{Appearance};
ghost use Rattle.score_sheet.specs.Scores.{line_text, numbers_text, score_text};

use fpl_base::{Memory, PlayerId, Profile};
use rule_book::Appearance;
use scoring::{BonusLevels, bps, line_points};
use std::alloc::{AllocError, Global};

// The lines of text for the rows.
pub(crate) fn text_of(
    alloc: Global,
    profile: Profile,
    rows: &[Appearance],
) -> Result<String, Memory>
    requires { All (λ (row : Appearance). IsLine row.line) rows.now }
    ensures { IfOk result (λ text. string_bytes text ≡ score_text profile rows.now) }
{
    let table = standing_of(alloc, rows)?;
    let levels = BonusLevels::of(table.as_slice());
    let mut text = String::new(alloc);
    for row in rows {
        let won = bonus_at(&levels, row);
        let line = line_of(alloc, profile, row, won)?;
        text.push_str(line.as_str())?;
    }
    Ok(text)
}

// Who took part, with their numbers in the bonus points system.
#[tactic(auto, unfolding(rule_book::specs::Bonus::standing))]
fn standing_of(alloc: Global, rows: &[Appearance]) -> Result<Vec<(PlayerId, i32)>, Memory>
    requires { All (λ (row : Appearance). IsLine row.line) rows.now }
    ensures { IfOk result (λ table. table.items ≡ standing rows.now) }
{
    let mut table = Vec::new(alloc);
    for row in rows {
        if has_minutes(row) {
            table.push((row.player, bps(row.position, &row.line)))?;
        }
    }
    Ok(table)
}

fn has_minutes(row: &Appearance) -> bool
    ensures { result ≡ takes_part row.now.line }
{
    row.line.figures[0] >= 1
}

// The bonus of a row, by the levels of the match that it is a row of.
fn bonus_at(levels: &BonusLevels, row: &Appearance) -> u8
    requires { IsLine row.now.line }
    ensures value { (rows : List Appearance)
        → ((own : ℤ) → bonus_by levels.now own ≡ bonus_of (standing rows) own)
        → result ≡ bonus_in rows row.now }
    ensures bound { result ≤ 3 }
{
    if has_minutes(row) {
        levels.bonus(bps(row.position, &row.line))
    } else {
        0
    }
}

fn line_of(alloc: Global, profile: Profile, row: &Appearance, won: u8) -> Result<String, Memory>
    requires line { IsLine row.now.line }
    requires bonus { won ≤ 3 }
    ensures { IfOk result (λ text. string_bytes text ≡ line_text profile row.now won) }
{
    let points = line_points(profile, row.position, &row.line);
    let number = bps(row.position, &row.line);
    let total = points + i32::from(won);
    Ok(numbers(alloc, row.player.get(), points, number, won, total)?)
}

fn numbers(
    alloc: Global,
    player: u32,
    points: i32,
    number: i32,
    won: u8,
    total: i32,
) -> Result<String, AllocError>
    ensures { IfOk result
        (λ text. string_bytes text ≡ numbers_text player points number won total) }
{
    format!(in alloc; "{player},{points},{number},{won},{total}\n")
}
