// A player's lines in a gameweek, summed.
ghost use Rattle.std.specs.Prelude.{◌≡◌, ◌≤◌, ◌+ℤ◌, ◌≤ℤ◌, negsuc, All, fold, length, pos, sum_by};
ghost use Rattle.rule_book.specs.BonusPoints.{bps_of};
ghost use Rattle.rule_book.specs.Figures.{IsLine, figure};
ghost use Rattle.rule_book.specs.Points.{counted_yellow, points_of};
ghost use Rattle.season_book.specs.LineSums.{clean_sheets_of};

use crate::items::{counted_yellow, figure, is_clean_sheet};
use fpl_base::{FixtureId, PlayerId, Position, Profile};
use rule_book::Line;
use scoring::{bps, line_points};

/// A player's line in a fixture, with his bonus there.
#[derive(Clone, Copy)]
pub struct LiveLine {
    pub fixture: FixtureId,
    pub player: PlayerId,
    pub line: Line,
    pub bonus: u8,
}

// A figure of lines, of which a gameweek has at most twenty.
pub fn sum_of(lines: &[LiveLine], field: usize) -> u64
    requires few { length lines.now ≤ 20 }
    requires first { 1 ≤ field }
    requires last { field ≤ 28 }
    ensures { result ≡ sum_by (λ own. figure own.line field) lines.now }
{
    let mut sum = 0;
    for own in lines {
        sum += u64::from(figure(&own.line, field));
    }
    sum
}

pub fn yellow_cards(lines: &[LiveLine]) -> u64
    requires { length lines.now ≤ 20 }
    ensures { result ≡ sum_by (λ own. counted_yellow own.line) lines.now }
{
    let mut sum = 0;
    for own in lines {
        sum += u64::from(counted_yellow(&own.line));
    }
    sum
}

pub fn clean_sheets(lines: &[LiveLine]) -> u64
    requires { length lines.now ≤ 20 }
    ensures { result ≡ sum_by (λ own. clean_sheets_of own.line) lines.now }
{
    let mut sum = 0;
    for own in lines {
        sum += u64::from(is_clean_sheet(&own.line));
    }
    sum
}

pub fn bonus_of(lines: &[LiveLine]) -> u64
    requires { length lines.now ≤ 20 }
    ensures { result ≡ sum_by (λ own. own.bonus) lines.now }
{
    let mut sum = 0;
    for own in lines {
        sum += u64::from(own.bonus);
    }
    sum
}

pub fn bps_sum(position: Position, lines: &[LiveLine]) -> i32
    requires few { length lines.now ≤ 20 }
    requires lines { All (λ own. IsLine own.line) lines.now }
    ensures { result
        ≡ fold (λ total own. total +ℤ bps_of position own.line) (pos 0) lines.now }
{
    let mut sum = 0;
    for own in lines {
        sum += bps(position, &own.line);
    }
    sum
}

pub fn points_sum(profile: Profile, position: Position, lines: &[LiveLine]) -> i32
    requires few { length lines.now ≤ 20 }
    requires lines { All (λ own. IsLine own.line) lines.now }
    ensures { result
        ≡ fold (λ total own. total +ℤ (points_of profile position own.line +ℤ pos own.bonus)) (pos 0)
        lines.now }
{
    let mut sum = 0;
    for own in lines {
        sum += points_with_bonus(profile, position, own);
    }
    sum
}

fn points_with_bonus(profile: Profile, position: Position, own: &LiveLine) -> i32
    requires { IsLine own.now.line }
    ensures value { result ≡ points_of profile position own.now.line +ℤ pos own.now.bonus }
    ensures low { negsuc 99999 ≤ℤ result }
    ensures high { result ≤ℤ pos 100000 }
{
    line_points(profile, position, &own.line) + i32::from(own.bonus)
}
