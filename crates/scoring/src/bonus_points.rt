ghost use Rattle.std.specs.Prelude.{◌≡◌, ◌≤◌, ◌*◌, pos, negsuc, ◌≤ℤ◌};
ghost use Rattle.rule_book.specs.Figures.{IsLine};
ghost use Rattle.rule_book.specs.BonusPoints.{minutes_bps, clean_sheet_bps, passes_bps, bps_of};
ghost use Rattle.rule_book.specs.Scoring.{by_position};

use crate::figures::{balance, counted_yellow_of, figure_of, has_clean_sheet};
use fpl_base::Position;
use rule_book::Line;

/// The bonus points system's number for a line whose figures are in range; from -10,000 to 10,000.
#[tactic(auto, unfolding(rule_book::specs::BonusPoints::bps_of))]
pub fn bps(position: Position, line: &Line) -> i32
    requires { IsLine line.now }
    ensures value { result ≡ bps_of position line.now }
    ensures low { negsuc 9999 ≤ℤ result }
    ensures high { result ≤ℤ pos 10000 }
{
    let gains = bps_of_minutes(line)
        + bps_of_clean_sheet(position, line)
        + bps_of_passes(figure_of(line, 19), figure_of(line, 20))
        + bps_of_goals(position, figure_of(line, 2))
        + 9 * figure_of(line, 3)
        + 2 * figure_of(line, 5)
        + 15 * figure_of(line, 6)
        + figure_of(line, 11)
        + 3 * figure_of(line, 12)
        + figure_of(line, 13) / 2
        + figure_of(line, 14) / 3
        + figure_of(line, 15)
        + 2 * figure_of(line, 16)
        + figure_of(line, 17)
        + 3 * figure_of(line, 18);
    let losses = 3 * counted_yellow_of(line)
        + 6 * figure_of(line, 7)
        + 9 * figure_of(line, 9)
        + 6 * figure_of(line, 10)
        + 3 * figure_of(line, 21)
        + 3 * figure_of(line, 22)
        + 3 * figure_of(line, 23)
        + figure_of(line, 24)
        + figure_of(line, 25)
        + figure_of(line, 26)
        + figure_of(line, 27)
        + figure_of(line, 28);
    balance(gains, losses)
}

fn bps_of_minutes(line: &Line) -> u32
    requires { IsLine line.now }
    ensures value { result ≡ minutes_bps line.now }
    ensures bound { result ≤ 6 }
{
    match figure_of(line, 1) {
        0 => 0,
        1..=60 => 3,
        _ => 6,
    }
}

fn bps_of_clean_sheet(position: Position, line: &Line) -> u32
    requires { IsLine line.now }
    ensures value { result ≡ clean_sheet_bps position line.now }
    ensures bound { result ≤ 12 }
{
    if !has_clean_sheet(line) {
        return 0;
    }
    match position {
        Position::Keeper | Position::Defender => 12,
        Position::Midfielder | Position::Forward => 0,
    }
}

fn bps_of_goals(position: Position, goals: u32) -> u32
    requires { goals ≤ 99 }
    ensures value { result ≡ by_position 12 12 18 24 position * goals }
    ensures bound { result ≤ 2376 }
{
    match position {
        Position::Keeper | Position::Defender => 12 * goals,
        Position::Midfielder => 18 * goals,
        Position::Forward => 24 * goals,
    }
}

fn bps_of_passes(attempted: u32, completed: u32) -> u32
    requires attempted { attempted ≤ 400 }
    requires completed { completed ≤ attempted }
    ensures value { result ≡ passes_bps attempted completed }
    ensures bound { result ≤ 6 }
{
    let tenths = 10 * completed;
    if attempted < 30 {
        0
    } else if tenths >= 9 * attempted {
        6
    } else if tenths >= 8 * attempted {
        4
    } else if tenths >= 7 * attempted {
        2
    } else {
        0
    }
}
