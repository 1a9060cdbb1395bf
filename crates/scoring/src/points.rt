ghost use Rattle.std.specs.Prelude.{◌≡◌, ◌≤◌, ◌*◌, pos, negsuc, ◌≤ℤ◌};
ghost use Rattle.rule_book.specs.Figures.{IsLine};
ghost use Rattle.rule_book.specs.Points.{minutes_points, clean_sheet_points, goal_points, points_of};
ghost use Rattle.rule_book.specs.Scoring.{by_position, gives_one_per, takes_one_per, nothing, gain, loss};

use crate::figures::{balance, counted_yellow_of, figure_of, has_clean_sheet};
use fpl_base::{Position, Profile};
use rule_book::Line;

/// The points of a line whose figures are in range, without bonus; from -10,000 to 10,000.
#[tactic(auto, unfolding(rule_book::specs::Points::points_of))]
pub fn line_points(profile: Profile, position: Position, line: &Line) -> i32
    requires { IsLine line.now }
    ensures value { result ≡ points_of profile position line.now }
    ensures low { negsuc 9999 ≤ℤ result }
    ensures high { result ≤ℤ pos 10000 }
{
    let gains = points_of_minutes(line)
        + points_of_clean_sheet(position, line)
        + points_of_goals(profile, position, figure_of(line, 2))
        + 3 * figure_of(line, 3)
        + points_of_saves(position, figure_of(line, 5))
        + 5 * figure_of(line, 6);
    let losses = counted_yellow_of(line)
        + cost_of_conceded(position, figure_of(line, 4))
        + 2 * figure_of(line, 7)
        + 3 * figure_of(line, 9)
        + 2 * figure_of(line, 10);
    balance(gains, losses)
}

fn points_of_minutes(line: &Line) -> u32
    requires { IsLine line.now }
    ensures value { result ≡ minutes_points line.now }
    ensures bound { result ≤ 2 }
{
    match figure_of(line, 1) {
        0 => 0,
        1..60 => 1,
        _ => 2,
    }
}

fn points_of_clean_sheet(position: Position, line: &Line) -> u32
    requires { IsLine line.now }
    ensures value { result ≡ clean_sheet_points position line.now }
    ensures bound { result ≤ 4 }
{
    if !has_clean_sheet(line) {
        return 0;
    }
    match position {
        Position::Keeper | Position::Defender => 4,
        Position::Midfielder => 1,
        Position::Forward => 0,
    }
}

fn points_of_goals(profile: Profile, position: Position, goals: u32) -> u32
    requires { goals ≤ 99 }
    ensures value { result ≡ goal_points profile position * goals }
    ensures bound { result ≤ 990 }
{
    points_of_a_goal(profile, position) * goals
}

fn points_of_a_goal(profile: Profile, position: Position) -> u32
    ensures value { result ≡ goal_points profile position }
    ensures bound { result ≤ 10 }
{
    match position {
        Position::Keeper => match profile {
            Profile::A => 6,
            Profile::B => 10,
        },
        Position::Defender => 6,
        Position::Midfielder => 5,
        Position::Forward => 4,
    }
}

fn points_of_saves(position: Position, saves: u32) -> u32
    ensures value { result
        ≡ gain (by_position (gives_one_per 3) nothing nothing nothing position) saves }
    ensures bound { result ≤ saves }
{
    match position {
        Position::Keeper => saves / 3,
        Position::Defender | Position::Midfielder | Position::Forward => 0,
    }
}

fn cost_of_conceded(position: Position, goals: u32) -> u32
    ensures value { result
        ≡ loss (by_position (takes_one_per 2) (takes_one_per 2) nothing nothing position) goals }
    ensures bound { result ≤ goals }
{
    match position {
        Position::Keeper | Position::Defender => goals / 2,
        Position::Midfielder | Position::Forward => 0,
    }
}
