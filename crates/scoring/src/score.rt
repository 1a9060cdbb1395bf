// What a team scores in a gameweek.
ghost use Rattle.std.specs.Prelude.{◌≡◌, ◌≤◌, ◌≤ℤ◌, ◌*ℤ◌, pos, negsuc, length, All, IfSome, sum_by};
ghost use Rattle.rule_book.specs.FigureRange.{IsWithin};
ghost use Rattle.rule_book.specs.TeamScores.{IsModest, IsScore, goals_at, conceded_at, points_of_slots, counting, extra_points};

use crate::bands::wearer;
use crate::eleven::final_eleven;
use crate::slots::{conceded, goals, points};
use fpl_base::Chip;
use rule_book::{Armband, Eleven, Figures, Team, TeamScore};

fn sum_of_points(figures: &[Figures; 15], slots: &[u8]) -> i32
    requires few { length slots.now ≤ 15 }
    requires modest { All IsModest figures.now }
    ensures value { result ≡ points_of_slots figures.now slots.now }
    ensures low { negsuc 14999999 ≤ℤ result }
    ensures high { result ≤ℤ pos 15000000 }
{
    let mut total = 0i32;
    for slot in slots {
        total += points(figures, *slot);
    }
    total
}

fn sum_of_goals(figures: &[Figures; 15], slots: &[u8]) -> u32
    requires few { length slots.now ≤ 15 }
    requires modest { All IsModest figures.now }
    ensures { result ≡ sum_by (goals_at figures.now) slots.now }
{
    let mut total = 0u32;
    for slot in slots {
        total += goals(figures, *slot);
    }
    total
}

fn sum_of_conceded(figures: &[Figures; 15], slots: &[u8]) -> u32
    requires few { length slots.now ≤ 15 }
    requires modest { All IsModest figures.now }
    ensures { result ≡ sum_by (conceded_at figures.now) slots.now }
{
    let mut total = 0u32;
    for slot in slots {
        total += conceded(figures, *slot);
    }
    total
}

// The points of the slots that count.
fn counted_points(team: &Team, figures: &[Figures; 15], eleven: &Eleven) -> i32
    requires modest { All IsModest figures.now }
    ensures value { result ≡ points_of_slots figures.now (counting team.now eleven.now.slots) }
    ensures low { negsuc 14999999 ≤ℤ result }
    ensures high { result ≤ℤ pos 15000000 }
{
    match team.chip {
        Chip::BenchBoost => sum_of_points(
            figures,
            &[1, 2, 3, 4, 5, 6, 7, 8, 9, 10, 11, 12, 13, 14, 15],
        ),
        _ => sum_of_points(figures, &eleven.slots),
    }
}

// The points so many times, once or twice.
fn times(count: u8, points: i32) -> i32
    requires few { count ≤ 2 }
    requires some { 1 ≤ count }
    requires above { negsuc 999999 ≤ℤ points }
    requires below { points ≤ℤ pos 1000000 }
    ensures value { result ≡ pos count *ℤ points }
    ensures low { negsuc 1999999 ≤ℤ result }
    ensures high { result ≤ℤ pos 2000000 }
{
    if count == 1 { points } else { points + points }
}

// What the armband adds.
fn extra_points(figures: &[Figures; 15], armband: Option<Armband>) -> i32
    requires factor { IfSome armband (λ a. (2 ≤ a.factor) × (a.factor ≤ 3)) }
    requires modest { All IsModest figures.now }
    ensures value { result ≡ extra_points figures.now armband }
    ensures low { negsuc 1999999 ≤ℤ result }
    ensures high { result ≤ℤ pos 2000000 }
{
    match armband {
        Some(armband) => times(armband.factor - 1, points(figures, armband.slot)),
        None => 0,
    }
}

/// The score of a team in a gameweek in which its transfers cost `cost` points. Goals and conceded goals are those of
/// the final eleven, each counted once. It is asked of any team, whatever its captain and its vice-captain are.
pub fn team_score(team: &Team, figures: &[Figures; 15], ended: bool, cost: u32) -> TeamScore
    requires modest { All IsModest figures.now }
    requires cost { cost ≤ 1000000 }
    ensures score { IsScore team.now figures.now ended cost result }
    ensures near { IsWithin 18000000 result.net }
{
    let eleven = final_eleven(team, figures, ended);
    let armband = wearer(team, figures, ended);
    let gross = counted_points(team, figures, &eleven) + extra_points(figures, armband);
    TeamScore {
        gross,
        cost,
        net: gross - cost as i32,
        goals: sum_of_goals(figures, &eleven.slots),
        conceded: sum_of_conceded(figures, &eleven.slots),
        eleven,
        armband,
    }
}
