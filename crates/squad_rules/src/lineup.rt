// Lineups.
ghost use Rattle.std.specs.Prelude.{◌≡◌, ◌↔◌, ◌≤◌, ◌+◌, IsTrue, IsOk};
ghost use Rattle.rule_book.specs.Lineups.{IsLineup, lineup_refusal, is_formation, is_starter, has_keepers_in_place, has_enough, has_leaders, EnoughIsAlwaysFormation};
ghost use Rattle.rule_book.specs.Refusals.{IsJudged};

use crate::counts::{defenders, forwards};
use fpl_base::{Position, Rule};

/// Whether ten outfield players may stand so: `d` defenders, `m` midfielders and `f` forwards.
pub fn formation_ok(d: u8, m: u8, f: u8) -> bool
    ensures value { result ≡ is_formation d m f }
    ensures ranges { IsTrue result
        ↔ ((3 ≤ d) × (d ≤ 5) × (2 ≤ m) × (m ≤ 5) × (1 ≤ f) × (f ≤ 3) × (d + m + f ≡ 10)) }
{
    if d < 3 || d > 5 || m < 2 || m > 5 || f < 1 || f > 3 {
        return false;
    }
    d + m + f == 10
}

// Whether goalkeepers stand in slots 1 and 12.
fn has_keepers_in_place(positions: &[Position; 15]) -> bool
    ensures { result ≡ has_keepers_in_place positions.now }
{
    positions[0] == Position::Keeper && positions[11] == Position::Keeper
}

// Whether at least three defenders and a forward stand in slots 2 to 11.
fn has_enough(positions: &[Position; 15]) -> bool
    ensures { result ≡ has_enough positions.now }
{
    let outfield = &positions[1..11];
    defenders(outfield) >= 3 && forwards(outfield) >= 1
}

// Whether a slot is one of the eleven that start.
fn is_starter(slot: u8) -> bool
    ensures { result ≡ is_starter slot }
{
    (1..=11).contains(&slot)
}

// Whether captain and vice-captain are two of the eleven that start.
fn has_leaders(captain: u8, vice: u8) -> bool
    ensures { result ≡ has_leaders captain vice }
{
    captain != vice && is_starter(captain) && is_starter(vice)
}

/// Whether a lineup is legal, `positions[n - 1]` being that of slot n; `captain` and `vice` are slots.
///
/// `LineupOrder` says that slot 1 or 12 is no goalkeeper, `Formation` that fewer than three defenders or no forward
/// stand in slots 2 to 11, and `Captain` that captain and vice-captain are not two of the slots 1 to 11. The first of
/// them in this order is answered.
pub fn check_lineup(positions: &[Position; 15], captain: u8, vice: u8) -> Result<(), Rule>
    ensures refusal { IsJudged (lineup_refusal positions.now captain vice) result }
    ensures legal { IsOk result ↔ IsLineup positions.now captain vice }
{
    if !has_keepers_in_place(positions) {
        return Err(Rule::LineupOrder);
    }
    if !has_enough(positions) {
        return Err(Rule::Formation);
    }
    if !has_leaders(captain, vice) {
        return Err(Rule::Captain);
    }
    Ok(())
}

/// In a squad of the right shape with goalkeepers in slots 1 and 12, the slots 2 to 11 make a formation exactly where
/// three defenders and a forward are among them, and then they have two midfielders.
pub fn enough_is_formation()
    ensures { EnoughIsAlwaysFormation }
{}
