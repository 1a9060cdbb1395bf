// The formations, tried one after another.
ghost use Rattle.std.specs.Prelude.{◌≡◌, ◌≤◌, ◌+◌, ◌+ℤ◌, ℕ, true, false, length, map, All, IfNone, IfSome};
ghost use Rattle.fpl_base.specs.declared.kinds.Position.{Position};
ghost use Rattle.rule_book.specs.FigureRange.{IsWithin};
ghost use Rattle.rule_book.specs.HeadToHead.{total_of};
ghost use Rattle.rule_book.specs.Lineups.{is_formation};
ghost use Rattle.squad_rules.specs.Pools.{AreNear, Finds, first_total, pool_of, preferred, row_of, tried};

use crate::lineup::formation_ok;
use crate::pools::{Candidate, Pools};
use fpl_base::Position;

// A formation, and what the best of each position make in it.
#[derive(Clone, Copy, Debug)]
pub(crate) struct Best {
    pub(crate) defenders: u8,
    pub(crate) midfielders: u8,
    pub(crate) forwards: u8,
    pub(crate) total: i32,
}

// The sum of the points of a few candidates.
fn total_of(candidates: &[Candidate]) -> i32
    requires few { length candidates.now ≤ 5 }
    requires near { All (λ candidate. IsWithin 1000000 candidate.points.0) candidates.now }
    ensures value { result ≡ total_of (map (λ candidate. candidate.points.0) candidates.now) }
    ensures near { IsWithin 5000000 result }
{
    let mut total = 0;
    for candidate in candidates {
        total += candidate.points.0;
    }
    total
}

// What the first of the candidates for a position make; `None` where there are too few of them.
fn first_total(candidates: &[Candidate], count: u8) -> Option<i32>
    requires few { count ≤ 5 }
    requires near { All (λ candidate. IsWithin 1000000 candidate.points.0) candidates.now }
    ensures value { (position : Position)
        → result ≡ first_total (map (row_of position) candidates.now) count }
    ensures near { IfSome result (IsWithin 5000000) }
{
    let count = count as usize;
    if candidates.len() < count {
        return None;
    }
    Some(total_of(&candidates[..count]))
}

// The same of the candidates for this position.
fn total_at(pools: &Pools, position: Position, count: u8) -> Option<i32>
    requires few { count ≤ 5 }
    requires near { AreNear (pool_of pools.now) }
    ensures value { result ≡ first_total (pool_of pools.now position) count }
    ensures near { IfSome result (IsWithin 5000000) }
{
    first_total(candidates_at(pools, position), count)
}

fn candidates_at(pools: &Pools, position: Position) -> &[Candidate]
    ensures { map (row_of position) result.now ≡ pool_of pools.now position }
{
    match position {
        Position::Keeper => pools.keepers.as_slice(),
        Position::Defender => pools.defenders.as_slice(),
        Position::Midfielder => pools.midfielders.as_slice(),
        Position::Forward => pools.forwards.as_slice(),
    }
}

// What the first of each position make in a formation; `None` where there are too few players for it.
fn tried(pools: &Pools, defenders: u8, midfielders: u8, forwards: u8) -> Option<Best>
    requires formation { is_formation defenders midfielders forwards ≡ true }
    requires near { AreNear (pool_of pools.now) }
    ensures { result ≡ tried (pool_of pools.now) defenders midfielders forwards }
{
    let in_goal = total_at(pools, Position::Keeper, 1)?;
    let behind = total_at(pools, Position::Defender, defenders)?;
    let middle = total_at(pools, Position::Midfielder, midfielders)?;
    let front = total_at(pools, Position::Forward, forwards)?;
    Some(Best {
        defenders,
        midfielders,
        forwards,
        total: sum_of(in_goal, behind, middle, front),
    })
}

fn sum_of(in_goal: i32, behind: i32, middle: i32, front: i32) -> i32
    requires in_goal { IsWithin 5000000 in_goal }
    requires behind { IsWithin 5000000 behind }
    requires middle { IsWithin 5000000 middle }
    requires front { IsWithin 5000000 front }
    ensures { result ≡ in_goal +ℤ (behind +ℤ (middle +ℤ front)) }
{
    in_goal + (behind + (middle + front))
}

// The one that was found first, unless the other has more.
fn preferred(old: Option<Best>, new: Option<Best>) -> Option<Best>
    ensures { result ≡ preferred old new }
{
    match (old, new) {
        (Some(first), Some(second)) => { if second.total > first.total { new } else { old } }
        (None, _) => new,
        (_, None) => old,
    }
}

// The best formation with fewer defenders or as many, where the best of those with fewer is given.
fn with_defenders(pools: &Pools, defenders: u8, best: Option<Best>) -> Option<Best>
    requires low { 3 ≤ defenders }
    requires high { defenders ≤ 5 }
    requires near { AreNear (pool_of pools.now) }
    requires fewer { Finds (pool_of pools.now) defenders 0 best }
    ensures { Finds (pool_of pools.now) (defenders + 1) 0 result }
{
    let mut best = best;
    for midfielders in 0..6u8 {
        best = with_midfielders(pools, defenders, midfielders, best);
    }
    best
}

// The best of the formations before the one with so many defenders and midfielders, and of that one.
fn with_midfielders(
    pools: &Pools,
    defenders: u8,
    midfielders: u8,
    best: Option<Best>,
) -> Option<Best>
    requires ten { defenders + midfielders ≤ 10 }
    requires near { AreNear (pool_of pools.now) }
    requires before { Finds (pool_of pools.now) defenders midfielders best }
    ensures { Finds (pool_of pools.now) defenders (midfielders + 1) result }
{
    match forwards_of(defenders, midfielders) {
        Some(forwards) => preferred(best, tried(pools, defenders, midfielders, forwards)),
        None => best,
    }
}

// How many forwards make a formation with so many defenders and midfielders.
#[tactic(auto, using(crate::proofs::Trying::no_other))]
fn forwards_of(defenders: u8, midfielders: u8) -> Option<u8>
    requires { defenders + midfielders ≤ 10 }
    ensures formation { IfSome result (λ forwards. is_formation defenders midfielders forwards ≡ true) }
    ensures none { IfNone result
        ((forwards : ℕ) → is_formation defenders midfielders forwards ≡ false) }
{
    let forwards = 10 - defenders - midfielders;
    if formation_ok(defenders, midfielders, forwards) {
        Some(forwards)
    } else {
        None
    }
}

// The best formation, the first of several; `None` where there are too few players for each.
pub(crate) fn best_of(pools: &Pools) -> Option<Best>
    requires near { AreNear (pool_of pools.now) }
    ensures { Finds (pool_of pools.now) 6 0 result }
{
    let mut best = None;
    for defenders in 3..6u8 {
        best = with_defenders(pools, defenders, best);
    }
    best
}
