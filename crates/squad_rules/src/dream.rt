// The best legal eleven of players with points.
ghost use Rattle.std.specs.Prelude.{◌≡◌, ◌≤◌, ◌+◌, true, length, map, All, IfNone, IfOk, IfSome};
ghost use Rattle.rule_book.specs.FigureRange.{IsWithin};
ghost use Rattle.rule_book.specs.Lineups.{is_formation};
ghost use Rattle.rule_book.specs.Ranks.{AllDiffer};
ghost use Rattle.squad_rules.specs.Dreams.{HasNoEleven, IsDream};
ghost use Rattle.squad_rules.specs.Pools.{first_of, has_enough, placed_at, pool_of};

use crate::formations::{Best, best_of};
use crate::pools::{Candidate, Pools, make_pools};
use fpl_base::{Memory, PlayerId, Position};
use std::alloc::Global;

/// A team of the week: its players by position, goalkeeper first, within a position by points downwards, then id; how
/// many of them are defenders, midfielders and forwards; and the sum of their points.
#[derive(Clone, Copy, Debug, PartialEq, Eq)]
pub struct Dream {
    pub players: [PlayerId; 11],
    pub defenders: u8,
    pub midfielders: u8,
    pub forwards: u8,
    pub total: i32,
}

/// The team of the week of players with their positions and points. `None` says that no legal eleven can be formed
/// of them. It takes memory, and time for a sort.
pub fn dream_team(
    alloc: Global,
    rows: &[(PlayerId, Position, i32)],
) -> Result<Option<Dream>, Memory>
    requires few { length rows.now ≤ 1200 }
    requires differ { AllDiffer (map (λ row. row.0) rows.now) }
    requires near { All (λ row. IsWithin 1000000 row.2) rows.now }
    ensures some { IfOk result (λ team. IfSome team (IsDream rows.now)) }
    ensures none { IfOk result (λ team. IfNone team (HasNoEleven rows.now)) }
{
    let pools = make_pools(alloc, rows)?;
    match best_of(&pools) {
        Some(best) => Ok(Some(dream_of(&pools, &best))),
        None => Ok(None),
    }
}

// The team of the best of each position in a formation.
fn dream_of(pools: &Pools, best: &Best) -> Dream
    requires formation { is_formation best.now.defenders best.now.midfielders best.now.forwards ≡ true }
    requires enough { has_enough (pool_of pools.now) best.now.defenders best.now.midfielders best.now.forwards
        ≡ true }
    ensures players { result.players ≡ map (λ row. row.0) (first_of
        (pool_of pools.now) best.now.defenders best.now.midfielders best.now.forwards) }
    ensures defenders { result.defenders ≡ best.now.defenders }
    ensures midfielders { result.midfielders ≡ best.now.midfielders }
    ensures forwards { result.forwards ≡ best.now.forwards }
    ensures total { result.total ≡ best.now.total }
{
    Dream {
        players: players_of(pools, best),
        defenders: best.defenders,
        midfielders: best.midfielders,
        forwards: best.forwards,
        total: best.total,
    }
}

// The best of each position in a formation, in their order.
fn players_of(pools: &Pools, best: &Best) -> [PlayerId; 11]
    requires formation { is_formation best.now.defenders best.now.midfielders best.now.forwards ≡ true }
    requires enough { has_enough (pool_of pools.now) best.now.defenders best.now.midfielders best.now.forwards
        ≡ true }
    ensures { result ≡ map (λ row. row.0) (first_of
        (pool_of pools.now) best.now.defenders best.now.midfielders best.now.forwards) }
{
    let d = best.defenders as usize;
    let m = best.midfielders as usize;
    let f = best.forwards as usize;
    let blank = eleven_times(pools.keepers[0].player);
    let in_goal = placed(blank, 0, &pools.keepers[..1]);
    let behind = placed(in_goal, 1, &pools.defenders[..d]);
    let middle = placed(behind, 1 + d, &pools.midfielders[..m]);
    placed(middle, 1 + d + m, &pools.forwards[..f])
}

fn eleven_times(player: PlayerId) -> [PlayerId; 11]
    ensures { length result ≡ 11 }
{
    [player; 11]
}

// The players, with candidates in the places from this one on.
fn placed(players: [PlayerId; 11], from: usize, candidates: &[Candidate]) -> [PlayerId; 11]
    requires { from + length candidates.now ≤ 11 }
    ensures { result
        ≡ placed_at players from (map (λ candidate. candidate.player) candidates.now) }
{
    let mut players = players;
    for (place, candidate) in candidates.iter().enumerate() {
        players[from + place] = candidate.player;
    }
    players
}
