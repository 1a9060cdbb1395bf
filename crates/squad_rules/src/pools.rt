// The players of each position, the better first.
ghost use Rattle.std.specs.Prelude.{◌≡◌, map, filter, All, IfOk};
ghost use Rattle.rule_book.specs.FigureRange.{IsWithin};
ghost use Rattle.rule_book.specs.Ranks.{AllDiffer};
ghost use Rattle.squad_rules.specs.Pools.{ArePools, IsPool, is_at, pool_of, row_of};

use fpl_base::{Memory, PlayerId, Position};
use std::alloc::Global;
use std::cmp::Reverse;

// A player who may stand in a position. The better is the lesser: more points first, then the smaller id.
#[derive(Clone, Copy, Debug, PartialEq, Eq, PartialOrd, Ord)]
pub(crate) struct Candidate {
    pub(crate) points: Reverse<i32>,
    pub(crate) player: PlayerId,
}

// The candidates for each position, the better first.
#[derive(Drop)]
pub(crate) struct Pools {
    pub(crate) keepers: Vec<Candidate>,
    pub(crate) defenders: Vec<Candidate>,
    pub(crate) midfielders: Vec<Candidate>,
    pub(crate) forwards: Vec<Candidate>,
}

fn is_at(position: Position, other: Position) -> bool
    ensures { result ≡ is_at position other }
{
    position == other
}

// The candidates for a position, in the order of the rows.
fn candidates(
    alloc: Global,
    rows: &[(PlayerId, Position, i32)],
    position: Position,
) -> Result<Vec<Candidate>, Memory>
    ensures { IfOk result (λ found.
        map (row_of position) found.items ≡ filter (λ row. is_at position row.1) rows.now) }
{
    let mut found = Vec::new(alloc);
    for row in rows {
        let (player, other, points) = *row;
        if is_at(position, other) {
            let points = Reverse(points);
            found.push(Candidate { points, player })?;
        }
    }
    Ok(found)
}

// The candidates for a position, the better first.
fn pool(
    alloc: Global,
    rows: &[(PlayerId, Position, i32)],
    position: Position,
) -> Result<Vec<Candidate>, Memory>
    requires differ { AllDiffer (map (λ row. row.0) rows.now) }
    requires near { All (λ row. IsWithin 1000000 row.2) rows.now }
    ensures { IfOk result (λ pool. IsPool rows.now position (map (row_of position) pool.items)) }
{
    let mut pool = candidates(alloc, rows, position)?;
    pool.sort_unstable();
    Ok(pool)
}

// The candidates for each position.
pub(crate) fn make_pools(alloc: Global, rows: &[(PlayerId, Position, i32)]) -> Result<Pools, Memory>
    requires differ { AllDiffer (map (λ row. row.0) rows.now) }
    requires near { All (λ row. IsWithin 1000000 row.2) rows.now }
    ensures { IfOk result (λ pools. ArePools rows.now (pool_of pools)) }
{
    Ok(Pools {
        keepers: pool(alloc, rows, Position::Keeper)?,
        defenders: pool(alloc, rows, Position::Defender)?,
        midfielders: pool(alloc, rows, Position::Midfielder)?,
        forwards: pool(alloc, rows, Position::Forward)?,
    })
}
