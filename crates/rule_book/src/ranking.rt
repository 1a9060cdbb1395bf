// Ranks by any order.
ghost use Rattle.std.specs.Prelude.{◌≡◌, ◌<◌, ◌^◌, length, map, count_by, IfOk, IsSorted, Contains};
ghost use Rattle.std.specs.Ordering.{is_lt};
ghost use Rattle.rule_book.specs.Ranks.{rank_among};

use fpl_base::Memory;
use std::alloc::Global;

// How many of the standings, which are in order, are less than one of them.
fn count_less<S: Ord>(sorted: &[S], standing: &S) -> usize
    requires in_order { IsSorted S.cmp sorted.now }
    requires among { Contains sorted.now standing.now }
    ensures count { result ≡ count_by (λ other. is_lt (S.cmp other standing.now)) sorted.now }
    ensures not_all { result < length sorted.now }
{
    sorted.partition_point(|other| other.cmp(standing).is_lt())
}

/// The rank of each of the standings, in the order given, where the lesser standing is the better one. It takes memory,
/// and time for a sort.
pub fn ranks<S: Ord + Copy>(alloc: Global, standings: &[S]) -> Result<Vec<u32>, Memory>
    requires few { length standings.now < 2 ^ 32 }
    ensures { IfOk result
        (λ ranks. ranks.items
        ≡ map (rank_among (λ a b. is_lt (S.cmp a b)) standings.now) standings.now) }
{
    let mut sorted = Vec::from_slice(alloc, standings)?;
    sorted.sort()?;
    let mut ranks = Vec::new(alloc);
    for standing in standings {
        let better = count_less(&sorted, standing);
        ranks.push(better as u32 + 1)?;
    }
    Ok(ranks)
}
