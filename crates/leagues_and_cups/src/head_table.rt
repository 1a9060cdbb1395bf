// The table of a head-to-head league.
ghost use Rattle.std.specs.Prelude.{◌≡◌, ◌<◌, ◌≤◌, ◌^◌, ℕ, All, length, map, IfOk};
ghost use Rattle.std.specs.List.{zip};
ghost use Rattle.rule_book.specs.Ranks.{AllDiffer};
ghost use Rattle.rule_book.specs.HeadToHead.{IsHeadTable};
ghost use Rattle.rule_book.specs.Tables.{head_table_of};
ghost use Rattle.leagues_and_cups.specs.HeadStanding.{standing_of_row, with_rank};

use fpl_base::{EntryId, Memory};
use rule_book::{HeadRanked, HeadScore, ranks, tables_are_the_one};
use std::alloc::Global;
use std::cmp::Reverse;

// What a row is ranked by: the more match points first, then the more points scored.
#[derive(Clone, Copy, Debug, PartialEq, Eq, PartialOrd, Ord)]
struct Standing {
    points: Reverse<u32>,
    scored: Reverse<i32>,
}

fn standing_of(row: &(EntryId, HeadScore)) -> Standing
    ensures { result ≡ standing_of_row row.now }
{
    Standing {
        points: Reverse(row.1.points),
        scored: Reverse(row.1.scored),
    }
}

// The standing of each row. Since their entries differ, the rows are fewer than the numbers that an entry can have.
fn standings_of(alloc: Global, rows: &[(EntryId, HeadScore)]) -> Result<Vec<Standing>, Memory>
    requires { AllDiffer (map (λ row. row.0) rows.now) }
    ensures each { IfOk result (λ standings. standings.items ≡ map standing_of_row rows.now) }
    ensures few { IfOk result (λ standings. length standings.items < 2 ^ 32) }
{
    let mut standings = Vec::new(alloc);
    for row in rows {
        // That an entry has a number below 2^32, for the prover.
        let _entry = row.0.get();
        standings.push(standing_of(row))?;
    }
    Ok(standings)
}

// A row with its rank.
fn ranked_row(row: &(EntryId, HeadScore), rank: u32) -> HeadRanked
    ensures { result ≡ with_rank (row.now, rank) }
{
    HeadRanked {
        rank,
        entry: row.0,
        score: row.1,
    }
}

// The rows with their ranks.
fn ranked_rows(
    alloc: Global,
    rows: &[(EntryId, HeadScore)],
    ranks: &[u32],
) -> Result<Vec<HeadRanked>, Memory>
    ensures { IfOk result (λ table. table.items ≡ map with_rank (zip rows.now ranks.now)) }
{
    let table = rows
        .iter()
        .zip(ranks)
        .map(|(row, rank)| ranked_row(row, *rank))
        .collect(alloc)?;
    Ok(table)
}

/// The table of a head-to-head league: its rows, each an entry, all different, with what it has of its matches, ranked by
/// match points, then points scored. Rows that are equal in both have the same rank, and the next rank is one more than
/// the number of rows before it. They stand by rank, then entry. It takes memory, and time for two sorts. `docs/RULES.md`
/// has this under "Tables and ranks".
pub fn rank_head_to_head(
    alloc: Global,
    rows: &[(EntryId, HeadScore)],
) -> Result<Vec<HeadRanked>, Memory>
    requires { AllDiffer (map (λ row. row.0) rows.now) }
    ensures ranked { IfOk result (λ table. IsHeadTable rows.now table.items) }
    ensures value { IfOk result (λ table. table.items ≡ head_table_of rows.now) }
    ensures entries { (n : ℕ) → All (λ e. e ≤ n) (map (λ row. row.0) rows.now)
        → IfOk result (λ table. All (λ row. row.entry ≤ n) table.items) }
{
    // The law that a table of rows whose entries differ is the one, for the prover.
    tables_are_the_one();
    let standings = standings_of(alloc, rows)?;
    let ranks = ranks(alloc, &standings)?;
    let mut table = ranked_rows(alloc, rows, &ranks)?;
    table.sort_by_key(|row| (row.rank, row.entry))?;
    Ok(table)
}
