// The table of a classic league.
ghost use Rattle.std.specs.Prelude.{◌≡◌, ◌<◌, ◌≤◌, ◌-◌, ◌^◌, ℕ, All, length, map, get_or, IfOk, IsSorted};
ghost use Rattle.std.specs.Ordering.{is_lt};
ghost use Rattle.rule_book.specs.Ranks.{AllDiffer};
ghost use Rattle.rule_book.specs.ClassicTable.{IsClassicTable};
ghost use Rattle.rule_book.specs.Tables.{classic_table_of};
ghost use Rattle.leagues_and_cups.specs.ClassicStanding.{placed_of_row, by_standing, by_place, rank_placed, with_rank, ranked_placed};
ghost use Rattle.leagues_and_cups.specs.declared.classic_table.Placed.{Placed};

use fpl_base::{EntryId, Memory};
use rule_book::{Ranked, tables_are_the_one};
use std::alloc::Global;
use std::cmp::Reverse;

// What a row is ranked by: the greater total first, then the fewer transfers.
#[derive(Clone, Copy, Debug, PartialEq, Eq, PartialOrd, Ord)]
struct Standing {
    total: Reverse<i32>,
    transfers: u32,
}

// A row as the table orders it: by its standing, those of one standing by entry.
#[derive(Clone, Copy, Debug, PartialEq, Eq, PartialOrd, Ord)]
struct Placed {
    standing: Standing,
    entry: EntryId,
}

fn placed_of(row: &(EntryId, i32, u32)) -> Placed
    ensures { result ≡ placed_of_row row.now }
{
    let (entry, total, transfers) = *row;
    Placed {
        standing: Standing {
            total: Reverse(total),
            transfers,
        },
        entry,
    }
}

// The rows as the table orders them, in the order given. Since their entries differ, they are fewer than the numbers
// that an entry can have.
fn all_placed(alloc: Global, rows: &[(EntryId, i32, u32)]) -> Result<Vec<Placed>, Memory>
    requires { AllDiffer (map (λ row. row.0) rows.now) }
    ensures each { IfOk result (λ placed. placed.items ≡ map placed_of_row rows.now) }
    ensures few { IfOk result (λ placed. length placed.items < 2 ^ 32) }
{
    let mut placed = Vec::with_capacity(alloc, rows.len())?;
    for row in rows {
        // That an entry has a number below 2^32, for the prover.
        let _entry = row.0.get();
        placed.push(placed_of(row))?;
    }
    Ok(placed)
}

// A row with its rank.
fn ranked_row(row: &Placed, rank: u32) -> Ranked
    ensures { result ≡ with_rank row.now rank }
{
    Ranked {
        rank,
        entry: row.entry,
        total: row.standing.total.0,
        transfers: row.standing.transfers,
    }
}

// Whether a row has a better standing than another.
fn is_better(row: &Placed, other: &Placed) -> bool
    ensures { result ≡ is_lt (by_standing row.now.standing other.now.standing) }
{
    row.standing < other.standing
}

// The rank of the row at a place of rows that are in order, where the row before it has the rank given: the same where
// their standings are equal, or else one more than the number of rows before it.
fn next_rank(rows: &[Placed], place: usize, rank: u32) -> u32
    requires among { place < length rows.now }
    requires few { length rows.now < 2 ^ 32 }
    requires in_order { IsSorted by_place rows.now }
    requires last { (d : Placed) → 0 < place
        → rank ≡ rank_placed rows.now (get_or rows.now (place - 1) d) }
    ensures { (d : Placed) → result ≡ rank_placed rows.now (get_or rows.now place d) }
{
    if place == 0 {
        1
    } else if is_better(&rows[place - 1], &rows[place]) {
        place as u32 + 1
    } else {
        rank
    }
}

// The rows, which are in order, with their ranks.
fn ranked_rows(alloc: Global, rows: &[Placed]) -> Result<Vec<Ranked>, Memory>
    requires few { length rows.now < 2 ^ 32 }
    requires in_order { IsSorted by_place rows.now }
    ensures { IfOk result (λ table. table.items ≡ map (ranked_placed rows.now) rows.now) }
{
    let mut table = Vec::with_capacity(alloc, rows.len())?;
    let mut rank = 0;
    for (place, row) in rows.iter().enumerate() {
        rank = next_rank(rows, place, rank);
        table.push(ranked_row(row, rank))?;
    }
    Ok(table)
}

/// The table of a classic league: its rows, each an entry with its total in points and its counted transfers, ranked by
/// the greater total, then the fewer transfers. Rows that are equal in both have the same rank, and the next rank is one
/// more than the number of rows before it. They stand by rank, then entry. It takes memory, and time for one sort.
/// `docs/RULES.md` has this under "Tables and ranks".
pub fn rank_classic(alloc: Global, rows: &[(EntryId, i32, u32)]) -> Result<Vec<Ranked>, Memory>
    requires { AllDiffer (map (λ row. row.0) rows.now) }
    ensures ranked { IfOk result (λ table. IsClassicTable rows.now table.items) }
    ensures value { IfOk result (λ table. table.items ≡ classic_table_of rows.now) }
    ensures entries { (n : ℕ) → All (λ e. e ≤ n) (map (λ row. row.0) rows.now)
        → IfOk result (λ table. All (λ row. row.entry ≤ n) table.items) }
{
    // The law that a table of rows whose entries differ is the one, for the prover.
    tables_are_the_one();
    let mut placed = all_placed(alloc, rows)?;
    placed.sort_unstable();
    ranked_rows(alloc, &placed)
}
