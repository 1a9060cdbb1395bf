// The ranks of an entry in its leagues.
ghost use Rattle.std.specs.Prelude.{◌≡◌, ◌≤◌, ◌<◌, ◌+◌, ◌*◌, ℕ, ℤ, true, false, AllPairs, Contains, IfOk, Some, get_or, length, map};
ghost use Rattle.rule_book.specs.declared.tables.HeadScore.{HeadScore};
ghost use Rattle.rule_book.specs.ClassicTable.{is_better};
ghost use Rattle.rule_book.specs.Entries.{entry_in};
ghost use Rattle.rule_book.specs.HeadToHead.{is_better as is_better_in_head};
ghost use Rattle.rule_book.specs.LeagueCalls.{is_head, is_member};
ghost use Rattle.rule_book.specs.Ranks.{rank_among};
ghost use Rattle.season_views.specs.Cells.{AreKeptWith};
ghost use Rattle.season_views.specs.Seen.{IsKept, OfEachSeen};
ghost use Rattle.entry_windows.specs.EntryLeagues.{league_reads, league_told};
ghost use Rattle.season_book.specs.EntryWindow.{entry_league_told};
ghost use Rattle.season_book.specs.LeagueTables.{classic_last_rank, classic_rank, head_last_rank, head_rank};

use fpl_base::{EntryId, LeagueId, Memory, ReadCount};
use league_windows::{classic_last_ranks, head_last_ranks, rank_of};
use leagues_and_cups::League;
use rule_book::{HeadScore, LeagueKind};
use season_ledger::rows_tell;
use season_views::{Seen, SeenCells, classic_rows, head_rows};
use std::alloc::Global;
use std::sync::ledger::Ledger;

/// The rank of an entry in a league as it stood a gameweek before, 0 where the league had not begun by then, and as it
/// stands now.
#[derive(Clone, Copy, Drop)]
pub struct LeagueRanks {
    pub last: u32,
    pub current: u64,
}

// Those of a member of a classic league.
fn classic_ranks<L: Ledger>(
    alloc: Global,
    seen: &Seen<L>,
    cells: &SeenCells<L>,
    league: &League,
    entry: EntryId,
    steps: &mut ReadCount<L>,
) -> Result<LeagueRanks, Memory>
    requires kept { IsKept seen.now cells.now }
    requires with { AreKeptWith seen.now.facts seen.now.managers league.now cells.now }
    requires kind { is_head league.now.kind ≡ false }
    requires member { is_member league.now entry ≡ true }
    ensures last { IfOk result
        (λ ranks. OfEachSeen seen.now
        (λ entries. ranks.last ≡ classic_last_rank seen.now.facts entries league.now entry)) }
    ensures current { IfOk result
        (λ ranks. OfEachSeen seen.now
        (λ entries. ranks.current
        ≡ classic_rank seen.now.facts entries league.now seen.now.facts.calendar.locked entry)) }
    ensures cost { steps.new ≤ steps.old + 4 * length league.now.members }
{
    let rows = classic_rows(alloc, seen, cells, league, steps)?;
    let ranks = classic_last_ranks(alloc, seen, cells, league, &rows, steps)?;
    let last = rank_of(league.members(), &ranks, entry);
    let current = classic_rank_of(league.members(), &rows, entry);
    Ok(LeagueRanks { last, current })
}

// Those of a member of a head-to-head league.
fn head_ranks<L: Ledger>(
    alloc: Global,
    seen: &Seen<L>,
    cells: &SeenCells<L>,
    id: LeagueId,
    league: &League,
    entry: EntryId,
    steps: &mut ReadCount<L>,
) -> Result<LeagueRanks, Memory>
    requires kept { IsKept seen.now cells.now }
    requires there { entry_in seen.now.leagues id ≡ Some league.now }
    requires member { is_member league.now entry ≡ true }
    ensures last { IfOk result
        (λ ranks. OfEachSeen seen.now
        (λ entries. ranks.last ≡ head_last_rank seen.now.facts entries league.now entry)) }
    ensures current { IfOk result
        (λ ranks. OfEachSeen seen.now
        (λ entries. ranks.current
        ≡ head_rank seen.now.facts entries league.now seen.now.facts.calendar.locked entry)) }
    ensures cost { steps.new ≤ steps.old + 3 * length league.now.members }
{
    // The law that rows tell what their histories do, that the ids of players rise, and that a league starts in a
    // gameweek, for the prover.
    rows_tell();
    let _count = seen.players().len();
    let _start = league.start();
    let rows = head_rows(alloc, cells, id, league, steps)?;
    let ranks = head_last_ranks(alloc, seen, cells, id, league, &rows, steps)?;
    let last = rank_of(league.members(), &ranks, entry);
    let current = head_rank_of(league.members(), &rows, entry);
    Ok(LeagueRanks { last, current })
}

/// Those of a member of a league, by its kind.
pub fn ranks_in<L: Ledger>(
    alloc: Global,
    seen: &Seen<L>,
    cells: &SeenCells<L>,
    id: LeagueId,
    league: &League,
    entry: EntryId,
    steps: &mut ReadCount<L>,
) -> Result<LeagueRanks, Memory>
    requires kept { IsKept seen.now cells.now }
    requires there { entry_in seen.now.leagues id ≡ Some league.now }
    requires member { is_member league.now entry ≡ true }
    ensures told { IfOk result
        (λ ranks. OfEachSeen seen.now
        (λ entries. entry_league_told entry ranks.last ranks.current (id, league.now)
        ≡ league_told league.now.kind seen.now.facts entries entry (id, league.now))) }
    ensures cost { steps.new ≤ steps.old + league_reads league.now.kind entry league.now }
{
    match league.kind() {
        LeagueKind::Classic => classic_ranks(alloc, seen, cells, league, entry, steps),
        LeagueKind::Head => head_ranks(alloc, seen, cells, id, league, entry, steps),
    }
}

// The place of a member among the members.
fn place_of(members: &[EntryId], entry: EntryId) -> usize
    requires rise { AllPairs (λ a b. a < b) members.now }
    requires member { Contains members.now entry }
    ensures within { result < length members.now }
    ensures is { get_or members.now result 0 ≡ entry }
{
    match members.binary_search(&entry) {
        Ok(place) => place,
        Err(_) => unreachable!(),
    }
}

// The rank of a member's row of a classic league among all rows.
fn classic_rank_of(members: &[EntryId], rows: &[(EntryId, i32, u32)], entry: EntryId) -> u64
    requires rise { AllPairs (λ a b. a < b) members.now }
    requires member { Contains members.now entry }
    requires each { length rows.now ≡ length members.now }
    requires few { length rows.now ≤ 2048 }
    ensures { (row : ℕ → ℕ × ℤ × ℕ) → rows.now ≡ map row members.now
        → result ≡ rank_among is_better rows.now (row entry) }
{
    let place = place_of(members, entry);
    classic_rank(rows, &rows[place])
}

// The rank of a row of a classic league among all rows.
fn classic_rank(rows: &[(EntryId, i32, u32)], own: &(EntryId, i32, u32)) -> u64
    requires few { length rows.now ≤ 2048 }
    ensures { result ≡ rank_among is_better rows.now own.now }
{
    rows.iter().filter(|row| is_better(row, own)).count() as u64 + 1
}

// Whether a row of a classic league is better than another: by the greater total, then by fewer transfers.
fn is_better(row: &(EntryId, i32, u32), own: &(EntryId, i32, u32)) -> bool
    ensures { result ≡ is_better row.now own.now }
{
    row.1 > own.1 || (row.1 == own.1 && row.2 < own.2)
}

// The rank of a member's row of a head-to-head league among all rows.
fn head_rank_of(members: &[EntryId], rows: &[(EntryId, HeadScore)], entry: EntryId) -> u64
    requires rise { AllPairs (λ a b. a < b) members.now }
    requires member { Contains members.now entry }
    requires each { length rows.now ≡ length members.now }
    requires few { length rows.now ≤ 2048 }
    ensures { (row : ℕ → ℕ × HeadScore) → rows.now ≡ map row members.now
        → result ≡ rank_among is_better_in_head rows.now (row entry) }
{
    let place = place_of(members, entry);
    head_rank(rows, &rows[place])
}

// The rank of a row of a head-to-head league among all rows.
fn head_rank(rows: &[(EntryId, HeadScore)], own: &(EntryId, HeadScore)) -> u64
    requires few { length rows.now ≤ 2048 }
    ensures { result ≡ rank_among is_better_in_head rows.now own.now }
{
    rows.iter()
        .filter(|row| is_better_in_head(row, own))
        .count() as u64
        + 1
}

// Whether a row of a head-to-head league is better than another: by more match points, then by more points scored.
fn is_better_in_head(row: &(EntryId, HeadScore), own: &(EntryId, HeadScore)) -> bool
    ensures { result ≡ is_better_in_head row.now own.now }
{
    row.1.points > own.1.points || (row.1.points == own.1.points && row.1.scored > own.1.scored)
}
