// The standings of a classic league.
ghost use Rattle.std.specs.Prelude.{◌≡◌, ◌≤◌, ◌<◌, ◌+◌, ◌*◌, ℕ, false, All, AllPairs, Contains, IfOk, Some, length, map};
ghost use Rattle.json_members.specs.Tokens.{Appends, tokens_of};
ghost use Rattle.rule_book.specs.Entries.{entry_in};
ghost use Rattle.rule_book.specs.LeagueCalls.{is_head};
ghost use Rattle.season_book.specs.LeagueViews.{name_of};
ghost use Rattle.season_book.specs.Windows.{listed, numbered};
ghost use Rattle.season_views.specs.Seen.{IsKept, OfEachSeen, ShowsEach, WritesEach};
ghost use Rattle.season_book.specs.ClassicStandings.{classic_row_told, classic_standing, classic_standings, classic_standings_window, last_points};
ghost use Rattle.season_book.specs.LeagueTables.{classic_last_rank, classic_rows_through};
ghost use Rattle.league_windows.specs.Openings.{WritesData};
ghost use Rattle.league_windows.specs.Standings.{standing_before};
ghost use Rattle.season_views.specs.StandingsReads.{classic_standings_reads};

use crate::names::name_text;
use crate::pages::{begin_standings, end_standings};
use crate::places::rank_of;
use crate::scores::{last_behind, last_points, net};
use fpl_base::{EntryId, Gw, LeagueId, Memory, ReadCount};
use json::Writer;
use json_members::{write_count, write_integer, write_text};
use leagues_and_cups::{League, rank_classic};
use rule_book::{LeagueKind, Ranked, ranks};
use season_ledger::rows_tell;
use season_views::{Seen, SeenCells, classic_rows};
use std::alloc::{AllocError, Global};
use std::cmp::Reverse;
use std::sync::ledger::Ledger;

// What members are ranked by as they stood a gameweek before: the greater total first, then the fewer transfers.
#[derive(Clone, Copy, Debug, PartialEq, Eq, PartialOrd, Ord)]
struct Standing {
    total: Reverse<i64>,
    transfers: u32,
}

// A member's standing before the last gameweek, by its row of now: the total without the points of that gameweek, and the
// transfers without those of it. The total of now may be as low or as high as its type allows, and so this one has a
// wider one.
fn standing_before<L: Ledger>(
    seen: &Seen<L>,
    cells: &SeenCells<L>,
    row: &(EntryId, i32, u32),
    last: Gw,
    steps: &mut ReadCount<L>,
) -> Standing
    requires kept { IsKept seen.now cells.now }
    requires last { last ≡ seen.now.facts.calendar.locked }
    ensures value { OfEachSeen seen.now
        (λ entries. result ≡ standing_before seen.now.facts entries row.now) }
    ensures cost { steps.new ≡ steps.old + 2 }
{
    // The law that rows tell what their histories do, that the ids of players rise, and that entries are numbered from 1,
    // for the prover.
    rows_tell();
    let _count = seen.players().len();
    let (entry, total, _) = *row;
    let _number = entry.get();
    let points = net(seen, cells, entry, last, steps);
    let transfers = seen.counted_transfers(entry, last.get() - 1, steps);
    Standing {
        total: Reverse(i64::from(total) - i64::from(points)),
        transfers,
    }
}

// Those of all rows.
fn standings_before<L: Ledger>(
    alloc: Global,
    seen: &Seen<L>,
    cells: &SeenCells<L>,
    rows: &[(EntryId, i32, u32)],
    last: Gw,
    steps: &mut ReadCount<L>,
) -> Result<Vec<Standing>, Memory>
    requires kept { IsKept seen.now cells.now }
    requires last { last ≡ seen.now.facts.calendar.locked }
    ensures value { IfOk result
        (λ standings. OfEachSeen seen.now
        (λ entries. standings.items ≡ map (standing_before seen.now.facts entries) rows.now)) }
    ensures long { IfOk result (λ standings. length standings.items ≡ length rows.now) }
    ensures cost { steps.new ≤ steps.old + 2 * length rows.now }
{
    let mut standings = Vec::with_capacity(alloc, rows.len())?;
    for row in rows {
        standings.push(standing_before(seen, cells, row, last, steps))?;
    }
    Ok(standings)
}

/// The last rank of each member, by the rows of now, in the order of the members.
pub fn last_ranks<L: Ledger>(
    alloc: Global,
    seen: &Seen<L>,
    cells: &SeenCells<L>,
    league: &League,
    rows: &[(EntryId, i32, u32)],
    steps: &mut ReadCount<L>,
) -> Result<Vec<u32>, Memory>
    requires kept { IsKept seen.now cells.now }
    requires rows { OfEachSeen seen.now
        (λ entries. rows.now
        ≡ classic_rows_through seen.now.facts entries league.now seen.now.facts.calendar.locked) }
    requires each { length rows.now ≡ length league.now.members }
    ensures value { IfOk result
        (λ ranks. OfEachSeen seen.now
        (λ entries. ranks.items
        ≡ map (classic_last_rank seen.now.facts entries league.now) league.now.members)) }
    ensures each { IfOk result (λ ranks. length ranks.items ≡ length league.now.members) }
    ensures cost { steps.new ≤ steps.old + 2 * length league.now.members }
{
    // That a league has few members, for the prover.
    let members = league.members().len();
    match last_behind(seen, league.start()) {
        Some(last) => {
            let standings = standings_before(alloc, seen, cells, rows, last, steps)?;
            ranks(alloc, &standings)
        }
        None => Ok(vec![in alloc; 0; members]?),
    }
}

// A row of the table at a place from 1, with its last rank. It makes one counted read.
fn write_row<L: Ledger>(
    out: &mut Writer,
    seen: &Seen<L>,
    cells: &SeenCells<L>,
    place: u64,
    row: &Ranked,
    last: u32,
    steps: &mut ReadCount<L>,
) -> Result<(), AllocError>
    requires kept { IsKept seen.now cells.now }
    ensures value { WritesEach seen.now
        (λ entries. classic_row_told (name_of entries row.now.entry) (last_points seen.now.facts entries row.now.entry) last
        (place, row.now)) result out.old out.new }
    ensures cost { steps.new ≤ steps.old + 1 }
{
    let entry = u64::from(row.entry.get());
    out.begin_object()?;
    write_count(out, "entry", entry)?;
    write_text(out, "entry_name", name_text(seen, row.entry))?;
    write_integer(
        out,
        "event_total",
        last_points(seen, cells, row.entry, steps),
    )?;
    write_count(out, "id", entry)?;
    write_count(out, "last_rank", u64::from(last))?;
    write_text(out, "player_name", "")?;
    write_count(out, "rank", u64::from(row.rank))?;
    write_count(out, "rank_sort", place)?;
    write_integer(out, "total", row.total)?;
    out.end_object()
}

// The rows of the table, by the last ranks of the members.
fn write_rows<L: Ledger>(
    out: &mut Writer,
    seen: &Seen<L>,
    cells: &SeenCells<L>,
    league: &League,
    table: &[Ranked],
    ranks: &[u32],
    steps: &mut ReadCount<L>,
) -> Result<(), AllocError>
    requires kept { IsKept seen.now cells.now }
    requires members { All (λ row. Contains league.now.members row.entry) table.now }
    requires each { length ranks.now ≡ length league.now.members }
    requires ranks { OfEachSeen seen.now
        (λ entries. ranks.now
        ≡ map (classic_last_rank seen.now.facts entries league.now) league.now.members) }
    ensures value { WritesEach seen.now
        (λ entries. listed (classic_standing seen.now.facts entries league.now) (numbered table.now)) result
        out.old out.new }
    ensures cost { steps.new ≤ steps.old + length table.now }
{
    out.begin_array()?;
    for (place, row) in table.iter().enumerate() {
        let last = rank_of(league.members(), ranks, row.entry);
        write_row(out, seen, cells, place as u64 + 1, row, last, steps)?;
    }
    out.end_array()
}

// The standings of a league that is there.
fn write_standings<L: Ledger>(
    out: &mut Writer,
    alloc: Global,
    seen: &Seen<L>,
    cells: &SeenCells<L>,
    id: LeagueId,
    league: &League,
    steps: &mut ReadCount<L>,
) -> Result<(), Memory>
    requires kept { IsKept seen.now cells.now }
    requires there { entry_in seen.now.leagues id ≡ Some league.now }
    requires kind { is_head league.now.kind ≡ false }
    ensures value { OfEachSeen seen.now
        (λ entries. WritesData (classic_standings seen.now.facts entries id league.now) result out.old
        out.new) }
    ensures cost { steps.new ≤ steps.old + 5 * length league.now.members }
{
    let rows = classic_rows(alloc, seen, cells, league, steps)?;
    let ranks = last_ranks(alloc, seen, cells, league, &rows, steps)?;
    let table = rank_classic(alloc, &rows)?;
    begin_standings(out, id, league)?;
    write_rows(out, seen, cells, league, &table, &ranks, steps)?;
    end_standings(out)?;
    Ok(())
}

/// Writes the standings of the classic league of a number: the league, no new entries, and the rows of its table in order,
/// each with its place, the points of the last gameweek before deductions, and its rank a gameweek before. It answers
/// whether there is such a league; where there is none it writes nothing and takes no memory. Each row of an entry and each
/// cell that it reads is a counted read (docs/RULES.md, "Tables and ranks").
pub fn write_classic_standings<L: Ledger>(
    out: &mut Writer,
    alloc: Global,
    seen: &Seen<L>,
    cells: &SeenCells<L>,
    number: u32,
    steps: &mut ReadCount<L>,
) -> Result<bool, Memory>
    requires kept { IsKept seen.now cells.now }
    ensures value { ShowsEach seen.now
        (λ entries. classic_standings_window seen.now.facts entries seen.now.leagues number) result out.old
        out.new }
    ensures cost { steps.new ≤ steps.old + classic_standings_reads seen.now.leagues number }
{
    let Some(id) = LeagueId::new(number) else {
        return Ok(false);
    };
    match seen.leagues().get(id) {
        Some(league) => match league.kind() {
            LeagueKind::Classic => {
                write_standings(out, alloc, seen, cells, id, league, steps)?;
                Ok(true)
            }
            LeagueKind::Head => Ok(false),
        },
        None => Ok(false),
    }
}
