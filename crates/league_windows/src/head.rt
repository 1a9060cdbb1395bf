// The standings of a head-to-head league.
ghost use Rattle.std.specs.Prelude.{◌≡◌, ◌≤◌, ◌<◌, ◌+◌, ◌-◌, ◌*◌, ℕ, true, All, Contains, IfOk, Some, length, map};
ghost use Rattle.json_members.specs.Tokens.{Appends, tokens_of};
ghost use Rattle.rule_book.specs.Entries.{entry_in};
ghost use Rattle.rule_book.specs.LeagueCalls.{is_head};
ghost use Rattle.rule_book.specs.LeagueRows.{points_against};
ghost use Rattle.rule_book.specs.Opponents.{opponent_of};
ghost use Rattle.season_book.specs.LeagueViews.{name_of, net_in};
ghost use Rattle.season_book.specs.Windows.{listed, numbered};
ghost use Rattle.season_graph.specs.Followed.{AreEvaluated};
ghost use Rattle.season_graph.specs.Told.{average_told};
ghost use Rattle.season_nodes.specs.Season.{SeasonFacts, is_live};
ghost use Rattle.season_nodes.specs.declared.nodes.Node.{Node};
ghost use Rattle.season_views.specs.Seen.{IsKept, OfEachSeen, ShowsEach, WritesEach};
ghost use Rattle.season_book.specs.HeadStandings.{head_row_told, head_standing, head_standings, head_standings_window};
ghost use Rattle.season_book.specs.LeagueTables.{head_last_rank, head_rows_through};
ghost use Rattle.league_windows.specs.Openings.{WritesData};
ghost use Rattle.league_windows.specs.Standings.{head_standing_before};
ghost use Rattle.season_views.specs.StandingsReads.{head_standings_reads};

use crate::names::name_text;
use crate::pages::{begin_standings, end_standings};
use crate::places::rank_of;
use crate::scores::{last_behind, net};
use fpl_base::{EntryId, Gw, LeagueId, Memory, ReadCount};
use json::Writer;
use json_members::{write_count, write_integer, write_text};
use leagues_and_cups::{League, opponent, opponent_is_the_one, rank_head_to_head, result};
use rule_book::{HeadRanked, HeadScore, LeagueKind, Opponent, ranks};
use season_graph::{Node, Value};
use season_ledger::rows_tell;
use season_views::{Seen, SeenCells, head_rows};
use std::alloc::{AllocError, Global};
use std::cmp::Reverse;
use std::sync::ledger::Ledger;

// What members are ranked by as they stood a gameweek before: the more match points first, then the more points scored.
#[derive(Clone, Copy, Debug, PartialEq, Eq, PartialOrd, Ord)]
struct HeadStanding {
    points: Reverse<u32>,
    scored: Reverse<i64>,
}

// The points of the Average of a league in a gameweek in which it plays. It is a counted read.
fn average<L: Ledger>(
    cells: &SeenCells<L>,
    league: LeagueId,
    gameweek: Gw,
    steps: &mut ReadCount<L>,
) -> i32
    ensures value { (b : SeasonFacts) → AreEvaluated b cells.now
        → is_live b (Node.Average league gameweek) ≡ true
        → result ≡ average_told b league gameweek }
    ensures cost { steps.new ≡ steps.old + 1 }
{
    match cells.get(Node::Average(league, gameweek), steps) {
        Some(Value::Average(points)) => points.get(),
        _ => 0,
    }
}

// The points of whom a place of the order of a league meets in the last gameweek. It is a counted read.
fn points_against<L: Ledger>(
    seen: &Seen<L>,
    cells: &SeenCells<L>,
    id: LeagueId,
    league: &League,
    place: usize,
    last: Gw,
    steps: &mut ReadCount<L>,
) -> i32
    requires kept { IsKept seen.now cells.now }
    requires there { entry_in seen.now.leagues id ≡ Some league.now }
    requires within { place < length league.now.order }
    requires begun { league.now.start ≤ last }
    requires last { last ≡ seen.now.facts.calendar.locked }
    ensures value { OfEachSeen seen.now
        (λ entries. result
        ≡ points_against (net_in seen.now.facts entries) league.now.order last
        (opponent_of (length league.now.order) (last - league.now.start) place)) }
    ensures cost { steps.new ≤ steps.old + 1 }
{
    // The laws by which a place meets one opponent, that rows tell what their histories do, and that the ids of players
    // rise, for the prover.
    opponent_is_the_one();
    rows_tell();
    let _count = seen.players().len();
    let order = league.order();
    let round = u32::from(last.get() - league.start().get());
    match opponent(order.len(), round, place) {
        Opponent::Place(other) => net(seen, cells, order[other], last, steps),
        Opponent::Average => average(cells, id, last, steps),
    }
}

// A member's standing before the last gameweek, by its row of now: without the match of that gameweek, if it has one.
fn standing_before<L: Ledger>(
    seen: &Seen<L>,
    cells: &SeenCells<L>,
    id: LeagueId,
    league: &League,
    row: &(EntryId, HeadScore),
    last: Gw,
    steps: &mut ReadCount<L>,
) -> HeadStanding
    requires kept { IsKept seen.now cells.now }
    requires there { entry_in seen.now.leagues id ≡ Some league.now }
    requires begun { league.now.start ≤ last }
    requires last { last ≡ seen.now.facts.calendar.locked }
    ensures value { OfEachSeen seen.now
        (λ entries. result ≡ head_standing_before seen.now.facts entries league.now row.now) }
    ensures cost { steps.new ≤ steps.old + 2 }
{
    let (entry, score) = *row;
    match league.place(entry) {
        Some(place) => {
            let own = net(seen, cells, entry, last, steps);
            let other = points_against(seen, cells, id, league, place, last, steps);
            HeadStanding {
                points: Reverse(score.points.saturating_sub(u32::from(result(own, other)))),
                scored: Reverse(i64::from(score.scored) - i64::from(own)),
            }
        }
        None => HeadStanding {
            points: Reverse(score.points),
            scored: Reverse(i64::from(score.scored)),
        },
    }
}

/// The last rank of each member, by the rows of now, in the order of the members.
pub fn last_ranks<L: Ledger>(
    alloc: Global,
    seen: &Seen<L>,
    cells: &SeenCells<L>,
    id: LeagueId,
    league: &League,
    rows: &[(EntryId, HeadScore)],
    steps: &mut ReadCount<L>,
) -> Result<Vec<u32>, Memory>
    requires kept { IsKept seen.now cells.now }
    requires there { entry_in seen.now.leagues id ≡ Some league.now }
    requires rows { OfEachSeen seen.now
        (λ entries. rows.now
        ≡ head_rows_through seen.now.facts entries league.now seen.now.facts.calendar.locked) }
    requires each { length rows.now ≡ length league.now.members }
    ensures value { IfOk result
        (λ ranks. OfEachSeen seen.now
        (λ entries. ranks.items
        ≡ map (head_last_rank seen.now.facts entries league.now) league.now.members)) }
    ensures each { IfOk result (λ ranks. length ranks.items ≡ length league.now.members) }
    ensures cost { steps.new ≤ steps.old + 2 * length league.now.members }
{
    // That a league has few members, for the prover.
    let members = league.members().len();
    let Some(last) = last_behind(seen, league.start()) else {
        return Ok(vec![in alloc; 0; members]?);
    };
    let mut standings = Vec::with_capacity(alloc, rows.len())?;
    for row in rows {
        standings.push(standing_before(seen, cells, id, league, row, last, steps))?;
    }
    ranks(alloc, &standings)
}

// A row of the table of the league of a number, at a place from 1, with its last rank.
fn write_row<L: Ledger>(
    out: &mut Writer,
    seen: &Seen<L>,
    id: LeagueId,
    place: u64,
    row: &HeadRanked,
    last: u32,
) -> Result<(), AllocError>
    ensures { WritesEach seen.now
        (λ entries. head_row_told id (name_of entries row.now.entry) last (place, row.now)) result
        out.old out.new }
{
    let entry = u64::from(row.entry.get());
    let score = row.score;
    out.begin_object()?;
    write_count(out, "division", u64::from(id.get()))?;
    write_count(out, "entry", entry)?;
    write_text(out, "entry_name", name_text(seen, row.entry))?;
    write_count(out, "id", entry)?;
    write_count(out, "last_rank", u64::from(last))?;
    write_count(out, "matches_drawn", u64::from(score.drawn))?;
    write_count(out, "matches_lost", u64::from(score.lost))?;
    write_count(out, "matches_played", played(&score))?;
    write_count(out, "matches_won", u64::from(score.won))?;
    write_text(out, "player_name", "")?;
    write_integer(out, "points_for", score.scored)?;
    write_count(out, "rank", u64::from(row.rank))?;
    write_count(out, "rank_sort", place)?;
    write_count(out, "total", u64::from(score.points))?;
    out.end_object()
}

// How many matches were played.
fn played(score: &HeadScore) -> u64
    ensures { result ≡ score.now.won + score.now.drawn + score.now.lost }
{
    u64::from(score.won) + u64::from(score.drawn) + u64::from(score.lost)
}

// The rows of the table, by the last ranks of the members.
fn write_rows<L: Ledger>(
    out: &mut Writer,
    seen: &Seen<L>,
    id: LeagueId,
    league: &League,
    table: &[HeadRanked],
    ranks: &[u32],
) -> Result<(), AllocError>
    requires members { All (λ row. Contains league.now.members row.entry) table.now }
    requires each { length ranks.now ≡ length league.now.members }
    requires ranks { OfEachSeen seen.now
        (λ entries. ranks.now
        ≡ map (head_last_rank seen.now.facts entries league.now) league.now.members) }
    ensures { WritesEach seen.now
        (λ entries. listed (head_standing seen.now.facts entries id league.now) (numbered table.now))
        result out.old out.new }
{
    out.begin_array()?;
    for (place, row) in table.iter().enumerate() {
        let last = rank_of(league.members(), ranks, row.entry);
        write_row(out, seen, id, place as u64 + 1, row, last)?;
    }
    out.end_array()
}

// The standings of a league that is there.
fn write_standings<L: Ledger>(
    out: &mut Writer,
    alloc: Global,
    seen: &Seen<L>,
    cells: &SeenCells<L>,
    id: LeagueId,
    league: &League,
    steps: &mut ReadCount<L>,
) -> Result<(), Memory>
    requires kept { IsKept seen.now cells.now }
    requires there { entry_in seen.now.leagues id ≡ Some league.now }
    ensures value { OfEachSeen seen.now
        (λ entries. WritesData (head_standings seen.now.facts entries id league.now) result out.old
        out.new) }
    ensures cost { steps.new ≤ steps.old + 3 * length league.now.members }
{
    // The law that rows tell what their histories do, that the ids of players rise, and that a league starts in a
    // gameweek, for the prover.
    rows_tell();
    let _count = seen.players().len();
    let _start = league.start();
    let rows = head_rows(alloc, cells, id, league, steps)?;
    let ranks = last_ranks(alloc, seen, cells, id, league, &rows, steps)?;
    let table = rank_head_to_head(alloc, &rows)?;
    begin_standings(out, id, league)?;
    write_rows(out, seen, id, league, &table, &ranks)?;
    end_standings(out)?;
    Ok(())
}

/// Writes the standings of the head-to-head league of a number: the league, no new entries, and the rows of its table in
/// order, each with its place and with its rank a gameweek before. It answers whether there is such a league; where there
/// is none it writes nothing and takes no memory. Each row of an entry and each cell that it reads is a counted read
/// (docs/RULES.md, "Head-to-head leagues").
pub fn write_head_standings<L: Ledger>(
    out: &mut Writer,
    alloc: Global,
    seen: &Seen<L>,
    cells: &SeenCells<L>,
    number: u32,
    steps: &mut ReadCount<L>,
) -> Result<bool, Memory>
    requires kept { IsKept seen.now cells.now }
    ensures value { ShowsEach seen.now
        (λ entries. head_standings_window seen.now.facts entries seen.now.leagues number) result out.old
        out.new }
    ensures cost { steps.new ≤ steps.old + head_standings_reads seen.now.leagues number }
{
    let Some(id) = LeagueId::new(number) else {
        return Ok(false);
    };
    match seen.leagues().get(id) {
        Some(league) => match league.kind() {
            LeagueKind::Head => {
                write_standings(out, alloc, seen, cells, id, league, steps)?;
                Ok(true)
            }
            LeagueKind::Classic => Ok(false),
        },
        None => Ok(false),
    }
}
