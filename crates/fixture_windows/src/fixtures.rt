// The fixtures of a season, each with its score and with what its players did in it.
ghost use Rattle.std.specs.Prelude.{◌≡◌, ◌≤◌, ◌+◌, codes, fold, max, sum_by};
ghost use Rattle.std.specs.Option.{option_map};
ghost use Rattle.json_members.specs.Tokens.{Appends, all_member_tokens, member_tokens, tokens_of};
ghost use Rattle.season_book.specs.Windows.{listed};
ghost use Rattle.season_views.specs.Seen.{IsKept, ShowsEach};
ghost use Rattle.season_views.specs.FixturesReads.{fixtures_reads, match_reads};
ghost use Rattle.season_book.specs.FixturesWindow.{away_score, fixture_row, fixtures_window, home_score, minutes_in, stats_data};
ghost use Rattle.season_book.specs.LineSums.{minutes_of};
ghost use Rattle.fixture_windows.specs.MatchRows.{IsMatch};
ghost use Rattle.fixture_windows.specs.RowParts.{fixture_begun, fixture_ended};

use crate::appeared::all_appeared;
use crate::matches::{Match, read_match};
use crate::order::by_kickoff;
use crate::score::{Score, score_of};
use crate::told::write_stats;
use fpl_base::{FixtureId, Gw, Memory, ReadCount};
use json::Writer;
use json_members::{write_count, write_count_or_null, write_no_list, write_truth};
use rule_book::{Fixture, Line};
use season_views::{Seen, SeenCells, write_moment};
use std::alloc::{AllocError, Global};
use std::sync::ledger::Ledger;

// As many minutes has a match.
const MINUTES: u64 = 90;

/// The fixtures of a season by kick-off. Each line of a match is one counted read, and its bonuses are one.
pub fn write_fixtures<L: Ledger>(
    out: &mut Writer,
    alloc: Global,
    seen: &Seen<L>,
    cells: &SeenCells<L>,
    steps: &mut ReadCount<L>,
) -> Result<bool, Memory>
    requires kept { IsKept seen.now cells.now }
    ensures value { ShowsEach seen.now (λ entries. fixtures_window seen.now.facts) result out.old
        out.new }
    ensures cost { steps.new ≤ steps.old + fixtures_reads seen.now.facts }
{
    // The law that the ids of fixtures rise, for the prover.
    let _locked = seen.calendar().locked();
    let order = by_kickoff(alloc, seen.calendar().fixtures())?;
    write_all(out, alloc, seen, cells, &order, steps)?;
    Ok(true)
}

// Writes fixtures in their order.
fn write_all<L: Ledger>(
    out: &mut Writer,
    alloc: Global,
    seen: &Seen<L>,
    cells: &SeenCells<L>,
    order: &[Fixture],
    steps: &mut ReadCount<L>,
) -> Result<(), AllocError>
    requires kept { IsKept seen.now cells.now }
    ensures value { Appends result out.old out.new
        (tokens_of (listed (fixture_row seen.now.facts) order.now)) }
    ensures cost { steps.new
        ≤ steps.old + sum_by (λ fixture. match_reads seen.now.facts fixture.id) order.now }
{
    out.begin_array()?;
    for fixture in order {
        write_fixture(out, alloc, seen, cells, fixture, steps)?;
    }
    out.end_array()
}

fn write_fixture<L: Ledger>(
    out: &mut Writer,
    alloc: Global,
    seen: &Seen<L>,
    cells: &SeenCells<L>,
    fixture: &Fixture,
    steps: &mut ReadCount<L>,
) -> Result<(), AllocError>
    requires kept { IsKept seen.now cells.now }
    ensures value { Appends result out.old out.new
        (tokens_of (fixture_row seen.now.facts fixture.now)) }
    ensures cost { steps.new ≤ steps.old + match_reads seen.now.facts fixture.now.id }
{
    let rows = read_match(seen, cells, fixture.id, steps);
    write_row(out, alloc, seen, fixture, &rows)
}

// Writes a fixture by what was read of it.
fn write_row<L: Ledger>(
    out: &mut Writer,
    alloc: Global,
    seen: &Seen<L>,
    fixture: &Fixture,
    rows: &Match<'_>,
) -> Result<(), AllocError>
    requires { IsMatch seen.now.facts fixture.now.id rows.now.players.now rows.now.lines.now
        rows.now.bonuses.now }
    ensures { Appends result out.old out.new
        (tokens_of (fixture_row seen.now.facts fixture.now)) }
{
    out.begin_object()?;
    write_start(out, seen, fixture, rows)?;
    write_figures(out, alloc, seen, fixture, rows)?;
    write_end(out, seen, fixture, rows)?;
    out.end_object()
}

// The members of a fixture up to whether it has started.
fn write_start<L: Ledger>(
    out: &mut Writer,
    seen: &Seen<L>,
    fixture: &Fixture,
    rows: &Match<'_>,
) -> Result<(), AllocError>
    requires { IsMatch seen.now.facts fixture.now.id rows.now.players.now rows.now.lines.now
        rows.now.bonuses.now }
    ensures { Appends result out.old out.new
        (all_member_tokens (fixture_begun seen.now.facts fixture.now)) }
{
    let is_finished = seen.is_finished(fixture.id);
    write_count(out, "code", u64::from(fixture.id.get()))?;
    write_count_or_null(out, "event", number_of(fixture.gw))?;
    write_truth(out, "finished", is_finished)?;
    write_truth(out, "finished_provisional", is_finished)?;
    write_count(out, "id", u64::from(fixture.id.get()))?;
    write_moment(out, "kickoff_time", fixture.kickoff)?;
    write_count(out, "minutes", minutes_of_match(seen, fixture.id, rows))?;
    write_truth(out, "started", seen.has_facts(fixture.id))
}

// Its figures, once it has started.
fn write_figures<L: Ledger>(
    out: &mut Writer,
    alloc: Global,
    seen: &Seen<L>,
    fixture: &Fixture,
    rows: &Match<'_>,
) -> Result<(), AllocError>
    requires { IsMatch seen.now.facts fixture.now.id rows.now.players.now rows.now.lines.now
        rows.now.bonuses.now }
    ensures { Appends result out.old out.new
        (member_tokens (codes "stats") (stats_data seen.now.facts fixture.now)) }
{
    if !seen.has_facts(fixture.id) {
        return write_no_list(out, "stats");
    }
    let all = all_appeared(alloc, seen, fixture, rows)?;
    out.key("stats")?;
    write_stats(out, alloc, &all)
}

// Its clubs with their goals.
fn write_end<L: Ledger>(
    out: &mut Writer,
    seen: &Seen<L>,
    fixture: &Fixture,
    rows: &Match<'_>,
) -> Result<(), AllocError>
    requires { IsMatch seen.now.facts fixture.now.id rows.now.players.now rows.now.lines.now
        rows.now.bonuses.now }
    ensures { Appends result out.old out.new
        (all_member_tokens (fixture_ended fixture.now (away_score seen.now.facts fixture.now)
        (home_score seen.now.facts fixture.now))) }
{
    let score = score_of(seen, fixture, rows);
    write_clubs(out, fixture, score)
}

// The same by the score, if there is one.
fn write_clubs(out: &mut Writer, fixture: &Fixture, score: Option<Score>) -> Result<(), AllocError>
    ensures { Appends result out.old out.new
        (all_member_tokens (fixture_ended fixture.now (option_map (λ score. score.away) score)
        (option_map (λ score. score.home) score))) }
{
    write_count(out, "team_a", u64::from(fixture.away.get()))?;
    write_count_or_null(out, "team_a_score", away_in(score))?;
    write_count(out, "team_h", u64::from(fixture.home.get()))?;
    write_count_or_null(out, "team_h_score", home_in(score))
}

// The minutes of a match.
fn minutes_of_match<L: Ledger>(seen: &Seen<L>, fixture: FixtureId, rows: &Match<'_>) -> u64
    requires { IsMatch seen.now.facts fixture rows.now.players.now rows.now.lines.now
        rows.now.bonuses.now }
    ensures { result ≡ minutes_in seen.now.facts fixture }
{
    if seen.is_finished(fixture) {
        return MINUTES;
    }
    MINUTES.min(most_minutes(rows.lines))
}

// The most minutes that a player has.
fn most_minutes(lines: &[Line]) -> u64
    ensures { result ≡ fold (λ most line. max most (minutes_of line)) 0 lines.now }
{
    let mut most = 0;
    for line in lines {
        most = most.max(u64::from(line.figures[0]));
    }
    most
}

// The goals of the side away.
pub(crate) fn away_in(score: Option<Score>) -> Option<u64>
    ensures { result ≡ option_map (λ score. score.away) score }
{
    match score {
        Some(score) => Some(score.away),
        None => None,
    }
}

// The goals of the side at home.
pub(crate) fn home_in(score: Option<Score>) -> Option<u64>
    ensures { result ≡ option_map (λ score. score.home) score }
{
    match score {
        Some(score) => Some(score.home),
        None => None,
    }
}

// The number of a gameweek, if there is one.
pub(crate) fn number_of(gameweek: Option<Gw>) -> Option<u64>
    ensures { result ≡ gameweek }
{
    match gameweek {
        Some(gameweek) => Some(u64::from(gameweek.get())),
        None => None,
    }
}
