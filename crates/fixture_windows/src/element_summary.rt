// One player: the matches that his club has before it, and his lines.
ghost use Rattle.std.specs.Prelude.{◌≡◌, ◌≤◌, ◌<◌, ◌+◌, ◌&&◌, ◌||◌, ◌==◌, if◌then◌else◌, ℕ, [], IfSome, List, Some, codes, filter, get_or, length, not, slice_get, sum_by, pos, ◌+ℤ◌, ◌≤ℤ◌};
ghost use Rattle.std.specs.List.{flat_map, zip};
ghost use Rattle.std.specs.Option.{option_and_then, option_map};
ghost use Rattle.json_members.specs.Members.{count, integer};
ghost use Rattle.json_members.specs.Tokens.{Appends, all_member_tokens, member_tokens, tokens_of};
ghost use Rattle.rule_book.specs.declared.line.Line.{Line};
ghost use Rattle.rule_book.specs.BonusPoints.{bps_of};
ghost use Rattle.rule_book.specs.ById.{at_id};
ghost use Rattle.rule_book.specs.declared.season.Fixture.{Fixture};
ghost use Rattle.rule_book.specs.Figures.{IsLine, figure};
ghost use Rattle.rule_book.specs.MatchFacts.{has_facts, lines_of};
ghost use Rattle.rule_book.specs.PlayerFigures.{bonus_at, position_in};
ghost use Rattle.rule_book.specs.Points.{points_of};
ghost use Rattle.season_book.specs.Book.{Facts};
ghost use Rattle.season_book.specs.Windows.{listed};
ghost use Rattle.season_views.specs.Seen.{IsKept, ShowsEach};
ghost use Rattle.season_book.specs.ElementSummary.{beside_match, coming_row, element_summary_window, has_club, history_row, opponent_in, summary_data, was_home};
ghost use Rattle.season_views.specs.ElementSummaryReads.{element_summary_reads};
ghost use Rattle.season_views.specs.FixturesReads.{match_reads};
ghost use Rattle.season_book.specs.FixturesWindow.{away_score, home_score};
ghost use Rattle.season_book.specs.LineSums.{clean_sheets_of, yellow_cards_of};
ghost use Rattle.fixture_windows.specs.MatchRows.{IsMatch};
ghost use Rattle.fixture_windows.specs.RowParts.{line_amid, line_begun, line_ended, row_tokens};
ghost use Rattle.fixture_windows.specs.Sides.{side_of};

use crate::appeared::position_of;
use crate::fixtures::{away_in, home_in, number_of};
use crate::matches::{Match, read_match};
use crate::order::by_kickoff;
use crate::score::{Score, score_of};
use crate::sides::{Side, side_of};
use fpl_base::{ClubId, Memory, PlayerId, ReadCount};
use json::Writer;
use json_members::{
    write_count, write_count_or_null, write_integer, write_no_list, write_nothing, write_truth,
};
use rule_book::{Fixture, Line, Player};
use scoring::{bps, line_points};
use season_rules::bonus_among;
use season_views::{Seen, SeenCells, write_moment};
use std::alloc::{AllocError, Global};
use std::sync::ledger::Ledger;

/// The player of a number: the matches that his club has before it, and his lines. Each line of a match in which he has one
/// is a counted read, and its bonuses are one.
pub fn write_element_summary<L: Ledger>(
    out: &mut Writer,
    alloc: Global,
    seen: &Seen<L>,
    cells: &SeenCells<L>,
    player: u32,
    steps: &mut ReadCount<L>,
) -> Result<bool, Memory>
    requires kept { IsKept seen.now cells.now }
    ensures value { ShowsEach seen.now (λ entries. element_summary_window seen.now.facts player)
        result out.old out.new }
    ensures cost { steps.new ≤ steps.old + element_summary_reads seen.now.facts player }
{
    let Some(there) = seen.player(player) else {
        return Ok(false);
    };
    write_summary(out, alloc, seen, cells, there, steps)?;
    Ok(true)
}

// Writes what is shown of a player who is there.
fn write_summary<L: Ledger>(
    out: &mut Writer,
    alloc: Global,
    seen: &Seen<L>,
    cells: &SeenCells<L>,
    player: &Player,
    steps: &mut ReadCount<L>,
) -> Result<(), AllocError>
    requires kept { IsKept seen.now cells.now }
    ensures value { Appends result out.old out.new
        (tokens_of (summary_data seen.now.facts player.now)) }
    ensures cost { steps.new ≤ steps.old + element_summary_reads seen.now.facts player.now.id }
{
    // The law that the ids of fixtures rise, for the prover.
    let _locked = seen.calendar().locked();
    let order = by_kickoff(alloc, seen.calendar().fixtures())?;
    out.begin_object()?;
    out.key("fixtures")?;
    write_coming(out, seen, player.club, &order)?;
    out.key("history")?;
    write_history(out, seen, cells, player.id, &order, steps)?;
    write_no_list(out, "history_past")?;
    out.end_object()
}

// Writes the matches of a club that have not started.
fn write_coming<L: Ledger>(
    out: &mut Writer,
    seen: &Seen<L>,
    club: ClubId,
    order: &[Fixture],
) -> Result<(), AllocError>
    ensures { Appends result out.old out.new
        (tokens_of (listed (coming_row club)
        (filter (λ fixture. has_club club fixture
        && not (has_facts seen.now.facts.matches fixture.id)) order.now))) }
{
    out.begin_array()?;
    for fixture in order {
        write_if_coming(out, seen, club, fixture)?;
    }
    out.end_array()
}

// Writes a match, if it is one of a club and has not started.
fn write_if_coming<L: Ledger>(
    out: &mut Writer,
    seen: &Seen<L>,
    club: ClubId,
    fixture: &Fixture,
) -> Result<(), AllocError>
    ensures { Appends result out.old out.new
        (if has_club club fixture.now && not (has_facts seen.now.facts.matches fixture.now.id)
        then tokens_of (coming_row club fixture.now)
        else []) }
{
    if (fixture.home == club || fixture.away == club) && !seen.has_facts(fixture.id) {
        write_one_coming(out, club, fixture)
    } else {
        Ok(())
    }
}

fn write_one_coming(out: &mut Writer, club: ClubId, fixture: &Fixture) -> Result<(), AllocError>
    ensures { Appends result out.old out.new (tokens_of (coming_row club fixture.now)) }
{
    out.begin_object()?;
    write_count_or_null(out, "event", number_of(fixture.gw))?;
    write_count(out, "id", u64::from(fixture.id.get()))?;
    write_truth(out, "is_home", fixture.home == club)?;
    write_moment(out, "kickoff_time", fixture.kickoff)?;
    write_count(out, "team_a", u64::from(fixture.away.get()))?;
    write_count(out, "team_h", u64::from(fixture.home.get()))?;
    out.end_object()
}

// Writes a player's lines.
fn write_history<L: Ledger>(
    out: &mut Writer,
    seen: &Seen<L>,
    cells: &SeenCells<L>,
    player: PlayerId,
    order: &[Fixture],
    steps: &mut ReadCount<L>,
) -> Result<(), AllocError>
    requires kept { IsKept seen.now cells.now }
    ensures value { Appends result out.old out.new
        (tokens_of (listed (history_row seen.now.facts player)
        (flat_map (beside_match seen.now.facts player) order.now))) }
    ensures cost { steps.new
        ≤ steps.old
        + sum_by (λ row. match_reads seen.now.facts row.0.id)
        (flat_map (beside_match seen.now.facts player) order.now) }
{
    out.begin_array()?;
    for fixture in order {
        write_if_played(out, seen, cells, player, fixture, steps)?;
    }
    out.end_array()
}

// Writes a player's line in a match, if he has one there.
fn write_if_played<L: Ledger>(
    out: &mut Writer,
    seen: &Seen<L>,
    cells: &SeenCells<L>,
    player: PlayerId,
    fixture: &Fixture,
    steps: &mut ReadCount<L>,
) -> Result<(), AllocError>
    requires kept { IsKept seen.now cells.now }
    ensures value { Appends result out.old out.new
        (row_tokens (history_row seen.now.facts player)
        (beside_match seen.now.facts player fixture.now)) }
    ensures cost { steps.new
        ≤ steps.old
        + sum_by (λ row. match_reads seen.now.facts row.0.id)
        (beside_match seen.now.facts player fixture.now) }
{
    match place_of(seen.players_of(fixture.id), player) {
        Some(place) => {
            let rows = read_match(seen, cells, fixture.id, steps);
            write_at(out, seen, fixture, &rows, place)
        }
        None => Ok(()),
    }
}

// Where a player stands among those who have a line, if he has one.
fn place_of(players: &[PlayerId], player: PlayerId) -> Option<usize>
    ensures found { (lines : List Line) → length lines ≡ length players.now
        → option_and_then (λ place. slice_get lines place) result
        ≡ at_id (zip players.now lines) player }
    ensures there { IfSome result (λ place. (place < length players.now)
        × ((p : ℕ) → get_or players.now place p ≡ player)) }
{
    for (place, other) in players.iter().enumerate() {
        if *other == player {
            return Some(place);
        }
    }
    None
}

// Writes the line of the player who stands at a place of a match.
fn write_at<L: Ledger>(
    out: &mut Writer,
    seen: &Seen<L>,
    fixture: &Fixture,
    rows: &Match<'_>,
    place: usize,
) -> Result<(), AllocError>
    requires rows { IsMatch seen.now.facts fixture.now.id rows.now.players.now rows.now.lines.now
        rows.now.bonuses.now }
    requires place { place < length rows.now.players.now }
    ensures { (row : ℕ × Line)
        → slice_get (lines_of seen.now.facts.matches fixture.now.id) place ≡ Some row
        → Appends result out.old out.new
        (tokens_of (history_row seen.now.facts row.0 (fixture.now, row.1))) }
{
    let player = rows.players[place];
    let bonus = bonus_among(rows.bonuses, player);
    write_line(out, seen, fixture, rows, player, &rows.lines[place], bonus)
}

// Writes a player's line in a match.
fn write_line<L: Ledger>(
    out: &mut Writer,
    seen: &Seen<L>,
    fixture: &Fixture,
    rows: &Match<'_>,
    player: PlayerId,
    line: &Line,
    bonus: u8,
) -> Result<(), AllocError>
    requires rows { IsMatch seen.now.facts fixture.now.id rows.now.players.now rows.now.lines.now
        rows.now.bonuses.now }
    requires line { IsLine line.now }
    requires bonus { bonus
        ≡ bonus_at seen.now.facts.players seen.now.facts.matches fixture.now.id (player, line.now) }
    ensures { Appends result out.old out.new
        (tokens_of (history_row seen.now.facts player (fixture.now, line.now))) }
{
    let score = score_of(seen, fixture, rows);
    out.begin_object()?;
    write_start(out, seen, fixture, player, line, bonus)?;
    write_amid(out, seen, fixture, player, line)?;
    write_end(out, seen, fixture, player, line, bonus, score)?;
    out.end_object()
}

// The members of a line up to its minutes.
fn write_start<L: Ledger>(
    out: &mut Writer,
    seen: &Seen<L>,
    fixture: &Fixture,
    player: PlayerId,
    line: &Line,
    bonus: u8,
) -> Result<(), AllocError>
    requires line { IsLine line.now }
    requires bonus { bonus
        ≡ bonus_at seen.now.facts.players seen.now.facts.matches fixture.now.id (player, line.now) }
    ensures { Appends result out.old out.new
        (all_member_tokens (line_begun seen.now.facts player fixture.now line.now)) }
{
    write_figure(out, "assists", line, 3)?;
    write_count(out, "bonus", u64::from(bonus))?;
    write_bps(out, seen, player, line)?;
    write_count(out, "clean_sheets", clean_sheets(line))?;
    write_count(out, "element", u64::from(player.get()))?;
    write_count(out, "fixture", u64::from(fixture.id.get()))?;
    write_figure(out, "goals_conceded", line, 4)?;
    write_figure(out, "goals_scored", line, 2)?;
    write_moment(out, "kickoff_time", fixture.kickoff)?;
    write_figure(out, "minutes", line, 1)
}

// Those from the opponent to the saves.
fn write_amid<L: Ledger>(
    out: &mut Writer,
    seen: &Seen<L>,
    fixture: &Fixture,
    player: PlayerId,
    line: &Line,
) -> Result<(), AllocError>
    ensures { Appends result out.old out.new
        (all_member_tokens (line_amid seen.now.facts player fixture.now line.now)) }
{
    let opponent = opponent_of(fixture, side_of(seen, fixture, player));
    write_count_or_null(out, "opponent_team", opponent)?;
    write_figure(out, "own_goals", line, 10)?;
    write_figure(out, "penalties_missed", line, 7)?;
    write_figure(out, "penalties_saved", line, 6)?;
    write_figure(out, "red_cards", line, 9)?;
    write_count_or_null(out, "round", number_of(fixture.gw))?;
    write_figure(out, "saves", line, 5)
}

// Those from the score on.
fn write_end<L: Ledger>(
    out: &mut Writer,
    seen: &Seen<L>,
    fixture: &Fixture,
    player: PlayerId,
    line: &Line,
    bonus: u8,
    score: Option<Score>,
) -> Result<(), AllocError>
    requires line { IsLine line.now }
    requires bonus { bonus
        ≡ bonus_at seen.now.facts.players seen.now.facts.matches fixture.now.id (player, line.now) }
    requires home { option_map (λ score. score.home) score
        ≡ home_score seen.now.facts fixture.now }
    requires away { option_map (λ score. score.away) score
        ≡ away_score seen.now.facts fixture.now }
    ensures { Appends result out.old out.new
        (all_member_tokens (line_ended seen.now.facts player fixture.now line.now)) }
{
    write_count_or_null(out, "team_a_score", away_in(score))?;
    write_count_or_null(out, "team_h_score", home_in(score))?;
    write_points(out, seen, player, line, bonus)?;
    write_home(out, side_of(seen, fixture, player))?;
    write_count(out, "yellow_cards", yellow_cards(line))
}

// A line's number in the bonus points system.
fn write_bps<L: Ledger>(
    out: &mut Writer,
    seen: &Seen<L>,
    player: PlayerId,
    line: &Line,
) -> Result<(), AllocError>
    requires { IsLine line.now }
    ensures { Appends result out.old out.new
        (member_tokens (codes "bps")
        (integer (bps_of (position_in seen.now.facts.players player) line.now))) }
{
    write_integer(out, "bps", bps(position_of(seen, player), line))
}

// A line's points, with this bonus.
fn write_points<L: Ledger>(
    out: &mut Writer,
    seen: &Seen<L>,
    player: PlayerId,
    line: &Line,
    bonus: u8,
) -> Result<(), AllocError>
    requires { IsLine line.now }
    ensures { Appends result out.old out.new
        (member_tokens (codes "total_points")
        (integer (points_of seen.now.facts.profile (position_in seen.now.facts.players player) line.now
        +ℤ pos bonus))) }
{
    let points = line_points(seen.profile(), position_of(seen, player), line);
    write_integer(out, "total_points", with_bonus(points, bonus))
}

// Points of a line and a bonus.
fn with_bonus(points: i32, bonus: u8) -> i32
    requires { points ≤ℤ pos 10000 }
    ensures { result ≡ points +ℤ pos bonus }
{
    points + i32::from(bonus)
}

// Whether somebody of this side was at home, if he was on one.
fn write_home(out: &mut Writer, side: Option<Side>) -> Result<(), AllocError>
    ensures { (facts : Facts) (fixture : Fixture) (player : ℕ)
        → side ≡ side_of facts fixture player
        → Appends result out.old out.new
        (member_tokens (codes "was_home") (was_home facts fixture player)) }
{
    match side {
        Some(Side::Home) => write_truth(out, "was_home", true),
        Some(Side::Away) => write_truth(out, "was_home", false),
        None => write_nothing(out, "was_home"),
    }
}

// The club against which somebody of this side plays, if he is on one.
fn opponent_of(fixture: &Fixture, side: Option<Side>) -> Option<u64>
    ensures { (facts : Facts) (player : ℕ) → side ≡ side_of facts fixture.now player
        → result ≡ opponent_in facts fixture.now player }
{
    match side {
        Some(Side::Home) => Some(u64::from(fixture.away.get())),
        Some(Side::Away) => Some(u64::from(fixture.home.get())),
        None => None,
    }
}

// Writes a figure of a line, by the number of its field from 1.
fn write_figure(out: &mut Writer, name: &str, line: &Line, field: usize) -> Result<(), AllocError>
    requires from_1 { 1 ≤ field }
    requires to_28 { field ≤ 28 }
    ensures { Appends result out.old out.new
        (member_tokens name.now (count (figure line.now field))) }
{
    write_count(out, name, u64::from(line.figures[field - 1]))
}

// 1 for a clean sheet.
fn clean_sheets(line: &Line) -> u64
    ensures { result ≡ clean_sheets_of line.now }
{
    if line.figures[0] >= 60 && line.figures[3] == 0 {
        1
    } else {
        0
    }
}

// The yellow cards of a line: beside a red one none counts.
fn yellow_cards(line: &Line) -> u64
    ensures { result ≡ yellow_cards_of line.now }
{
    if line.figures[8] == 1 {
        0
    } else {
        u64::from(line.figures[7])
    }
}
