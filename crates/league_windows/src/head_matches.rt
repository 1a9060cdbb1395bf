// The matches of a head-to-head league, written as they are read.
ghost use Rattle.std.specs.Prelude.{◌≡◌, ◌≤◌, ◌<◌, ◌+◌, ◌-◌, IsTrue, [], Some, codes, count_by, if◌then◌else◌, length, nat_lt};
ghost use Rattle.std.specs.Option.{option_map_or};
ghost use Rattle.json_members.specs.Tokens.{Appends, tokens_of};
ghost use Rattle.rule_book.specs.Calendar.{is_locked};
ghost use Rattle.rule_book.specs.Entries.{entry_in};
ghost use Rattle.rule_book.specs.Opponents.{opponent_of};
ghost use Rattle.season_book.specs.LeagueViews.{name_of};
ghost use Rattle.season_book.specs.Windows.{listed};
ghost use Rattle.season_nodes.specs.Held.{held_values};
ghost use Rattle.season_nodes.specs.Season.{scores_held};
ghost use Rattle.season_views.specs.Seen.{IsKept, OfEachSeen, ShowsEach, WritesEach};
ghost use Rattle.season_book.specs.HeadMatches.{head_matches_window, match_row, matches_data, matches_in, matches_to, opponent_place, scores_shown, standing_at, stands_first};
ghost use Rattle.season_views.specs.HeadMatchesReads.{head_matches_reads};
ghost use Rattle.league_windows.specs.RowTokens.{row_tokens};

use crate::shown::is_shown;
use crate::sides::{seen_by_other, write_first, write_place, write_second};
use fpl_base::{EntryId, Gw, LeagueId, Memory, ReadCount};
use json::Writer;
use json_members::{text_of, write_count, write_truth};
use leagues_and_cups::{League, opponent, opponent_is_the_one};
use rule_book::{LeagueKind, Opponent};
use season_entries::entries_are_issued;
use season_graph::{Node, Value};
use season_ledger::rows_tell;
use season_views::{Seen, SeenCells, locked_gameweek};
use std::alloc::AllocError;
use std::sync::ledger::Ledger;

/// Writes the matches of the head-to-head league of a number, from its start to the last gameweek; `false` where there is no
/// such league. Each match of a locked gameweek is a counted read.
pub fn write_head_matches<L: Ledger>(
    out: &mut Writer,
    seen: &Seen<L>,
    cells: &SeenCells<L>,
    number: u32,
    steps: &mut ReadCount<L>,
) -> Result<bool, Memory>
    requires kept { IsKept seen.now cells.now }
    ensures value { ShowsEach seen.now
        (λ entries. head_matches_window seen.now.facts entries seen.now.leagues number) result out.old
        out.new }
    ensures cost { steps.new ≤ steps.old + head_matches_reads seen.now.facts seen.now.leagues number }
{
    match LeagueId::new(number) {
        Some(id) => write_if_there(out, seen, cells, id, steps),
        None => Ok(false),
    }
}

// The same of a number that a league can have.
fn write_if_there<L: Ledger>(
    out: &mut Writer,
    seen: &Seen<L>,
    cells: &SeenCells<L>,
    id: LeagueId,
    steps: &mut ReadCount<L>,
) -> Result<bool, Memory>
    requires kept { IsKept seen.now cells.now }
    ensures value { ShowsEach seen.now
        (λ entries. head_matches_window seen.now.facts entries seen.now.leagues id) result out.old out.new }
    ensures cost { steps.new ≤ steps.old + head_matches_reads seen.now.facts seen.now.leagues id }
{
    match seen.leagues().get(id) {
        Some(league) => match league.kind() {
            LeagueKind::Head => is_shown(write_page(out, seen, cells, id, league, steps)),
            LeagueKind::Classic => Ok(false),
        },
        None => Ok(false),
    }
}

// Writes all matches of a league as one page.
fn write_page<L: Ledger>(
    out: &mut Writer,
    seen: &Seen<L>,
    cells: &SeenCells<L>,
    id: LeagueId,
    league: &League,
    steps: &mut ReadCount<L>,
) -> Result<(), AllocError>
    requires kept { IsKept seen.now cells.now }
    requires there { entry_in seen.now.leagues id ≡ Some league.now }
    ensures value { WritesEach seen.now (λ entries. matches_data seen.now.facts entries id league.now)
        result out.old out.new }
    ensures cost { steps.new
        ≤ steps.old
        + count_by (λ row. is_locked seen.now.facts.calendar row.0)
        (matches_to league.now (length seen.now.facts.calendar.deadlines)) }
{
    out.begin_object()?;
    write_truth(out, "has_next", false)?;
    write_count(out, "page", 1)?;
    out.key("results")?;
    write_matches(out, seen, cells, id, league, steps)?;
    out.end_object()
}

fn write_matches<L: Ledger>(
    out: &mut Writer,
    seen: &Seen<L>,
    cells: &SeenCells<L>,
    id: LeagueId,
    league: &League,
    steps: &mut ReadCount<L>,
) -> Result<(), AllocError>
    requires kept { IsKept seen.now cells.now }
    requires there { entry_in seen.now.leagues id ≡ Some league.now }
    ensures value { WritesEach seen.now
        (λ entries. listed (match_row seen.now.facts entries id league.now)
        (matches_to league.now (length seen.now.facts.calendar.deadlines))) result out.old out.new }
    ensures cost { steps.new
        ≤ steps.old
        + count_by (λ row. is_locked seen.now.facts.calendar row.0)
        (matches_to league.now (length seen.now.facts.calendar.deadlines)) }
{
    let start = league.start().get();
    let gameweeks = seen.calendar().gameweeks();
    let count = (gameweeks + 1).saturating_sub(start);
    out.begin_array()?;
    for round in 0..count {
        write_gameweek(out, seen, cells, id, league, start + round, steps)?;
    }
    out.end_array()
}

// Writes the matches of a gameweek, by the lower place.
fn write_gameweek<L: Ledger>(
    out: &mut Writer,
    seen: &Seen<L>,
    cells: &SeenCells<L>,
    id: LeagueId,
    league: &League,
    gameweek: u8,
    steps: &mut ReadCount<L>,
) -> Result<(), AllocError>
    requires kept { IsKept seen.now cells.now }
    requires there { entry_in seen.now.leagues id ≡ Some league.now }
    requires since { league.now.start ≤ gameweek }
    ensures value { OfEachSeen seen.now
        (λ entries. Appends result out.old out.new
        (row_tokens (match_row seen.now.facts entries id league.now) (matches_in league.now gameweek))) }
    ensures cost { steps.new
        ≤ steps.old
        + count_by (λ row. is_locked seen.now.facts.calendar row.0) (matches_in league.now gameweek) }
{
    let order = league.order();
    let count = order.len() as u8;
    for place in 0..count {
        write_if_first(out, seen, cells, id, league, (gameweek, place), steps)?;
    }
    Ok(())
}

// Writes the match of a place in a gameweek, where it is the lower one of the two.
fn write_if_first<L: Ledger>(
    out: &mut Writer,
    seen: &Seen<L>,
    cells: &SeenCells<L>,
    id: LeagueId,
    league: &League,
    at: (u8, u8),
    steps: &mut ReadCount<L>,
) -> Result<(), AllocError>
    requires kept { IsKept seen.now cells.now }
    requires there { entry_in seen.now.leagues id ≡ Some league.now }
    requires since { league.now.start ≤ at.0 }
    requires within { at.1 < length league.now.order }
    ensures value { OfEachSeen seen.now
        (λ entries. Appends result out.old out.new
        (if stands_first (length league.now.order) (at.0 - league.now.start) at.1
        then tokens_of (match_row seen.now.facts entries id league.now at) else [])) }
    ensures cost { steps.new
        ≤ steps.old
        + (if stands_first (length league.now.order) (at.0 - league.now.start) at.1
        then (if is_locked seen.now.facts.calendar at.0 then 1 else 0) else 0) }
{
    let start = league.start().get();
    let met = place_met(league, at.0 - start, at.1);
    if is_first(at.1, met) {
        let played = scores_of(seen, cells, id, league, at, steps);
        write_match(out, seen, id, league, at, met, played)
    } else {
        Ok(())
    }
}

// The place that a place meets in a round; that of the Average is the one behind the members.
fn place_met(league: &League, round: u8, place: u8) -> usize
    requires { place < length league.now.order }
    ensures { result
        ≡ opponent_place (length league.now.order)
        (opponent_of (length league.now.order) round place) }
{
    // The law by which there is one opponent, for the prover.
    opponent_is_the_one();
    let order = league.order();
    match opponent(order.len(), u32::from(round), usize::from(place)) {
        Opponent::Place(other) => other,
        Opponent::Average => order.len(),
    }
}

// Whether a place is the lower one of the two.
fn is_first(place: u8, met: usize) -> bool
    ensures { result ≡ nat_lt place met }
{
    usize::from(place) < met
}

// What decides the match of a gameweek and its lower place; `None` while the gameweek is open.
fn scores_of<L: Ledger>(
    seen: &Seen<L>,
    cells: &SeenCells<L>,
    id: LeagueId,
    league: &League,
    at: (u8, u8),
    steps: &mut ReadCount<L>,
) -> Option<(i32, i32)>
    requires kept { IsKept seen.now cells.now }
    requires there { entry_in seen.now.leagues id ≡ Some league.now }
    requires since { league.now.start ≤ at.0 }
    requires within { at.1 < length league.now.order }
    requires first { IsTrue (stands_first (length league.now.order) (at.0 - league.now.start) at.1) }
    ensures value { OfEachSeen seen.now
        (λ entries. result ≡ scores_shown seen.now.facts entries league.now at.0 at.1) }
    ensures cost { steps.new ≤ steps.old + (if is_locked seen.now.facts.calendar at.0 then 1 else 0) }
{
    // The law that rows tell what their histories do, that the ids of players rise, and that leagues start in a gameweek,
    // for the prover.
    rows_tell();
    let _count = seen.players().len();
    let _start = league.start().get();
    let locked = locked_gameweek(seen, u32::from(at.0))?;
    Some(scores_held(cells, id, locked, at.1, steps))
}

// What the two of a match scored, as its cell holds it.
fn scores_held<L: Ledger>(
    cells: &SeenCells<L>,
    league: LeagueId,
    gameweek: Gw,
    place: u8,
    steps: &mut ReadCount<L>,
) -> (i32, i32)
    ensures value { result ≡ scores_held (held_values cells.now (Node.Match league gameweek place)) }
    ensures cost { steps.new ≡ steps.old + 1 }
{
    match cells.get(Node::Match(league, gameweek, place), steps) {
        Some(Value::Match(scores)) => scores.get(),
        _ => (0, 0),
    }
}

// Writes the match of a gameweek and its lower place, which meets another place, and was decided by these points.
fn write_match<L: Ledger>(
    out: &mut Writer,
    seen: &Seen<L>,
    id: LeagueId,
    league: &League,
    at: (u8, u8),
    met: usize,
    played: Option<(i32, i32)>,
) -> Result<(), AllocError>
    requires { met
        ≡ opponent_place (length league.now.order)
        (opponent_of (length league.now.order) (at.0 - league.now.start) at.1) }
    ensures { OfEachSeen seen.now
        (λ entries. played ≡ scores_shown seen.now.facts entries league.now at.0 at.1
        → Appends result out.old out.new
        (tokens_of (match_row seen.now.facts entries id league.now at))) }
{
    let one = standing_at(league, usize::from(at.1));
    let other = standing_at(league, met);
    out.begin_object()?;
    write_first(out, &one, name_shown(seen, &one), played)?;
    write_second(out, &other, name_shown(seen, &other), seen_by_other(played))?;
    write_place(out, id, at.0, at.1)?;
    out.end_object()
}

// The entry at a place of the order of a league; `None` at the place of the Average.
fn standing_at(league: &League, place: usize) -> Option<EntryId>
    ensures { result ≡ standing_at league.now place }
{
    league.order().get(place).copied()
}

// The name of an entry, or of the Average.
fn name_shown<'a, L: Ledger>(seen: &'a Seen<L>, entry: &Option<EntryId>) -> &'a str
    ensures { OfEachSeen seen.now
        (λ entries. result.now ≡ option_map_or (name_of entries) entry.now (codes "AVERAGE")) }
{
    match entry {
        Some(entry) => name_of(seen, *entry),
        None => "AVERAGE",
    }
}

fn name_of<'a, L: Ledger>(seen: &'a Seen<L>, entry: EntryId) -> &'a str
    ensures { OfEachSeen seen.now (λ entries. result.now ≡ name_of entries entry) }
{
    // The law on which entries are there, for the prover.
    entries_are_issued();
    match seen.name(entry) {
        Some(name) => text_of(name),
        None => "",
    }
}
