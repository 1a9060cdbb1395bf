// What windows show, written as it is read.
ghost use Rattle.std.specs.Prelude.{◌≡◌, ◌≤◌, ◌+◌, ◌==◌, ℕ, List, [], Some, if◌then◌else◌, IfOk, IsSome, OnErr, length, option_copied};
ghost use Rattle.std.specs.List.{list_any, zip};
ghost use Rattle.std.specs.Option.{option_map};
ghost use Rattle.json.specs.Written.{Written};
ghost use Rattle.serde_json.specs.Data.{Data};
ghost use Rattle.serde_json.specs.Written.{compact_text};
ghost use Rattle.json_members.specs.Members.{count};
ghost use Rattle.json_members.specs.Tokens.{Appends, all_member_tokens, tokens_of};
ghost use Rattle.fpl_base.specs.declared.kinds.Caller.{Caller};
ghost use Rattle.rule_book.specs.declared.cup.Bracket.{Bracket};
ghost use Rattle.rule_book.specs.Entries.{entry_in};
ghost use Rattle.rule_book.specs.LeagueCalls.{is_member};
ghost use Rattle.rule_book.specs.Leagues.{LeagueFacts};
ghost use Rattle.rule_book.specs.MatchFacts.{lines_of};
ghost use Rattle.season_book.specs.Book.{EntryFacts, caller_number};
ghost use Rattle.season_book.specs.AllWindows.{window_data};
ghost use Rattle.season_book.specs.Windows.{cup_row, cups_window, entries_window, entry_data, figures_row, league_members, league_row, leagues_window, listed, me_data, me_window, my_league_row, my_leagues_window, own_number, scoring_of, sheet_data};
ghost use Rattle.season_views.specs.Reads.{window_reads};
ghost use Rattle.season_views.specs.Seen.{IsKept, OfEachSeen, ShowsEach, WritesEach, WritesShown};

use bootstrap_window::write_bootstrap;
use entry_windows::{write_entry, write_history, write_picks};
use fixture_windows::{write_element_summary, write_fixtures};
use fpl_base::{Caller, CupId, EntryId, Gw, LeagueId, Memory, Name, PlayerId, ReadCount};
use json::Writer;
use json_members::{
    code_text, text_of, write_count, write_count_or_null, write_text, write_text_or_null,
    write_truth,
};
use league_windows::{
    write_classic_standings, write_cup_window, write_head_matches, write_head_standings,
    write_transfers,
};
use leagues_and_cups::League;
use live_windows::{write_dream_team, write_live};
use rule_book::{Bracket, Fixture, LeagueKind, Line};
use season_book::{Page, Window};
use season_entries::entries_are_issued;
use season_views::{Seen, SeenCells};
use std::alloc::{AllocError, Global};
use std::sync::ledger::Ledger;

/// What a window shows a caller whose last accepted command has the number `last`; `None` exactly where an id is not
/// there. Memory runs out only where something is to be shown. Each line, row of an entry and cell that it reads is a counted
/// read.
pub fn window<L: Ledger>(
    alloc: Global,
    seen: &Seen<L>,
    cells: &SeenCells<L>,
    caller: &Caller,
    last: u64,
    window: Window,
    steps: &mut ReadCount<L>,
) -> Result<Option<Page>, Memory>
    requires { IsKept seen.now cells.now }
    ensures value { IfOk result
        (λ page. OfEachSeen seen.now
        (λ entries. page
        ≡ option_map compact_text
        (window_data seen.now.facts entries seen.now.leagues seen.now.cups caller.now last window))) }
    ensures out { OfEachSeen seen.now
        (λ entries. OnErr result
        (IsSome (window_data seen.now.facts entries seen.now.leagues seen.now.cups caller.now last window))) }
    ensures cost { OfEachSeen seen.now
        (λ entries. steps.new
        ≤ steps.old + window_reads seen.now.facts entries seen.now.leagues seen.now.cups window) }
{
    let mut out = Writer::new(Vec::new(alloc));
    if write_window(&mut out, alloc, seen, cells, caller, last, window, steps)? {
        Ok(Some(Page::of(out.into_inner())))
    } else {
        Ok(None)
    }
}

/// The same before there is a season, of the one window that wants none: who the caller is.
pub fn window_before(alloc: Global, caller: &Caller, last: u64) -> Result<Page, Memory>
    ensures { IfOk result (λ page. page ≡ compact_text (me_window [] caller.now last)) }
{
    let mut out = Writer::new(Vec::with_capacity(alloc, 128)?);
    write_me(&mut out, caller, last, None, None)?;
    Ok(Page::of(out.into_inner()))
}

// Writes what a window shows, if its ids are there.
fn write_window<L: Ledger>(
    out: &mut Writer,
    alloc: Global,
    seen: &Seen<L>,
    cells: &SeenCells<L>,
    caller: &Caller,
    last: u64,
    window: Window,
    steps: &mut ReadCount<L>,
) -> Result<bool, Memory>
    requires { IsKept seen.now cells.now }
    ensures value { ShowsEach seen.now
        (λ entries. window_data seen.now.facts entries seen.now.leagues seen.now.cups caller.now last window)
        result out.old out.new }
    ensures cost { OfEachSeen seen.now
        (λ entries. steps.new
        ≤ steps.old + window_reads seen.now.facts entries seen.now.leagues seen.now.cups window) }
{
    match window {
        Window::Me => shown(write_caller(out, seen, caller, last)),
        Window::Entries => shown(write_entries(out, seen)),
        Window::Leagues => shown(write_leagues(out, seen)),
        Window::MyLeagues => shown(write_my_leagues(out, seen, caller)),
        Window::Cups => shown(write_cups(out, seen)),
        Window::Sheet { fixture } => match seen.fixture(fixture) {
            Some(there) => shown(write_sheet(out, seen, there, steps)),
            None => Ok(false),
        },
        Window::Bootstrap => write_bootstrap(out, alloc, seen, cells, steps),
        Window::Fixtures => write_fixtures(out, alloc, seen, cells, steps),
        Window::Live { gameweek } => write_live(out, alloc, seen, cells, gameweek, steps),
        Window::Element { player } => write_element_summary(out, alloc, seen, cells, player, steps),
        Window::DreamTeam { gameweek } => write_dream_team(
            out, alloc, seen, cells, gameweek, steps,
        ),
        Window::Entry { entry } => write_entry(out, alloc, seen, cells, entry, steps),
        Window::History { entry } => write_history(out, seen, cells, entry, steps),
        Window::Picks { entry, gameweek } => write_picks(out, seen, cells, entry, gameweek, steps),
        Window::Transfers { entry } => write_transfers(out, seen, entry, steps),
        Window::ClassicStandings { league } => write_classic_standings(
            out, alloc, seen, cells, league, steps,
        ),
        Window::HeadStandings { league } => write_head_standings(
            out, alloc, seen, cells, league, steps,
        ),
        Window::HeadMatches { league } => write_head_matches(out, seen, cells, league, steps),
        Window::Cup { cup } => write_cup_window(out, alloc, seen, cells, cup, steps),
    }
}

// What is always there is shown, unless memory is wanting.
fn shown(wrote: Result<(), AllocError>) -> Result<bool, Memory>
    ensures { (old new : Written) (due : Data) → Appends wrote old new (tokens_of due)
        → WritesShown (Some due) result old new }
{
    wrote?;
    Ok(true)
}

// The caller.

fn write_caller<L: Ledger>(
    out: &mut Writer,
    seen: &Seen<L>,
    caller: &Caller,
    last: u64,
) -> Result<(), AllocError>
    ensures { WritesEach seen.now (λ entries. me_window entries caller.now last) result out.old
        out.new }
{
    // The law on which entries are there, for the prover.
    entries_are_issued();
    match caller {
        Caller::Operator => write_me(out, caller, last, None, None),
        Caller::Entry(entry) => {
            if entry.get() > seen.entries() {
                return write_me(out, caller, last, None, None);
            }
            let own = seen.entry(*entry);
            write_me(out, caller, last, Some(own.name), own.first)
        }
    }
}

// Who a caller is whose entry has this name and this first gameweek.
fn write_me(
    out: &mut Writer,
    caller: &Caller,
    last: u64,
    name: Option<&Name>,
    first: Option<Gw>,
) -> Result<(), AllocError>
    ensures { Appends result out.old out.new
        (tokens_of (me_data (own_number caller.now) last (option_copied name.entry) first)) }
{
    out.begin_object()?;
    write_count_or_null(out, "entry", own_number(caller))?;
    write_count(out, "last", last)?;
    write_text_or_null(out, "name", name)?;
    write_count_or_null(out, "started_event", number_of(first))?;
    out.end_object()
}

// The number of a caller's entry; the operator has none.
fn own_number(caller: &Caller) -> Option<u64>
    ensures { result ≡ own_number caller.now }
{
    match caller {
        Caller::Operator => None,
        Caller::Entry(entry) => Some(u64::from(entry.get())),
    }
}

fn number_of(gameweek: Option<Gw>) -> Option<u64>
    ensures { result ≡ gameweek }
{
    match gameweek {
        Some(gameweek) => Some(u64::from(gameweek.get())),
        None => None,
    }
}

// Entries.

fn write_entries<L: Ledger>(out: &mut Writer, seen: &Seen<L>) -> Result<(), AllocError>
    ensures { WritesEach seen.now entries_window result out.old out.new }
{
    // The law on which entries are there, for the prover.
    entries_are_issued();
    out.begin_array()?;
    for place in 0..seen.entries() {
        let id = EntryId::new(place + 1).unwrap();
        let there = seen.entry(id);
        write_listed_entry(out, id, there.name, there.first)?;
    }
    out.end_array()
}

fn write_listed_entry(
    out: &mut Writer,
    entry: EntryId,
    name: &Name,
    first: Option<Gw>,
) -> Result<(), AllocError>
    ensures { Appends result out.old out.new (tokens_of (entry_data entry name.now first)) }
{
    out.begin_object()?;
    write_count(out, "entry", u64::from(entry.get()))?;
    write_text(out, "name", text_of(name))?;
    write_count_or_null(out, "started_event", number_of(first))?;
    out.end_object()
}

// Leagues.

fn write_leagues<L: Ledger>(out: &mut Writer, seen: &Seen<L>) -> Result<(), AllocError>
    ensures { Appends result out.old out.new (tokens_of (leagues_window seen.now.leagues)) }
{
    out.begin_array()?;
    for place in 0..seen.leagues().count() {
        write_league_at(out, seen, LeagueId::new(place + 1).unwrap())?;
    }
    out.end_array()
}

// Writes the league of a number.
fn write_league_at<L: Ledger>(
    out: &mut Writer,
    seen: &Seen<L>,
    id: LeagueId,
) -> Result<(), AllocError>
    ensures { (league : LeagueFacts) → entry_in seen.now.leagues id ≡ Some league
        → Appends result out.old out.new (tokens_of (league_row (id, league))) }
{
    match seen.leagues().get(id) {
        Some(league) => write_league(out, id, league),
        None => Ok(()),
    }
}

fn write_my_leagues<L: Ledger>(
    out: &mut Writer,
    seen: &Seen<L>,
    caller: &Caller,
) -> Result<(), AllocError>
    ensures { Appends result out.old out.new
        (tokens_of (my_leagues_window seen.now.leagues (caller_number caller.now))) }
{
    out.begin_array()?;
    for place in 0..seen.leagues().count() {
        write_if_own(out, seen, caller, LeagueId::new(place + 1).unwrap())?;
    }
    out.end_array()
}

// Writes the league of a number, where the caller's entry is in it.
fn write_if_own<L: Ledger>(
    out: &mut Writer,
    seen: &Seen<L>,
    caller: &Caller,
    id: LeagueId,
) -> Result<(), AllocError>
    ensures { (league : LeagueFacts) → entry_in seen.now.leagues id ≡ Some league
        → Appends result out.old out.new
        (if is_member league (caller_number caller.now) then tokens_of (my_league_row (id, league))
        else []) }
{
    match seen.leagues().get(id) {
        Some(league) => {
            if is_own(league, caller) {
                write_my_league(out, id, league)
            } else {
                Ok(())
            }
        }
        None => Ok(()),
    }
}

// Whether a caller's entry is in a league; the operator is in none, whose number is no entry's.
fn is_own(league: &League, caller: &Caller) -> bool
    ensures { result ≡ is_member league.now (caller_number caller.now) }
{
    match caller {
        Caller::Operator => has_number(league.members(), 0),
        Caller::Entry(entry) => league.is_member(*entry),
    }
}

// Whether one of the members has this number.
fn has_number(members: &[EntryId], number: u32) -> bool
    ensures { result ≡ list_any (λ member. member == number) members.now }
{
    members.iter().any(|member| member.get() == number)
}

fn write_league(out: &mut Writer, id: LeagueId, league: &League) -> Result<(), AllocError>
    ensures { Appends result out.old out.new (tokens_of (league_row (id, league.now))) }
{
    out.begin_object()?;
    write_league_members(out, id, league)?;
    out.end_object()
}

fn write_my_league(out: &mut Writer, id: LeagueId, league: &League) -> Result<(), AllocError>
    ensures { Appends result out.old out.new (tokens_of (my_league_row (id, league.now))) }
{
    out.begin_object()?;
    write_text(out, "code", code_text(league.code()))?;
    write_league_members(out, id, league)?;
    out.end_object()
}

// The members of a league that everybody sees.
fn write_league_members(out: &mut Writer, id: LeagueId, league: &League) -> Result<(), AllocError>
    ensures { Appends result out.old out.new (all_member_tokens (league_members (id, league.now))) }
{
    write_truth(out, "drawn", league.is_drawn())?;
    write_count(out, "id", u64::from(id.get()))?;
    write_count(out, "members", league.members().len() as u64)?;
    write_text(out, "name", text_of(league.name()))?;
    write_text(out, "scoring", scoring_of(league.kind()))?;
    write_count(out, "start_event", u64::from(league.start().get()))
}

fn scoring_of(kind: LeagueKind) -> &'static str
    ensures { result.now ≡ scoring_of kind }
{
    match kind {
        LeagueKind::Classic => "c",
        LeagueKind::Head => "h",
    }
}

// Cups.

fn write_cups<L: Ledger>(out: &mut Writer, seen: &Seen<L>) -> Result<(), AllocError>
    ensures { Appends result out.old out.new (tokens_of (cups_window seen.now.cups)) }
{
    out.begin_array()?;
    for place in 0..seen.cups().count() {
        write_cup_at(out, seen, CupId::new(place + 1).unwrap())?;
    }
    out.end_array()
}

// Writes the cup of a number.
fn write_cup_at<L: Ledger>(out: &mut Writer, seen: &Seen<L>, id: CupId) -> Result<(), AllocError>
    ensures { (cup : Bracket) → entry_in seen.now.cups id ≡ Some cup
        → Appends result out.old out.new (tokens_of (cup_row (id, cup))) }
{
    match seen.cups().get(id) {
        Some(cup) => write_cup(out, id, cup),
        None => Ok(()),
    }
}

fn write_cup(out: &mut Writer, id: CupId, cup: &Bracket) -> Result<(), AllocError>
    ensures { Appends result out.old out.new (tokens_of (cup_row (id, cup.now))) }
{
    out.begin_object()?;
    write_count(out, "id", u64::from(id.get()))?;
    write_count(out, "slots", cup.slots.as_slice().len() as u64)?;
    write_count(out, "start_event", u64::from(cup.start.get()))?;
    out.end_object()
}

// Sheets.

fn write_sheet<L: Ledger>(
    out: &mut Writer,
    seen: &Seen<L>,
    fixture: Fixture,
    steps: &mut ReadCount<L>,
) -> Result<(), AllocError>
    ensures value { Appends result out.old out.new (tokens_of (sheet_data seen.now.facts fixture)) }
    ensures cost { steps.new
        ≤ steps.old + length (lines_of seen.now.facts.matches fixture.id) }
{
    let (players, lines) = seen.rows(fixture.id, steps);
    out.begin_object()?;
    write_truth(out, "finished", seen.is_finished(fixture.id))?;
    out.key("lines")?;
    write_lines(out, players, lines)?;
    out.end_object()
}

fn write_lines(out: &mut Writer, players: &[PlayerId], lines: &[Line]) -> Result<(), AllocError>
    requires { length lines.now ≡ length players.now }
    ensures { Appends result out.old out.new
        (tokens_of (listed figures_row (zip players.now lines.now))) }
{
    out.begin_array()?;
    for (place, player) in players.iter().enumerate() {
        write_line(out, *player, &lines[place])?;
    }
    out.end_array()
}

fn write_line(out: &mut Writer, player: PlayerId, line: &Line) -> Result<(), AllocError>
    ensures { Appends result out.old out.new (tokens_of (figures_row (player, line.now))) }
{
    out.begin_object()?;
    out.key("figures")?;
    write_figures(out, &line.figures)?;
    write_count(out, "player", u64::from(player.get()))?;
    out.end_object()
}

fn write_figures(out: &mut Writer, figures: &[u16]) -> Result<(), AllocError>
    ensures { Appends result out.old out.new (tokens_of (listed count figures.now)) }
{
    out.begin_array()?;
    for figure in figures {
        out.u64(u64::from(*figure))?;
    }
    out.end_array()
}
