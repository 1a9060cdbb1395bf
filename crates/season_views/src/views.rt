// What views show.
ghost use Rattle.std.specs.Prelude.{◌≡◌, ◌≤◌, ◌<◌, ◌+◌, ◌&&◌, Some, None, IfOk, IsSome, OnErr, length, nat_le, slice_get, if◌then◌else◌};
ghost use Rattle.rule_book.specs.Calendar.{is_locked};
ghost use Rattle.season_book.specs.Verdict.{shown_or_unknown};
ghost use Rattle.season_book.specs.Views.{shown_of, season_shown, fixture_shown};
ghost use Rattle.season_book.specs.declared.request.View.TheVariants as view;
ghost use Rattle.season_views.specs.Cells.{AreKeptOf};
ghost use Rattle.season_views.specs.Reads.{reads_allowed};

use crate::reading::gameweek_held;
use crate::seen::{Seen, SeenCells};
use crate::sheets::lines_shown;
use fpl_base::{Gw, Memory, Moment, ReadCount};
use rule_book::Player;
use season_book::{Moments, Shown, ShownFixture, ShownSeason, View};
use season_calendar::Calendar;
use std::alloc::Global;
use std::sync::ledger::Ledger;

/// What a view shows; `None` exactly where an id is not there, or the gameweek is not locked. Memory runs out only where
/// something is to be shown. Each cell that it reads is a counted read.
pub fn show<L: Ledger>(
    alloc: Global,
    seen: &Seen<L>,
    cells: &SeenCells<L>,
    view: View,
    steps: &mut ReadCount<L>,
) -> Result<Option<Shown>, Memory>
    requires { AreKeptOf seen.now.facts cells.now }
    ensures shown { IfOk result (λ shown. shown ≡ shown_of seen.now.facts view) }
    ensures out { OnErr result (IsSome (shown_of seen.now.facts view)) }
    ensures cost { steps.new
        ≤ steps.old + reads_allowed (shown_or_unknown (shown_of seen.now.facts view)) }
{
    match view {
        View::Season => Ok(Some(Shown::Season(season_shown(alloc, seen)?))),
        View::Player { player } => player_shown(seen, player),
        View::PlayerGameweek { player, gameweek } => {
            Ok(gameweek_shown(seen, cells, player, gameweek, steps))
        }
        View::Fixture { fixture } => fixture_shown(alloc, seen, cells, fixture, steps),
        View::Me
        | View::EntryGameweek { .. }
        | View::League { .. }
        | View::Cup { .. }
        | View::Window(_) => Ok(None),
    }
}

fn season_shown<L: Ledger>(alloc: Global, seen: &Seen<L>) -> Result<ShownSeason, Memory>
    ensures { IfOk result (λ shown. shown ≡ season_shown seen.now.facts) }
{
    Ok(ShownSeason {
        clubs: seen.clubs()?,
        deadlines: deadlines_of(alloc, seen.calendar())?,
        locked: seen.calendar().locked(),
        profile: seen.profile(),
        split: seen.calendar().split(),
    })
}

fn deadlines_of(alloc: Global, calendar: &Calendar) -> Result<Moments, Memory>
    ensures { IfOk result (λ deadlines. deadlines ≡ calendar.now.deadlines) }
{
    let mut deadlines = Moments::new(alloc);
    for place in 0..calendar.gameweeks() {
        deadlines.push(deadline_at(calendar, place))?;
    }
    Ok(deadlines)
}

/// The deadline at a place, from 0, of which there are at most 38.
pub fn deadline_at(calendar: &Calendar, place: u8) -> Moment
    requires there { place < length calendar.now.deadlines }
    requires at_most_38 { length calendar.now.deadlines ≤ 38 }
    ensures { slice_get calendar.now.deadlines place ≡ Some result }
{
    let gameweek = Gw::new(place + 1).unwrap();
    calendar.deadline(gameweek).unwrap()
}

fn player_shown<L: Ledger>(seen: &Seen<L>, player: u32) -> Result<Option<Shown>, Memory>
    ensures shown { IfOk result (λ shown. shown ≡ shown_of seen.now.facts (view.Player player)) }
    ensures out { OnErr result (IsSome (shown_of seen.now.facts (view.Player player))) }
{
    match seen.player(player) {
        Some(there) => Ok(Some(Shown::Player(copy_of_player(there)?))),
        None => Ok(None),
    }
}

fn copy_of_player(player: &Player) -> Result<Player, Memory>
    ensures { IfOk result (λ copy. copy ≡ player.now) }
{
    Ok(Player {
        id: player.id,
        name: player.name.copy()?,
        position: player.position,
        club: player.club,
        price: player.price,
        gone: player.gone,
    })
}

fn gameweek_shown<L: Ledger>(
    seen: &Seen<L>,
    cells: &SeenCells<L>,
    player: u32,
    gameweek: u32,
    steps: &mut ReadCount<L>,
) -> Option<Shown>
    requires { AreKeptOf seen.now.facts cells.now }
    ensures shown { result ≡ shown_of seen.now.facts (view.PlayerGameweek player gameweek) }
    ensures cost { steps.new ≤ steps.old + 1 }
{
    let there = seen.player(player)?;
    let id = there.id;
    let locked = locked_gameweek(seen, gameweek)?;
    let figures = gameweek_held(cells, id, locked, steps);
    Some(Shown::PlayerGameweek(figures))
}

/// The gameweek of this number, if it is locked.
pub fn locked_gameweek<L: Ledger>(seen: &Seen<L>, number: u32) -> Option<Gw>
    ensures { result
        ≡ (if nat_le 1 number && is_locked seen.now.facts.calendar number then Some number else None) }
{
    if number >= 1 && number <= u32::from(seen.calendar().locked()) {
        Gw::new(number as u8)
    } else {
        None
    }
}

fn fixture_shown<L: Ledger>(
    alloc: Global,
    seen: &Seen<L>,
    cells: &SeenCells<L>,
    fixture: u32,
    steps: &mut ReadCount<L>,
) -> Result<Option<Shown>, Memory>
    requires { AreKeptOf seen.now.facts cells.now }
    ensures shown { IfOk result (λ shown. shown ≡ shown_of seen.now.facts (view.Fixture fixture)) }
    ensures out { OnErr result (IsSome (shown_of seen.now.facts (view.Fixture fixture))) }
    ensures cost { steps.new
        ≤ steps.old
        + reads_allowed (shown_or_unknown (shown_of seen.now.facts (view.Fixture fixture))) }
{
    match seen.fixture(fixture) {
        Some(there) => Ok(Some(Shown::Fixture(ShownFixture {
            fixture: there,
            finished: seen.is_finished(there.id),
            lines: lines_shown(alloc, seen, cells, there.id, steps)?,
        }))),
        None => Ok(None),
    }
}
