// The routes of targets.
ghost use Rattle.std.specs.Prelude.{◌≡◌, ◌≢◌, ◌≤◌, ◌<◌, ◌+◌, ◌^◌, ℕ, List, [], IfOk, IfNone, IfSome, MatchOption, None, ◌||◌, OnOk, map, drop, length, slice_index};
ghost use Rattle.std.specs.Str.{IsUtf8};
ghost use Rattle.fpl_requests.specs.declared.route.Found.TheVariants as found;
ghost use Rattle.fpl_requests.specs.Tables.{IsAt, IsNowhere, IsOne, all_added, row_of, table, told, with_row};
ghost use Rattle.fpl_requests.specs.Targets.{AreIds, IsFound, IsFoundAt, IsId, IsShaped, after_segment, bare, ids_from, ids_in, is_method, method_of, own_segment, place_of, rows_at, segment_at, with_id};

use crate::Asks::{Command, View};
use crate::Callers::{Both, Entry, Operator};
use crate::CommandRoute::{
    AmendFixture, AmendPlayer, CancelChip, Chip, Clubs, Cups, Deadlines, Draw, Drop, Finished,
    Fixtures, Gone, Join, Keys, Leagues, Line, Lineup, Move, Players, Prices, Rekey, Season, Sheet,
    Squad, Transfers,
};
use crate::ViewRoute::{
    ShowCup, ShowEntryGameweek, ShowFixture, ShowLeague, ShowMe, ShowPlayer, ShowPlayerGameweek,
    ShowSeason, WindowBootstrap, WindowClassicStandings, WindowCup, WindowCups, WindowDreamTeam,
    WindowElement, WindowEntries, WindowEntry, WindowFixtures, WindowHeadMatches,
    WindowHeadStandings, WindowHistory, WindowLeagues, WindowLive, WindowMe, WindowMyLeagues,
    WindowPicks, WindowSheet, WindowTransfers,
};
use crate::route::Method::{self, Get, Post};
use crate::{Asks, Callers, Found, Route};
use fpl_base::{Memory, read_number};
use matchit::{InsertError, Router};
use std::alloc::Global;
use std::marker::Model;
use std::str;

/// Which segments of the targets of a pattern are ids, counted from 0.
#[derive(Clone, Copy, Debug, PartialEq, Eq)]
enum Ids {
    None,
    One(usize),
    Two(usize, usize),
}

/// What is served at the targets of a row.
#[derive(Clone, Copy, Debug, PartialEq, Eq)]
struct Place {
    ids: Ids,
    route: Route,
}

// Each route: its method, the pattern of its targets with a name in braces for each id, who may ask it, what it asks.
static SERVED: [(Method, &str, Callers, Asks); 52] = [
    (Post, "/season", Operator, Command(Season)),
    (Post, "/deadlines", Operator, Command(Deadlines)),
    (Post, "/players", Operator, Command(Players)),
    (Post, "/players/{p}", Operator, Command(AmendPlayer)),
    (Post, "/prices", Operator, Command(Prices)),
    (Post, "/clubs", Operator, Command(Clubs)),
    (Post, "/gone", Operator, Command(Gone)),
    (Post, "/fixtures", Operator, Command(Fixtures)),
    (Post, "/fixtures/{f}", Operator, Command(AmendFixture)),
    (Post, "/fixtures/{f}/move", Operator, Command(Move)),
    (Post, "/fixtures/{f}/sheet", Operator, Command(Sheet)),
    (Post, "/fixtures/{f}/line", Operator, Command(Line)),
    (Post, "/fixtures/{f}/drop", Operator, Command(Drop)),
    (Post, "/fixtures/{f}/finished", Operator, Command(Finished)),
    (Post, "/keys", Operator, Command(Keys)),
    (Post, "/keys/{e}", Operator, Command(Rekey)),
    (Post, "/squad", Entry, Command(Squad)),
    (Post, "/transfers", Entry, Command(Transfers)),
    (Post, "/lineup", Entry, Command(Lineup)),
    (Post, "/chip", Entry, Command(Chip)),
    (Post, "/chip/cancel", Entry, Command(CancelChip)),
    (Post, "/leagues", Entry, Command(Leagues)),
    (Post, "/leagues/{l}/join", Entry, Command(Join)),
    (Post, "/leagues/{l}/draw", Operator, Command(Draw)),
    (Post, "/cups", Operator, Command(Cups)),
    (Get, "/season", Both, View(ShowSeason)),
    (Get, "/me", Entry, View(ShowMe)),
    (Get, "/players/{p}", Both, View(ShowPlayer)),
    (
        Get,
        "/players/{p}/gameweeks/{g}",
        Both,
        View(ShowPlayerGameweek),
    ),
    (Get, "/fixtures/{f}", Both, View(ShowFixture)),
    (
        Get,
        "/entries/{e}/gameweeks/{g}",
        Both,
        View(ShowEntryGameweek),
    ),
    (Get, "/leagues/{l}", Both, View(ShowLeague)),
    (Get, "/cups/{c}", Both, View(ShowCup)),
    (Get, "/api/me", Both, View(WindowMe)),
    (Get, "/api/entries", Both, View(WindowEntries)),
    (Get, "/api/leagues", Both, View(WindowLeagues)),
    (Get, "/api/my-leagues", Entry, View(WindowMyLeagues)),
    (Get, "/api/cups", Both, View(WindowCups)),
    (Get, "/api/fixtures/{f}/sheet", Both, View(WindowSheet)),
    (Get, "/api/entry/{e}", Both, View(WindowEntry)),
    (Get, "/api/event/{g}/live", Both, View(WindowLive)),
    (Get, "/api/entry/{e}/history", Both, View(WindowHistory)),
    (Get, "/api/bootstrap-static", Both, View(WindowBootstrap)),
    (Get, "/api/fixtures", Both, View(WindowFixtures)),
    (Get, "/api/element-summary/{p}", Both, View(WindowElement)),
    (Get, "/api/dream-team/{g}", Both, View(WindowDreamTeam)),
    (
        Get,
        "/api/entry/{e}/event/{g}/picks",
        Both,
        View(WindowPicks),
    ),
    (Get, "/api/entry/{e}/transfers", Both, View(WindowTransfers)),
    (
        Get,
        "/api/leagues-classic/{l}/standings",
        Both,
        View(WindowClassicStandings),
    ),
    (
        Get,
        "/api/leagues-h2h/{l}/standings",
        Both,
        View(WindowHeadStandings),
    ),
    (
        Get,
        "/api/leagues-h2h-matches/league/{l}",
        Both,
        View(WindowHeadMatches),
    ),
    (Get, "/api/cups/{c}", Both, View(WindowCup)),
];

/// The table of all routes, ready for look-ups.
#[derive(Drop)]
pub struct Routes {
    posted: Router<Place>,
    got: Router<Place>,
}

impl Model for Routes {
    ghost use Rattle.std.specs.Prelude.{◌≡◌, ⊤};
    ghost use Rattle.fpl_requests.specs.declared.route.Method.TheVariants as method;
    ghost use Rattle.fpl_requests.specs.Tables.{table};

    ghost Value = { ⊤ };

    ghost view = { λ _. tt };

    ghost invariant = { λ r. (r.posted ≡ table method.Post) × (r.got ≡ table method.Get) };
}

impl Routes {
    /// The table. It is built once for all look-ups, none of which takes memory.
    pub fn new(alloc: Global) -> Result<Self, Memory> {
        let Ok(posted) = router_of(alloc, Method::Post, &SERVED) else {
            return Err(Memory);
        };
        let Ok(got) = router_of(alloc, Method::Get, &SERVED) else {
            return Err(Memory);
        };
        Ok(Routes { posted, got })
    }

    /// What a method and a target ask for. A target below `/api/` may end with a slash.
    pub fn find(&self, method: &[u8], target: &[u8]) -> Found
        ensures { IsFound method.now target.now result }
    {
        self.find_bare(method, bare(target))
    }

    // What a method and a target without such a slash ask for.
    fn find_bare(&self, method: &[u8], target: &[u8]) -> Found
        ensures { IsFoundAt method.now target.now result }
    {
        match method_of(method) {
            Some(Method::Post) => match found_at(&self.posted, Method::Post, target) {
                Some(at) => served(at),
                None => told(false, found_at(&self.got, Method::Get, target).is_some()),
            },
            Some(Method::Get) => match found_at(&self.got, Method::Get, target) {
                Some(at) => served(at),
                None => told(
                    found_at(&self.posted, Method::Post, target).is_some(),
                    false,
                ),
            },
            None => {
                let is_posted = found_at(&self.posted, Method::Post, target).is_some();
                told(
                    is_posted,
                    found_at(&self.got, Method::Get, target).is_some(),
                )
            }
        }
    }
}

// What is told of a target at which the method finds this.
fn served(at: (Route, [u32; 2])) -> Found
    ensures { result ≡ found.Route at.0 at.1 }
{
    let ids = at.1;
    Found::Route { route: at.0, ids }
}

// What is told of a target at which the method finds nothing, and which is served to these two.
fn told(is_posted: bool, is_got: bool) -> Found
    ensures { result ≡ told None (is_posted || is_got) }
{
    if is_posted || is_got {
        Found::Method
    } else {
        Found::Unknown
    }
}

fn method_of(bytes: &[u8]) -> Option<Method>
    ensures { result ≡ method_of bytes.now }
{
    match bytes {
        b"POST" => Some(Method::Post),
        b"GET" => Some(Method::Get),
        _ => None,
    }
}

// Building the routers.

fn router_of(
    alloc: Global,
    method: Method,
    rows: &[(Method, &str, Callers, Asks)],
) -> Result<Router<Place>, InsertError>
    ensures { IfOk result (λ r. r ≡ all_added [] (rows_at method (map row_of rows.now))) }
{
    let mut router = Router::new(alloc);
    for row in rows {
        add(&mut router, method, row)?;
    }
    Ok(router)
}

// Adds a row that is one of this method.
fn add(
    router: &mut Router<Place>,
    method: Method,
    row: &(Method, &str, Callers, Asks),
) -> Result<(), InsertError>
    ensures { OnOk result (router.new ≡ with_row method (row_of row.now) router.old) }
{
    if is_method(row.0, method) {
        router.insert(row.1, place_of(row))?;
    }
    Ok(())
}

fn is_method(one: Method, other: Method) -> bool
    ensures { result ≡ is_method one other }
{
    match (one, other) {
        (Method::Post, Method::Post) => true,
        (Method::Post, Method::Get) => false,
        (Method::Get, Method::Post) => false,
        (Method::Get, Method::Get) => true,
    }
}

// What is served at the targets of a row.
fn place_of(row: &(Method, &str, Callers, Asks)) -> Place
    ensures { result ≡ place_of (row_of row.now) }
{
    Place {
        ids: ids_in(row.1.as_bytes()),
        route: Route {
            callers: row.2,
            asks: row.3,
        },
    }
}

// Which segments of the targets of a pattern are ids.
fn ids_in(pattern: &[u8]) -> Ids
    ensures { result ≡ ids_in pattern.now }
{
    ids_from(Ids::None, 0, pattern)
}

// The same with those that were found before, of what is left of a pattern behind so many slashes.
fn ids_from(before: Ids, slashes: usize, left: &[u8]) -> Ids
    requires few { slashes + length left.now < 2 ^ 63 }
    ensures value { result ≡ ids_from before slashes left.now }
{
    match left {
        [] => before,
        [first, rest @ ..] => {
            if *first == b'{' {
                ids_from(with_id(before, slashes.saturating_sub(1)), slashes, rest)
            } else if *first == b'/' {
                ids_from(before, slashes + 1, rest)
            } else {
                ids_from(before, slashes, rest)
            }
        }
    }
}

// One more segment that is an id; a third is none.
fn with_id(before: Ids, segment: usize) -> Ids
    ensures { result ≡ with_id before segment }
{
    match before {
        Ids::None => Ids::One(segment),
        Ids::One(first) => Ids::Two(first, segment),
        Ids::Two(first, second) => Ids::Two(first, second),
    }
}

// Look-ups.

// A target without the slash that it may end with below `/api/`.
fn bare(target: &[u8]) -> &[u8]
    ensures { result.now ≡ bare target.now }
{
    if target.starts_with(b"/api/") && target.ends_with(b"/") {
        &target[..target.len() - 1]
    } else {
        target
    }
}

// What a method finds at a target, with its ids.
fn found_at(router: &Router<Place>, method: Method, target: &[u8]) -> Option<(Route, [u32; 2])>
    requires { router.now ≡ table method }
    ensures { IsAt method target.now result }
{
    let Some(place) = place_at(router, method, target) else {
        return None;
    };
    let Some(ids) = read_ids(place.ids, target) else {
        return None;
    };
    Some((place.route, ids))
}

// What is served to a method at targets of the shape of this one.
fn place_at(router: &Router<Place>, method: Method, target: &[u8]) -> Option<Place>
    requires { router.now ≡ table method }
    ensures text { IfSome result (λ place. IsUtf8 target.now) }
    ensures found { IfSome result (λ place. IsShaped method place target.now) }
    ensures only { IsOne method target.now }
    ensures none { IfNone result (IsNowhere method target.now) }
{
    let Ok(text) = str::from_utf8(target) else {
        return None;
    };
    match router.at(text) {
        Ok(found) => Some(*found.value),
        Err(_) => None,
    }
}

// The ids of a target, 0 where there is none.
fn read_ids(ids: Ids, target: &[u8]) -> Option<[u32; 2]>
    ensures { MatchOption result ((ns : List ℕ) → AreIds ids target.now ns → ⊥)
        (AreIds ids target.now) }
{
    match ids {
        Ids::None => Some([0, 0]),
        Ids::One(place) => Some([read_id(segment_at(target, place))?, 0]),
        Ids::Two(place, other) => {
            let first = read_id(segment_at(target, place))?;
            let second = read_id(segment_at(target, other))?;
            Some([first, second])
        }
    }
}

fn read_id(segment: &[u8]) -> Option<u32>
    ensures { MatchOption result ((id : ℕ) → IsId segment.now id → ⊥) (IsId segment.now) }
{
    let id = read_number(segment, 4_294_967_295)?;
    Some(id as u32)
}

// A segment of a target, counted from 0.
fn segment_at(target: &[u8], place: usize) -> &[u8]
    ensures { result.now ≡ segment_at place target.now }
{
    if place == 0 {
        segment(target)
    } else {
        segment_at(next(target), place - 1)
    }
}

// The segment behind the first slash of a path.
fn segment(path: &[u8]) -> &[u8]
    ensures { result.now ≡ own_segment (drop 1 path.now) }
{
    own(behind_slash(path))
}

// The path from its second slash on.
fn next(path: &[u8]) -> &[u8]
    ensures { result.now ≡ after_segment (drop 1 path.now) }
{
    after(behind_slash(path))
}

fn behind_slash(path: &[u8]) -> &[u8]
    ensures { result.now ≡ drop 1 path.now }
{
    match path {
        [] => path,
        [_, rest @ ..] => rest,
    }
}

fn own(path: &[u8]) -> &[u8]
    ensures { result.now ≡ own_segment path.now }
{
    &path[..slash_at(path)]
}

fn after(path: &[u8]) -> &[u8]
    ensures { result.now ≡ after_segment path.now }
{
    &path[slash_at(path)..]
}

// The index of the first slash, or the length where there is none.
fn slash_at(path: &[u8]) -> usize
    ensures within { result ≤ length path.now }
    ensures before { (k : ℕ) → k < result → slice_index path.now k ≢ 47 }
    ensures there { result < length path.now → slice_index path.now result ≡ 47 }
{
    for (i, b) in path.iter().enumerate() {
        if *b == b'/' {
            return i;
        }
    }
    path.len()
}
