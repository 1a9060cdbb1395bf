// What is asked by a route, its ids and a body.
ghost use Rattle.std.specs.Prelude.{◌≡◌, IfOk, option_and_then};
ghost use Rattle.serde_json.specs.Read.{read};
ghost use Rattle.fpl_requests.specs.declared.field.FieldName.TheVariants as field;
ghost use Rattle.fpl_requests.specs.Members.{Gives, GivesObject, if_object, object_of, or_wrong};
ghost use Rattle.fpl_requests.specs.Requests.{ordered, request_of, view_of};
ghost use Rattle.season_book.specs.Hosts.{IsRequest};

use crate::commands::read_command;
use crate::members::{whole, wrong};
use crate::route::{Asks, CommandRoute, Route, ViewRoute};
use crate::{FieldName, ReadFault};
use json_tree::{ParseFault, Parsed, Scratch, parse};
use season_book::{Request, View, Window};
use std::alloc::Global;

/// What is asked by a route and the ids of its target, as [`crate::routes::Routes::find`] gives them, and a body, which is
/// not looked at where a view is asked. The members of a command are read in their order, `number` first, and the first
/// wrong one is named; of several members of one name the last counts, and others than those of the command are
/// passed over. Reading takes memory in proportion to the body, and the scratch is kept from body to body.
pub fn read_request(
    alloc: Global,
    scratch: &mut Scratch,
    route: Route,
    ids: [u32; 2],
    body: &[u8],
) -> Result<Request, ReadFault>
    ensures gives { Gives result (request_of route ids body.now) }
    ensures readable { IfOk result IsRequest }
{
    match route.asks {
        Asks::View(view) => Ok(Request::View(view_of(view, ids))),
        Asks::Command(command) => read_ordered(alloc, scratch, command, ids[0], body),
    }
}

fn view_of(view: ViewRoute, ids: [u32; 2]) -> View
    ensures { result ≡ view_of view ids }
{
    match view {
        ViewRoute::ShowSeason => View::Season,
        ViewRoute::ShowMe => View::Me,
        ViewRoute::ShowPlayer => View::Player { player: ids[0] },
        ViewRoute::ShowPlayerGameweek => View::PlayerGameweek {
            player: ids[0],
            gameweek: ids[1],
        },
        ViewRoute::ShowFixture => View::Fixture { fixture: ids[0] },
        ViewRoute::ShowEntryGameweek => View::EntryGameweek {
            entry: ids[0],
            gameweek: ids[1],
        },
        ViewRoute::ShowLeague => View::League { league: ids[0] },
        ViewRoute::ShowCup => View::Cup { cup: ids[0] },
        ViewRoute::WindowMe => View::Window(Window::Me),
        ViewRoute::WindowEntries => View::Window(Window::Entries),
        ViewRoute::WindowLeagues => View::Window(Window::Leagues),
        ViewRoute::WindowMyLeagues => View::Window(Window::MyLeagues),
        ViewRoute::WindowCups => View::Window(Window::Cups),
        ViewRoute::WindowSheet => View::Window(Window::Sheet { fixture: ids[0] }),
        ViewRoute::WindowEntry => View::Window(Window::Entry { entry: ids[0] }),
        ViewRoute::WindowLive => View::Window(Window::Live { gameweek: ids[0] }),
        ViewRoute::WindowHistory => View::Window(Window::History { entry: ids[0] }),
        ViewRoute::WindowBootstrap => View::Window(Window::Bootstrap),
        ViewRoute::WindowFixtures => View::Window(Window::Fixtures),
        ViewRoute::WindowElement => View::Window(Window::Element { player: ids[0] }),
        ViewRoute::WindowDreamTeam => View::Window(Window::DreamTeam { gameweek: ids[0] }),
        ViewRoute::WindowPicks => View::Window(Window::Picks {
            entry: ids[0],
            gameweek: ids[1],
        }),
        ViewRoute::WindowTransfers => View::Window(Window::Transfers { entry: ids[0] }),
        ViewRoute::WindowClassicStandings => View::Window(Window::ClassicStandings {
            league: ids[0],
        }),
        ViewRoute::WindowHeadStandings => View::Window(Window::HeadStandings { league: ids[0] }),
        ViewRoute::WindowHeadMatches => View::Window(Window::HeadMatches { league: ids[0] }),
        ViewRoute::WindowCup => View::Window(Window::Cup { cup: ids[0] }),
    }
}

// What a body orders by the route of a command, at the id of its target, where it has one.
fn read_ordered(
    alloc: Global,
    scratch: &mut Scratch,
    which: CommandRoute,
    id: u32,
    body: &[u8],
) -> Result<Request, ReadFault>
    ensures gives { Gives result (ordered which id body.now) }
    ensures readable { IfOk result IsRequest }
{
    let read = object_of(alloc, scratch, body)?;
    let value = read.root();
    let number = whole(&value, FieldName::Number, 1, 9_223_372_036_854_775_807)?;
    let command = read_command(alloc, which, id, &value)?;
    Ok(Request::Command { number, command })
}

// The object that a body is.
fn object_of<'a>(
    alloc: Global,
    scratch: &'a mut Scratch,
    body: &'a [u8],
) -> Result<Parsed<'a>, ReadFault>
    ensures { GivesObject result (object_of body.now) }
{
    match simdutf8::compat::from_utf8(body) {
        Ok(text) => object_in(alloc, scratch, text),
        Err(_) => Err(wrong(FieldName::Body)),
    }
}

fn object_in<'a>(
    alloc: Global,
    scratch: &'a mut Scratch,
    text: &'a str,
) -> Result<Parsed<'a>, ReadFault>
    ensures { GivesObject result
        (or_wrong field.Body (option_and_then if_object (read text.now))) }
{
    match parse(alloc, text, scratch) {
        Ok(read) => {
            if read.root().is_object() {
                Ok(read)
            } else {
                Err(wrong(FieldName::Body))
            }
        }
        Err(ParseFault::Memory) => Err(ReadFault::Memory),
        Err(ParseFault::Invalid) => Err(wrong(FieldName::Body)),
    }
}
