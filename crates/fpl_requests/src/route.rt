ghost use Rattle.std.specs.Prelude.{◌≡◌};
ghost use Rattle.fpl_requests.specs.Callers.{is_operator};

use fpl_base::Caller;

/// By what a target is asked.
#[derive(Clone, Copy, Debug, PartialEq, Eq)]
pub(crate) enum Method {
    Get,
    Post,
}

/// The commands that have a route.
#[derive(Clone, Copy, Debug, PartialEq, Eq)]
pub enum CommandRoute {
    Season,
    Deadlines,
    Players,
    AmendPlayer,
    Prices,
    Clubs,
    Gone,
    Fixtures,
    Move,
    AmendFixture,
    Sheet,
    Line,
    Drop,
    Finished,
    Keys,
    Rekey,
    Squad,
    Transfers,
    Lineup,
    Chip,
    CancelChip,
    Leagues,
    Join,
    Draw,
    Cups,
}

/// The views that have a route.
#[derive(Clone, Copy, Debug, PartialEq, Eq)]
pub enum ViewRoute {
    ShowSeason,
    ShowMe,
    ShowPlayer,
    ShowPlayerGameweek,
    ShowFixture,
    ShowEntryGameweek,
    ShowLeague,
    ShowCup,
    /// The windows, below `/api/`.
    WindowMe,
    WindowEntries,
    WindowLeagues,
    WindowMyLeagues,
    WindowCups,
    WindowSheet,
    WindowEntry,
    WindowLive,
    WindowHistory,
    WindowBootstrap,
    WindowFixtures,
    WindowElement,
    WindowDreamTeam,
    WindowPicks,
    WindowTransfers,
    WindowClassicStandings,
    WindowHeadStandings,
    WindowHeadMatches,
    WindowCup,
}

/// What a route asks of the host.
#[derive(Clone, Copy, Debug, PartialEq, Eq)]
pub enum Asks {
    /// Its body orders this.
    Command(CommandRoute),
    /// Its body is not looked at.
    View(ViewRoute),
}

/// Who may ask a route.
#[derive(Clone, Copy, Debug, PartialEq, Eq)]
pub enum Callers {
    /// The operator alone.
    Operator,
    /// The managers of entries alone.
    Entry,
    /// Every caller.
    Both,
}

/// A route, as it is asked by a method at a target.
#[derive(Clone, Copy, Debug, PartialEq, Eq)]
pub struct Route {
    pub callers: Callers,
    pub asks: Asks,
}

/// What a method and a target ask for.
#[derive(Clone, Copy, Debug, PartialEq, Eq)]
pub enum Found {
    /// This route, with the ids in the target by their order, 0 where it has none.
    Route { route: Route, ids: [u32; 2] },
    /// The target is served, but not by this method.
    Method,
    /// The target is not served.
    Unknown,
}

impl Route {
    ghost use Rattle.std.specs.Prelude.{◌≡◌};
    ghost use Rattle.fpl_requests.specs.Callers.{is_for};

    /// Whether this caller may ask it, as its row says.
    pub fn is_for(self, caller: Caller) -> bool
        ensures { result ≡ is_for self caller }
    {
        match self.callers {
            Callers::Operator => is_operator(caller),
            Callers::Entry => !is_operator(caller),
            Callers::Both => true,
        }
    }
}

fn is_operator(caller: Caller) -> bool
    ensures { result ≡ is_operator caller }
{
    match caller {
        Caller::Operator => true,
        Caller::Entry(_) => false,
    }
}
