use crate::Command;

/// What a caller wants to see. An id is any number that can be spelled, since what is not there is only told when the
/// view is judged.
#[derive(Clone, Copy, Debug, PartialEq, Eq)]
pub enum View {
    /// The season: its clubs, its deadlines, and how many gameweeks are locked.
    Season,
    /// A player.
    Player { player: u32 },
    /// What a player did in a locked gameweek.
    PlayerGameweek { player: u32, gameweek: u32 },
    /// A fixture with its lines.
    Fixture { fixture: u32 },
    /// The caller's own entry: his team, his money and his total.
    Me,
    /// What an entry's team scored in a locked gameweek.
    EntryGameweek { entry: u32, gameweek: u32 },
    /// The table of a league.
    League { league: u32 },
    /// The rounds of a cup.
    Cup { cup: u32 },
    /// A window.
    Window(Window),
}

/// What is shown below `/api/`, in the shapes of the public game: one JSON value each.
#[derive(Clone, Copy, Debug, PartialEq, Eq)]
pub enum Window {
    /// Who the caller is, and the number of his last command; also before a season.
    Me,
    /// The entries, with their names and first gameweeks.
    Entries,
    /// The leagues.
    Leagues,
    /// The leagues that the caller's entry is in, with their codes.
    MyLeagues,
    /// The cups.
    Cups,
    /// What was handed in on a fixture: its lines, and whether it is finished.
    Sheet { fixture: u32 },
    /// The season at a glance: positions, players, gameweeks and clubs.
    Bootstrap,
    /// The fixtures, by kick-off, then id.
    Fixtures,
    /// What each player did in a gameweek, and what his points are for.
    Live { gameweek: u32 },
    /// A player: the fixtures before him and the lines behind him.
    Element { player: u32 },
    /// The team of the week of a gameweek.
    DreamTeam { gameweek: u32 },
    /// An entry: its points, its ranks and its leagues.
    Entry { entry: u32 },
    /// The gameweeks of an entry.
    History { entry: u32 },
    /// The team of an entry in a locked gameweek.
    Picks { entry: u32, gameweek: u32 },
    /// The transfers of an entry, the latest first.
    Transfers { entry: u32 },
    /// The table of a classic league, with movement.
    ClassicStandings { league: u32 },
    /// The table of a head-to-head league, with movement.
    HeadStandings { league: u32 },
    /// The matches of a head-to-head league.
    HeadMatches { league: u32 },
    /// The rounds of a cup, with their ties.
    Cup { cup: u32 },
}

/// What a caller asks.
#[derive(Drop)]
pub enum Request {
    /// To do a command, which is the caller's command of this number, from 1 to 2^63 - 1.
    Command { number: u64, command: Command },
    /// To show something.
    View(View),
}
