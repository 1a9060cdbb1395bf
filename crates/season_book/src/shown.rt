// What views show.
use crate::{Moments, SharedClubs};
use fpl_base::{Chip, EntryId, Gw, ListOf, Name, PlayerId, Profile, Tenths};
use rule_book::{Figures, Fixture, HeadRanked, Player, Ranked, Slots, TeamScore};

/// A season as it stands.
#[derive(Drop)]
pub struct ShownSeason {
    /// By ascending id.
    pub clubs: SharedClubs,
    pub deadlines: Moments,
    /// How many gameweeks are locked.
    pub locked: u8,
    /// By which rules the season is played.
    pub profile: Profile,
    /// The last gameweek of the first half.
    pub split: u8,
}

/// A player's line in a fixture and what it is worth: his points without bonus, his number in the bonus points system,
/// and his bonus, 0 before the fixture is finished.
#[derive(Clone, Copy, Debug, PartialEq, Eq)]
pub struct ShownLine {
    pub player: PlayerId,
    pub points: i32,
    pub bps: i32,
    pub bonus: u8,
}

/// Lines by ascending player.
pub type ShownLines = ListOf<ShownLine>;

/// A fixture as it stands.
#[derive(Drop)]
pub struct ShownFixture {
    pub fixture: Fixture,
    pub finished: bool,
    pub lines: ShownLines,
}

/// A player of a caller's team: the price at which he was bought, his present price, and what he sells for.
#[derive(Clone, Copy, Debug, PartialEq, Eq)]
pub struct ShownPick {
    pub player: PlayerId,
    pub bought: Tenths,
    pub price: Tenths,
    pub sell: Tenths,
}

/// A caller's own entry. Team, chip, free transfers and cost are those of the next gameweek, and of the last one when
/// the season is over.
#[derive(Clone, Copy, Debug, PartialEq, Eq)]
pub struct ShownMe {
    pub entry: EntryId,
    /// The number of his last accepted command.
    pub last: u64,
    /// The next gameweek; `None` when the season is over.
    pub gameweek: Option<Gw>,
    /// By slot.
    pub players: [ShownPick; 15],
    pub captain: PlayerId,
    pub vice: PlayerId,
    /// What is left of the money.
    pub bank: Tenths,
    pub chip: Chip,
    /// `None` in the entry's first gameweek, in which all transfers are free.
    pub free: Option<u8>,
    /// The points that the gameweek's transfers cost.
    pub cost: u32,
    /// The points after deductions over the locked gameweeks.
    pub total: i32,
}

/// What an entry's team scored in a locked gameweek.
#[derive(Clone, Copy, Debug, PartialEq, Eq)]
pub struct ShownEntryGameweek {
    /// By slot.
    pub players: [PlayerId; 15],
    pub chip: Chip,
    pub score: TeamScore,
}

/// A row of the table of a classic league, with the name of the entry.
#[derive(Drop)]
pub struct ShownRanked {
    pub row: Ranked,
    pub name: Name,
}

/// A classic league: its table over the locked gameweeks, by rank, then entry.
#[derive(Drop)]
pub struct ShownClassic {
    pub name: Name,
    /// The gameweek from which on points count.
    pub start: Gw,
    pub rows: ListOf<ShownRanked>,
}

/// A row of the table of a head-to-head league, with the name of the entry.
#[derive(Drop)]
pub struct ShownHeadRanked {
    pub row: HeadRanked,
    pub name: Name,
}

/// A head-to-head league: its table over the locked gameweeks, by rank, then entry. Before it is drawn all rows have
/// rank 1 and nothing else.
#[derive(Drop)]
pub struct ShownHead {
    pub name: Name,
    /// The gameweek of the first matches.
    pub start: Gw,
    pub rows: ListOf<ShownHeadRanked>,
}

/// A cup: the winners of each round, tie by tie, and `None` for a round whose gameweek is open.
#[derive(Drop)]
pub struct ShownCup {
    /// The gameweek of the first round.
    pub start: Gw,
    pub rounds: ListOf<Option<Slots>>,
}

/// The text of a JSON value, without spaces.
pub type Page = ListOf<u8>;

/// What a view shows.
#[derive(Drop)]
pub enum Shown {
    Season(ShownSeason),
    Player(Player),
    /// What a player did in a gameweek.
    PlayerGameweek(Figures),
    Fixture(ShownFixture),
    Me(ShownMe),
    EntryGameweek(ShownEntryGameweek),
    Classic(ShownClassic),
    Head(ShownHead),
    Cup(ShownCup),
    /// What a window shows.
    Page(Page),
}
