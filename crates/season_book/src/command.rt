use crate::{Clubs, Coins, Lines, Moments, Order, Slots, Swaps};
use fpl_base::{Chip, ClubId, Code, FixtureId, Gw, Key, Moment, Name, PlayerId, Position, Profile};
use rule_book::{LeagueKind, Line};

/// What a caller orders: one variant for each command, with the ids of its target and its members. An id of a target
/// is any number that can be spelled, since what is not there is only told when the command is judged. Prices are in
/// tenths of a million, from 0 to 65535; which of them a player can have is judged too. The operator gives the commands
/// up to `Finished`, `Key`, `Rekey`, `Draw` and `Cup`, and an entry's manager the others.
#[derive(Drop)]
pub enum Command {
    /// Begins the season: by which rules it is played, its deadlines, the last gameweek of its first half, and its clubs.
    Season {
        profile: Profile,
        deadlines: Moments,
        split: u8,
        clubs: Clubs,
    },
    /// Sets the deadline of a gameweek.
    Deadline {
        gameweek: Gw,
        deadline: Moment,
    },
    /// Adds a player.
    Player {
        id: PlayerId,
        name: Name,
        position: Position,
        club: ClubId,
        price: u16,
    },
    /// Sets a player's name and his position.
    AmendPlayer {
        player: u32,
        name: Name,
        position: Position,
    },
    /// Sets a player's price.
    Price {
        player: PlayerId,
        price: u16,
    },
    /// Sets a player's club.
    Club {
        player: PlayerId,
        club: ClubId,
    },
    /// Marks a player as gone, or as not gone.
    Gone {
        player: PlayerId,
        gone: bool,
    },
    /// Adds a fixture.
    Fixture {
        id: FixtureId,
        home: ClubId,
        away: ClubId,
        gameweek: Option<Gw>,
        kickoff: Moment,
    },
    /// Moves a fixture to a gameweek, or to none, and sets its kick-off.
    Move {
        fixture: u32,
        gameweek: Option<Gw>,
        kickoff: Moment,
    },
    /// Sets the clubs of a fixture, which differ.
    AmendFixture {
        fixture: u32,
        home: ClubId,
        away: ClubId,
    },
    /// Replaces all lines of a fixture, and its mark.
    Sheet {
        fixture: u32,
        lines: Lines,
        finished: bool,
    },
    /// Puts one line into a fixture.
    Line {
        fixture: u32,
        player: PlayerId,
        line: Line,
    },
    /// Takes one line out of a fixture.
    Drop {
        fixture: u32,
        player: PlayerId,
    },
    /// Marks a fixture as finished, or takes the mark away.
    Finished {
        fixture: u32,
        finished: bool,
    },
    /// Makes an entry, which is let in with this key.
    Key {
        key: Key,
        name: Name,
    },
    /// Gives an entry another key and another name. Its old key is nobody's from then on.
    Rekey {
        entry: u32,
        key: Key,
        name: Name,
    },
    /// Registers the caller's squad: fifteen players by slot, captain and vice-captain.
    Squad {
        players: [PlayerId; 15],
        captain: PlayerId,
        vice: PlayerId,
    },
    /// Makes a batch of 1 to 15 transfers, whole or not at all.
    Transfers {
        swaps: Swaps,
    },
    /// Sets the slots of the caller's players, captain and vice-captain.
    Lineup {
        players: [PlayerId; 15],
        captain: PlayerId,
        vice: PlayerId,
    },
    /// Plays a chip, which is not `Chip::None`.
    Chip {
        chip: Chip,
    },
    /// Takes a chip back.
    CancelChip,
    /// Creates a league, which others join with its code.
    League {
        kind: LeagueKind,
        name: Name,
        code: Code,
        start: Gw,
    },
    /// Joins a league.
    Join {
        league: u32,
        code: Code,
    },
    /// Draws a head-to-head league: its members by place, at most 64.
    Draw {
        league: u32,
        order: Order,
    },
    /// Draws a cup: slots with the numbers of entries, 0 for a bye, and a coin of 0 or 1 for each tie; at most 1024.
    Cup {
        start: Gw,
        slots: Slots,
        coins: Coins,
    },
}
