ghost use Rattle.std.specs.Prelude.{◌≡◌};
ghost use Rattle.season_records.specs.Items.{slot_of_item};

use crate::Slot;
use fpl_base::{
    Chip, ClubId, Code, CupId, EntryId, FixtureId, Gw, Key, LeagueId, Moment, Name, PlayerId,
    Position, Profile,
};
use rule_book::{Coins, LeagueKind, Line, Slots};
use season_book::{Command, Moments, Order};

/// A record as a value: what it tells of, and what it tells. Prices and money are in tenths of a million, any number of
/// their width; which of them can be is judged where records are looked at together.
#[derive(Drop)]
pub enum Item {
    /// The season: a deadline for each gameweek, at most 255, the last gameweek of the first half, and how many are locked.
    Season {
        profile: Profile,
        split: u8,
        locked: u8,
        deadlines: Moments,
    },
    /// A club.
    Club {
        club: ClubId,
        name: Name,
    },
    /// A player.
    Player {
        player: PlayerId,
        position: Position,
        club: ClubId,
        price: u16,
        gone: bool,
        name: Name,
    },
    /// A fixture, and whether it is finished.
    Fixture {
        fixture: FixtureId,
        home: ClubId,
        away: ClubId,
        gameweek: Option<Gw>,
        kickoff: Moment,
        finished: bool,
    },
    /// A player's figures in a fixture, any numbers of their width.
    Line {
        fixture: FixtureId,
        player: PlayerId,
        line: Line,
    },
    /// An entry, with the first gameweek of one that is registered.
    Entry {
        entry: EntryId,
        first: Option<Gw>,
        key: Key,
        name: Name,
    },
    /// The team of an entry in a gameweek: by slot the players with the prices at which they were bought, the slots of
    /// captain and vice-captain, the bank, and the chip.
    Team {
        entry: EntryId,
        gameweek: Gw,
        picks: [(PlayerId, u16); 15],
        captain: u8,
        vice: u8,
        bank: u32,
        chip: Chip,
    },
    /// A transfer of an entry in a gameweek, by its number from 1.
    Transfer {
        entry: EntryId,
        gameweek: Gw,
        number: u32,
        out: PlayerId,
        into: PlayerId,
        sold: u16,
        bought: u16,
    },
    /// A league: who created it, and the order of its draw, empty where it is not drawn, of at most 255.
    League {
        league: LeagueId,
        kind: LeagueKind,
        start: Gw,
        creator: EntryId,
        order: Order,
        code: Code,
        name: Name,
    },
    /// A member of a league.
    Member {
        league: LeagueId,
        entry: EntryId,
    },
    /// The draw of a cup: at most 65,535 slots, and one coin fewer.
    Cup {
        cup: CupId,
        start: Gw,
        slots: Slots,
        coins: Coins,
    },
    /// The last accepted command of a caller, 0 of the operator, with its number, the status of its answer, and the id
    /// of what it made, 0 where it made nothing.
    Last {
        caller: u32,
        number: u64,
        status: u16,
        made: u32,
        command: Command,
    },
}

impl Item {
    /// What it tells of.
    pub fn slot(&self) -> Slot
        ensures { result ≡ slot_of_item self.now }
    {
        match *self {
            Item::Season { .. } => Slot::Season,
            Item::Club { club, .. } => Slot::Club(club.get() as u32),
            Item::Player { player, .. } => Slot::Player(player.get()),
            Item::Fixture { fixture, .. } => Slot::Fixture(fixture.get()),
            Item::Line {
                fixture,
                player,
                ..
            } => Slot::Line(fixture.get(), player.get()),
            Item::Entry { entry, .. } => Slot::Entry(entry.get()),
            Item::Team {
                entry,
                gameweek,
                ..
            } => Slot::Team(entry.get(), gameweek.get() as u32),
            Item::Transfer {
                entry,
                gameweek,
                number,
                ..
            } => Slot::Transfer(entry.get(), gameweek.get() as u32, number),
            Item::League { league, .. } => Slot::League(league.get()),
            Item::Member { league, entry } => Slot::Member(league.get(), entry.get()),
            Item::Cup { cup, .. } => Slot::Cup(cup.get()),
            Item::Last { caller, .. } => Slot::Last(caller),
        }
    }
}
