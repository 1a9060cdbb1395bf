ghost use Rattle.std.specs.Prelude.{◌≡◌};
ghost use Rattle.season_records.specs.Keys.{key_of, slot_of};

use fpl_base::RecordKey;

/// What a record tells of: the key of a record with names for its parts. The parts are any numbers; which of them are
/// ids is told by the item.
#[derive(Clone, Copy, Debug, PartialEq, Eq)]
pub enum Slot {
    /// The season itself.
    Season,
    /// A club.
    Club(u32),
    /// A player.
    Player(u32),
    /// A fixture, with the mark that it is finished.
    Fixture(u32),
    /// The line of a player in a fixture: the fixture, then the player.
    Line(u32, u32),
    /// An entry.
    Entry(u32),
    /// The team of an entry in a gameweek.
    Team(u32, u32),
    /// A transfer of an entry in a gameweek, by its number from 1.
    Transfer(u32, u32, u32),
    /// A league.
    League(u32),
    /// A member of a league: the league, then the entry.
    Member(u32, u32),
    /// A cup.
    Cup(u32),
    /// The last accepted command of a caller: 0 of the operator, else that of the entry.
    Last(u32),
}

impl Slot {
    /// The key of the record that tells of it.
    pub fn key(self) -> RecordKey
        ensures { result ≡ key_of self }
    {
        match self {
            Slot::Season => key(1, 0, 0, 0),
            Slot::Club(club) => key(2, club, 0, 0),
            Slot::Player(player) => key(3, player, 0, 0),
            Slot::Fixture(fixture) => key(4, fixture, 0, 0),
            Slot::Line(fixture, player) => key(5, fixture, player, 0),
            Slot::Entry(entry) => key(6, entry, 0, 0),
            Slot::Team(entry, gameweek) => key(7, entry, gameweek, 0),
            Slot::Transfer(entry, gameweek, number) => key(8, entry, gameweek, number),
            Slot::League(league) => key(9, league, 0, 0),
            Slot::Member(league, entry) => key(10, league, entry, 0),
            Slot::Cup(cup) => key(11, cup, 0, 0),
            Slot::Last(caller) => key(12, caller, 0, 0),
        }
    }

    /// What the record of a key tells of; `None` exactly where the key is that of no record.
    pub fn of(key: RecordKey) -> Option<Slot>
        ensures { result ≡ slot_of key }
    {
        match key.kind {
            1 => only(key.a == 0 && key.b == 0 && key.c == 0, Slot::Season),
            2 => only(key.b == 0 && key.c == 0, Slot::Club(key.a)),
            3 => only(key.b == 0 && key.c == 0, Slot::Player(key.a)),
            4 => only(key.b == 0 && key.c == 0, Slot::Fixture(key.a)),
            5 => only(key.c == 0, Slot::Line(key.a, key.b)),
            6 => only(key.b == 0 && key.c == 0, Slot::Entry(key.a)),
            7 => only(key.c == 0, Slot::Team(key.a, key.b)),
            8 => Some(Slot::Transfer(key.a, key.b, key.c)),
            9 => only(key.b == 0 && key.c == 0, Slot::League(key.a)),
            10 => only(key.c == 0, Slot::Member(key.a, key.b)),
            11 => only(key.b == 0 && key.c == 0, Slot::Cup(key.a)),
            12 => only(key.b == 0 && key.c == 0, Slot::Last(key.a)),
            _ => None,
        }
    }
}

fn key(kind: u8, a: u32, b: u32, c: u32) -> RecordKey
    ensures { result ≡ record { kind = kind; a = a; b = b; c = c } }
{
    RecordKey { kind, a, b, c }
}

fn only(holds: bool, slot: Slot) -> Option<Slot>
    ensures { result ≡ Rattle.season_records.specs.Keys.only holds slot }
{
    if holds { Some(slot) } else { None }
}
