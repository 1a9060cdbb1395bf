// The rows of the three season files.
ghost use Rattle.std.specs.Prelude.{◌≡◌, ◌==◌, ◌≤◌};
ghost use Rattle.std.specs.List.{list_any};
ghost use Rattle.csv.specs.Records.{fields_of};
ghost use Rattle.season_calendar.specs.Instants.{IsInstant};
ghost use Rattle.fpl_reports.specs.Files.{AddsClub, AddsPlayer, AddsFixture, ArePair, SpellsFixture};
ghost use Rattle.fpl_reports.specs.Folder.{order_of_player, order_of_fixture};
ghost use Rattle.fpl_reports.specs.Rows.{Finds};

use crate::fields::{
    five_fields, read_club, read_fixture, read_gameweek, read_player, read_price, two_fields,
};
use crate::orders::Ordered;
use crate::rows::Row;
use csv::ByteRecord;
use fpl_base::{ClubId, FixtureId, Gw, Memory, Moment, Name, PlayerId, Position};
use season_book::Command;
use season_calendar::read_instant;
use std::alloc::Global;

/// A season has at most so many clubs.
const MAX_CLUBS: usize = 20;

/// A gameweek's deadline stands so many seconds before its first kick-off.
pub(crate) const BEFORE_KICKOFF: u64 = 5400;

// A row of `players.csv`.
#[derive(Drop)]
pub(crate) struct PlayerRow {
    pub(crate) id: PlayerId,
    pub(crate) name: Name,
    pub(crate) position: Position,
    pub(crate) club: ClubId,
    pub(crate) price: u16,
}

// A row of `fixtures.csv`.
#[derive(Clone, Copy, Debug)]
pub(crate) struct FixtureRow {
    pub(crate) id: FixtureId,
    pub(crate) home: ClubId,
    pub(crate) away: ClubId,
    pub(crate) gameweek: Gw,
    pub(crate) kickoff: Moment,
}

// A club of `clubs.csv`: its number and its name.
impl Row for (ClubId, Name) {
    ghost adds = { AddsClub };

    fn read(alloc: Global, before: &[Self], read: &ByteRecord) -> Result<Option<Self>, Memory> {
        let Some((id, name)) = two_fields(read) else {
            return Ok(None);
        };
        let Some(id) = read_club(id) else {
            return Ok(None);
        };
        if before.len() >= MAX_CLUBS || has_club(before, id) {
            return Ok(None);
        }
        let Some(name) = Name::new(alloc, name)? else {
            return Ok(None);
        };
        Ok(Some((id, name)))
    }
}

fn has_club(clubs: &[(ClubId, Name)], id: ClubId) -> bool
    ensures { result ≡ list_any (λ earlier. earlier.0 == id) clubs.now }
{
    clubs.iter().any(|earlier| earlier.0 == id)
}

impl Ordered for PlayerRow {
    ghost ordered = { order_of_player };

    fn ordered(self) -> Command {
        let PlayerRow {
            id,
            name,
            position,
            club,
            price,
        } = self;
        Command::Player {
            id,
            name,
            position,
            club,
            price,
        }
    }
}

impl Row for PlayerRow {
    ghost adds = { AddsPlayer };

    fn read(alloc: Global, before: &[Self], read: &ByteRecord) -> Result<Option<Self>, Memory> {
        // No row of players is held against those before it.
        let _ = before;
        let Some((id, name, position, club, price)) = five_fields(read) else {
            return Ok(None);
        };
        let Some(id) = read_player(id) else {
            return Ok(None);
        };
        let Some(position) = Position::from_letter(position) else {
            return Ok(None);
        };
        let Some(club) = read_club(club) else {
            return Ok(None);
        };
        let Some(price) = read_price(price) else {
            return Ok(None);
        };
        let Some(name) = Name::new(alloc, name)? else {
            return Ok(None);
        };
        Ok(Some(PlayerRow {
            id,
            name,
            position,
            club,
            price,
        }))
    }
}

impl Ordered for FixtureRow {
    ghost ordered = { order_of_fixture };

    fn ordered(self) -> Command {
        Command::Fixture {
            id: self.id,
            home: self.home,
            away: self.away,
            gameweek: Some(self.gameweek),
            kickoff: self.kickoff,
        }
    }
}

impl Row for FixtureRow {
    ghost adds = { AddsFixture };

    fn read(alloc: Global, before: &[Self], read: &ByteRecord) -> Result<Option<Self>, Memory> {
        // A row of fixtures takes no memory, and is held against none before it.
        let _ = alloc;
        let _ = before;
        Ok(fixture_of(read))
    }
}

// The fixture that a record spells.
fn fixture_of(read: &ByteRecord) -> Option<FixtureRow>
    ensures { Finds (SpellsFixture (fields_of read.now)) result }
{
    let (id, home, away, gameweek, kickoff) = five_fields(read)?;
    let id = read_fixture(id)?;
    let (home, away) = two_clubs(home, away)?;
    let gameweek = read_gameweek(gameweek)?;
    let kickoff = kickoff_of(kickoff)?;
    Some(FixtureRow {
        id,
        home,
        away,
        gameweek,
        kickoff,
    })
}

// The clubs that two fields spell, where they differ.
fn two_clubs(home: &[u8], away: &[u8]) -> Option<(ClubId, ClubId)>
    ensures { Finds (ArePair home.now away.now) result }
{
    let home = read_club(home)?;
    let away = read_club(away)?;
    if home == away {
        None
    } else {
        Some((home, away))
    }
}

// The instant of a field, where a deadline stands before it.
fn kickoff_of(field: &[u8]) -> Option<Moment>
    ensures { Finds (λ t. IsInstant field.now t × (5400 ≤ t)) result }
{
    match read_instant(field) {
        Some(kickoff) => {
            if kickoff.get() < BEFORE_KICKOFF {
                None
            } else {
                Some(kickoff)
            }
        }
        None => None,
    }
}
