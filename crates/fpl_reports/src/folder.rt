// The season of three files.
ghost use Rattle.std.specs.Prelude.{◌≡◌, ◌≢◌, ◌∷◌, ◌++◌, ◌+◌, [], All, IfOk, IfErr, IfSome, map};
ghost use Rattle.season_book.specs.Commands.{IsCommand};
ghost use Rattle.fpl_reports.specs.Rows.{HasRows};
ghost use Rattle.fpl_reports.specs.Files.{AddsClub, AddsPlayer, AddsFixture};
ghost use Rattle.fpl_reports.specs.Folder.{AreDeadlines, AreOrders, order_of_player, order_of_fixture};
ghost use Rattle.fpl_reports.specs.Faults.{ExplainsFiles, ExplainsFile, WrongOfClubs, WrongOfPlayers, WrongOfFixtures};

use crate::deadlines::deadlines_of;
use crate::files::{FixtureRow, PlayerRow};
use crate::orders::put_orders;
use crate::rows::{RowFault, rows_of};
use fpl_base::{ClubId, Memory, Name, Profile};
use season_book::{Clubs, Command, Moments};
use std::alloc::Global;

/// Why three files give no commands.
#[derive(Clone, Copy, Debug, PartialEq, Eq)]
pub enum FileFault {
    /// The first wrong row: its file, 1 for `clubs.csv`, 2 for `players.csv` and 3 for `fixtures.csv`, and its number
    /// there, from 1. Blank lines are not counted.
    Row { file: u8, row: u32 },
    /// There was no memory, as for 2^32 rows.
    Memory,
}

/// The commands that load the season of three files, in the order in which they are to be asked: the season with its
/// deadlines and clubs, then each player, then each fixture. `split` is the last gameweek of the first half, 0 for
/// none. The bytes are comma-separated rows, as docs/FORMATS.md has them under `load`.
pub fn season_files(
    alloc: Global,
    clubs: &[u8],
    players: &[u8],
    fixtures: &[u8],
    split: u8,
    profile: Profile,
) -> Result<Vec<Command>, FileFault>
    ensures orders { IfOk result (λ commands.
        AreOrders clubs.now players.now fixtures.now split profile commands.items) }
    ensures lawful { IfOk result (λ commands. All IsCommand commands.items) }
    ensures fault { IfErr result (ExplainsFiles clubs.now players.now fixtures.now split) }
{
    let clubs = clubs_of(alloc, clubs)?;
    let players = players_of(alloc, players)?;
    let (fixtures, deadlines) = fixtures_of(alloc, fixtures, split)?;
    let season = Command::Season {
        profile,
        deadlines,
        split,
        clubs: Clubs::of(clubs),
    };
    match orders_of(alloc, season, players, fixtures) {
        Ok(commands) => Ok(commands),
        Err(_) => Err(FileFault::Memory),
    }
}

fn clubs_of(alloc: Global, bytes: &[u8]) -> Result<Vec<(ClubId, Name)>, FileFault>
    ensures rows { IfOk result (λ rows. HasRows AddsClub bytes.now rows.items × (rows.items ≢ [])) }
    ensures fault { IfErr result (ExplainsFile 1 (WrongOfClubs bytes.now)) }
{
    match rows_of::<(ClubId, Name)>(alloc, bytes) {
        Ok(rows) => {
            if rows.is_empty() {
                Err(FileFault::Row { file: 1, row: 1 })
            } else {
                Ok(rows)
            }
        }
        Err(RowFault::Wrong(row)) => Err(FileFault::Row { file: 1, row }),
        Err(RowFault::Memory) => Err(FileFault::Memory),
    }
}

fn players_of(alloc: Global, bytes: &[u8]) -> Result<Vec<PlayerRow>, FileFault>
    ensures rows { IfOk result (λ rows. HasRows AddsPlayer bytes.now rows.items) }
    ensures fault { IfErr result (ExplainsFile 2 (WrongOfPlayers bytes.now)) }
{
    match rows_of::<PlayerRow>(alloc, bytes) {
        Ok(rows) => Ok(rows),
        Err(RowFault::Wrong(row)) => Err(FileFault::Row { file: 2, row }),
        Err(RowFault::Memory) => Err(FileFault::Memory),
    }
}

fn fixtures_of(
    alloc: Global,
    bytes: &[u8],
    split: u8,
) -> Result<(Vec<FixtureRow>, Moments), FileFault>
    ensures rows { IfOk result (λ found.
        HasRows AddsFixture bytes.now found.0.items × AreDeadlines split found.0.items found.1) }
    ensures fault { IfErr result (ExplainsFile 3 (WrongOfFixtures split bytes.now)) }
{
    let rows = match rows_of::<FixtureRow>(alloc, bytes) {
        Ok(rows) => rows,
        Err(RowFault::Wrong(row)) => return Err(FileFault::Row { file: 3, row }),
        Err(RowFault::Memory) => return Err(FileFault::Memory),
    };
    match deadlines_of(alloc, rows.as_slice(), split) {
        Ok(Some(deadlines)) => Ok((rows, deadlines)),
        Ok(None) => match row_behind(rows.len()) {
            Some(row) => Err(FileFault::Row { file: 3, row }),
            None => Err(FileFault::Memory),
        },
        Err(_) => Err(FileFault::Memory),
    }
}

// The number of the row behind so many.
fn row_behind(rows: usize) -> Option<u32>
    ensures { IfSome result (λ n. n ≡ rows + 1) }
{
    if rows < u32::MAX as usize {
        Some(rows as u32 + 1)
    } else {
        None
    }
}

fn orders_of(
    alloc: Global,
    season: Command,
    players: Vec<PlayerRow>,
    fixtures: Vec<FixtureRow>,
) -> Result<Vec<Command>, Memory>
    ensures { IfOk result (λ commands.
        commands.items
        ≡ season ∷ (map order_of_player players.items ++ map order_of_fixture fixtures.items)) }
{
    let mut commands = Vec::new(alloc);
    commands.push(season)?;
    put_orders(&mut commands, players)?;
    put_orders(&mut commands, fixtures)?;
    Ok(commands)
}
