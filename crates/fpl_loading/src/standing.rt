// What the season says of a command of the files.
ghost use Rattle.std.specs.Prelude.{◌≡◌, ◌==◌, ◌&&◌, ◌∷◌, [], IfOk, map, option_map};
ghost use Rattle.std.specs.List.{list_any};
ghost use Rattle.std.specs.Str.{bytes_eq};
ghost use Rattle.rule_book.specs.Batch.{is_same_position};
ghost use Rattle.fpl_loading.specs.Standing.{is_no_season, is_same_club, is_same_fixture, is_same_gameweek, is_same_player, is_unknown, lacks, rows_in, rows_same, rows_shown, view_of};

use fpl_base::{ClubId, Gw, ListOf, Memory, Moment, Name, Position, Rule};
use rule_book::{Fixture, Player};
use season_book::{Answer, Command, Shown, View};
use std::alloc::Global;

// What is asked of the season for a command.
pub(crate) fn view_of(command: &Command) -> View
    ensures { result ≡ view_of command.now }
{
    match command {
        Command::Player { id, .. } => View::Player { player: id.get() },
        Command::Fixture { id, .. } => View::Fixture { fixture: id.get() },
        _ => View::Season,
    }
}

// Whether the season lacks what a command would make, by what is told of that.
pub(crate) fn lacks(command: &Command, told: &Answer) -> bool
    ensures { result ≡ lacks command.now told.now }
{
    match command {
        Command::Season { .. } => is_no_season(told),
        Command::Player { .. } | Command::Fixture { .. } => is_unknown(told),
        _ => false,
    }
}

fn is_no_season(told: &Answer) -> bool
    ensures { result ≡ is_no_season told.now }
{
    match told {
        Answer::Rule(rule) => matches!(rule, Rule::NoSeason),
        _ => false,
    }
}

fn is_unknown(told: &Answer) -> bool
    ensures { result ≡ is_unknown told.now }
{
    matches!(told, Answer::Unknown)
}

// Which rows of a command say what the season says; `None` where nothing of it is shown.
pub(crate) fn rows_same(
    alloc: Global,
    command: &Command,
    told: &Answer,
) -> Result<Option<ListOf<bool>>, Memory>
    ensures { IfOk result (λ rows. rows ≡ rows_same command.now told.now) }
{
    match told {
        Answer::Shown(shown) => rows_shown(alloc, command, shown),
        _ => Ok(None),
    }
}

fn rows_shown(
    alloc: Global,
    command: &Command,
    shown: &Shown,
) -> Result<Option<ListOf<bool>>, Memory>
    ensures { IfOk result (λ rows. rows ≡ rows_shown command.now shown.now) }
{
    match command {
        Command::Season { clubs, .. } => match shown {
            Shown::Season(season) => {
                let rows = clubs_same(alloc, season.clubs.as_slice(), clubs.as_slice())?;
                Ok(Some(rows))
            }
            _ => Ok(None),
        },
        Command::Player {
            name,
            position,
            club,
            price,
            ..
        } => match shown {
            Shown::Player(player) => {
                let same = is_same_player(player, name, *position, *club, *price);
                Ok(Some(one_row(alloc, same)?))
            }
            _ => Ok(None),
        },
        Command::Fixture {
            home,
            away,
            gameweek,
            kickoff,
            ..
        } => match shown {
            Shown::Fixture(found) => {
                let same = is_same_fixture(&found.fixture, *home, *away, *gameweek, *kickoff);
                Ok(Some(one_row(alloc, same)?))
            }
            _ => Ok(None),
        },
        _ => Ok(None),
    }
}

fn one_row(alloc: Global, same: bool) -> Result<ListOf<bool>, Memory>
    ensures { IfOk result (λ rows. rows ≡ same ∷ []) }
{
    let mut rows = ListOf::with_room(alloc, 1)?;
    rows.push(same)?;
    Ok(rows)
}

fn clubs_same(
    alloc: Global,
    season: &[(ClubId, Name)],
    clubs: &[(ClubId, Name)],
) -> Result<ListOf<bool>, Memory>
    ensures { IfOk result (λ rows. rows ≡ map (is_same_club season.now) clubs.now) }
{
    let mut rows = ListOf::with_room(alloc, clubs.len())?;
    for club in clubs {
        rows.push(is_same_club(season, club))?;
    }
    Ok(rows)
}

fn is_same_club(season: &[(ClubId, Name)], row: &(ClubId, Name)) -> bool
    ensures { result ≡ is_same_club season.now row.now }
{
    season
        .iter()
        .any(|club| club.0 == row.0 && club.1.bytes() == row.1.bytes())
}

fn is_same_player(
    player: &Player,
    name: &Name,
    position: Position,
    club: ClubId,
    price: u16,
) -> bool
    ensures { result ≡ is_same_player player.now name.now position club price }
{
    player.name.bytes() == name.bytes()
        && is_same_position(player.position, position)
        && player.club == club
        && player.price.get() == u32::from(price)
}

fn is_same_position(one: Position, other: Position) -> bool
    ensures { result ≡ is_same_position one other }
{
    match one {
        Position::Keeper => matches!(other, Position::Keeper),
        Position::Defender => matches!(other, Position::Defender),
        Position::Midfielder => matches!(other, Position::Midfielder),
        Position::Forward => matches!(other, Position::Forward),
    }
}

fn is_same_fixture(
    fixture: &Fixture,
    home: ClubId,
    away: ClubId,
    gameweek: Option<Gw>,
    kickoff: Moment,
) -> bool
    ensures { result ≡ is_same_fixture fixture.now home away gameweek kickoff }
{
    fixture.home == home
        && fixture.away == away
        && is_same_gameweek(fixture.gw, gameweek)
        && fixture.kickoff == kickoff
}

fn is_same_gameweek(one: Option<Gw>, other: Option<Gw>) -> bool
    ensures { result ≡ is_same_gameweek one other }
{
    match one {
        Some(g) => match other {
            Some(h) => g == h,
            None => false,
        },
        None => match other {
            Some(_) => false,
            None => true,
        },
    }
}

// How many rows a command has.
pub(crate) fn rows_in(command: &Command) -> u64
    ensures { result ≡ rows_in command.now }
{
    match command {
        Command::Season { clubs, .. } => clubs.as_slice().len() as u64,
        _ => 1,
    }
}
