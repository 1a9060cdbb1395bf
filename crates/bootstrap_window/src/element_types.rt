// The positions, as a window shows them.
ghost use Rattle.std.specs.Prelude.{◌≡◌, ◌≤◌, Some, slice_get, if◌then◌else◌};
ghost use Rattle.rule_book.specs.declared.player.Player.{Player};
ghost use Rattle.json_members.specs.Tokens.{Appends, tokens_of};
ghost use Rattle.season_book.specs.ElementTypes.{element_type_data, element_type_row, element_types_window, in_squads, is_position, least_in_play, most_in_play, players_at, plural_of, position_number, short_of, singular_of};

use fpl_base::Position;
use json::Writer;
use json_members::{write_count, write_text};
use player_market::Players;
use std::alloc::AllocError;

/// The four positions, each with the number of its players.
pub fn write_element_types(out: &mut Writer, players: &Players) -> Result<(), AllocError>
    ensures { Appends result out.old out.new (tokens_of (element_types_window players.now)) }
{
    out.begin_array()?;
    write_element_type(out, players, Position::Keeper)?;
    write_element_type(out, players, Position::Defender)?;
    write_element_type(out, players, Position::Midfielder)?;
    write_element_type(out, players, Position::Forward)?;
    out.end_array()
}

fn write_element_type(
    out: &mut Writer,
    players: &Players,
    position: Position,
) -> Result<(), AllocError>
    ensures { Appends result out.old out.new (tokens_of (element_type_row players.now position)) }
{
    write_position(out, players_at(players, position), position)
}

// A position that so many players have.
fn write_position(out: &mut Writer, players: u64, position: Position) -> Result<(), AllocError>
    ensures { Appends result out.old out.new (tokens_of (element_type_data players position)) }
{
    out.begin_object()?;
    write_count(out, "element_count", players)?;
    write_count(out, "id", position_number(position))?;
    write_text(out, "plural_name", plural_of(position))?;
    write_text(out, "plural_name_short", short_of(position))?;
    write_text(out, "singular_name", singular_of(position))?;
    write_text(out, "singular_name_short", short_of(position))?;
    write_count(out, "squad_max_play", most_in_play(position))?;
    write_count(out, "squad_min_play", least_in_play(position))?;
    write_count(out, "squad_select", in_squads(position))?;
    out.end_object()
}

// How many players have a position.
fn players_at(players: &Players, position: Position) -> u64
    ensures { result ≡ players_at players.now position }
{
    let mut many = 0;
    for place in 0..players.len() {
        many += one_at(players, place, position);
    }
    many
}

// 1 where the player at a place has a position.
fn one_at(players: &Players, place: usize, position: Position) -> u64
    ensures value { (player : Player) → slice_get players.now place ≡ Some player
        → result ≡ (if is_position position player.position then 1 else 0) }
    ensures bound { result ≤ 1 }
{
    match players.at(place) {
        Some(player) => u64::from(is_position(position, player.position)),
        None => 0,
    }
}

// Whether a position is this one.
fn is_position(position: Position, other: Position) -> bool
    ensures { result ≡ is_position position other }
{
    match position {
        Position::Keeper => matches!(other, Position::Keeper),
        Position::Defender => matches!(other, Position::Defender),
        Position::Midfielder => matches!(other, Position::Midfielder),
        Position::Forward => matches!(other, Position::Forward),
    }
}

/// The number of a position, from 1.
pub fn position_number(position: Position) -> u64
    ensures { result ≡ position_number position }
{
    match position {
        Position::Keeper => 1,
        Position::Defender => 2,
        Position::Midfielder => 3,
        Position::Forward => 4,
    }
}

fn singular_of(position: Position) -> &'static str
    ensures { result.now ≡ singular_of position }
{
    match position {
        Position::Keeper => "Goalkeeper",
        Position::Defender => "Defender",
        Position::Midfielder => "Midfielder",
        Position::Forward => "Forward",
    }
}

fn plural_of(position: Position) -> &'static str
    ensures { result.now ≡ plural_of position }
{
    match position {
        Position::Keeper => "Goalkeepers",
        Position::Defender => "Defenders",
        Position::Midfielder => "Midfielders",
        Position::Forward => "Forwards",
    }
}

fn short_of(position: Position) -> &'static str
    ensures { result.now ≡ short_of position }
{
    match position {
        Position::Keeper => "GKP",
        Position::Defender => "DEF",
        Position::Midfielder => "MID",
        Position::Forward => "FWD",
    }
}

// How many of a position play at most and at least, and how many are in a squad.

fn most_in_play(position: Position) -> u64
    ensures { result ≡ most_in_play position }
{
    match position {
        Position::Keeper => 1,
        Position::Defender | Position::Midfielder => 5,
        Position::Forward => 3,
    }
}

fn least_in_play(position: Position) -> u64
    ensures { result ≡ least_in_play position }
{
    match position {
        Position::Keeper | Position::Forward => 1,
        Position::Defender => 3,
        Position::Midfielder => 2,
    }
}

fn in_squads(position: Position) -> u64
    ensures { result ≡ in_squads position }
{
    match position {
        Position::Keeper => 2,
        Position::Defender | Position::Midfielder => 5,
        Position::Forward => 3,
    }
}
