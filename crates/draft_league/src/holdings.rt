// Who owns whom.
ghost use Rattle.std.specs.Prelude.{◌≡◌, ◌==◌, if◌then◌else◌};
ghost use Rattle.draft_league.specs.Holdings.{count_in, exchanged, is_position, number_in, owner_in, position_in};

use crate::Holding;
use fpl_base::{PlayerId, Position};

pub(crate) fn is_position(one: Position, other: Position) -> bool
    ensures { result ≡ is_position one other }
{
    match one {
        Position::Keeper => other == Position::Keeper,
        Position::Defender => other == Position::Defender,
        Position::Midfielder => other == Position::Midfielder,
        Position::Forward => other == Position::Forward,
    }
}

// How many players of a position a member has.
pub(crate) fn number_in(position: Position) -> usize
    ensures { result ≡ number_in position }
{
    match position {
        Position::Keeper => 2,
        Position::Defender | Position::Midfielder => 5,
        Position::Forward => 3,
    }
}

// Who owns a player.
pub(crate) fn owner_in(held: &[Holding], player: PlayerId) -> Option<u8>
    ensures { result ≡ owner_in held.now player }
{
    held.iter()
        .find(|holding| holding.player == player)
        .map(|holding| holding.member)
}

// The position of a player whom somebody owns.
pub(crate) fn position_in(held: &[Holding], player: PlayerId) -> Option<Position>
    ensures { result ≡ position_in held.now player }
{
    held.iter()
        .find(|holding| holding.player == player)
        .map(|holding| holding.position)
}

// How many players of a position a member owns.
pub(crate) fn count_in(held: &[Holding], member: u8, position: Position) -> usize
    ensures { result ≡ count_in held.now member position }
{
    held.iter()
        .filter(|holding| holding.member == member && is_position(position, holding.position))
        .count()
}

// A player comes in for another.
pub(crate) fn exchange(held: &mut [Holding], out: PlayerId, into: PlayerId)
    ensures { held.new ≡ exchanged out into held.old }
{
    for holding in held.iter_mut() {
        holding.player = behind(holding.player, out, into);
    }
}

// The player behind an exchange in the place of this one.
fn behind(player: PlayerId, out: PlayerId, into: PlayerId) -> PlayerId
    ensures { result ≡ (if player == out then into else player) }
{
    if player == out { into } else { player }
}
