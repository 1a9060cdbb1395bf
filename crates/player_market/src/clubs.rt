// The clubs of a team after a batch.
ghost use Rattle.std.specs.Prelude.{◌≡◌, IsSome};
ghost use Rattle.rule_book.specs.Players.{player_of};
ghost use Rattle.rule_book.specs.Batch.{club_of, is_club_full, first_full_club, AreIncomersThere};

use crate::players::Players;
use fpl_base::{ClubId, PlayerId};
use rule_book::{Pick, Swap};

// The number of a player's club; 0 where he is not there.
fn club_of(players: &Players, player: PlayerId) -> u8
    ensures { result ≡ club_of players.now player }
{
    match players.get(player) {
        Some(there) => there.club.get(),
        None => 0,
    }
}

// The club of a player of the season.
fn club(players: &Players, player: PlayerId) -> ClubId
    requires { IsSome (player_of players.now player) }
    ensures { result ≡ club_of players.now player }
{
    players.get(player).unwrap().club
}

// Whether more than three play for a player's club.
fn is_club_full(players: &Players, picks: &[Pick; 15], player: PlayerId) -> bool
    ensures { result ≡ is_club_full players.now picks.now player }
{
    let club = club_of(players, player);
    let count = picks
        .iter()
        .filter(|pick| club_of(players, pick.player) == club)
        .count();
    count > 3
}

// The club of the first incomer whose club has more than three after the batch.
pub(crate) fn first_full_club(
    players: &Players,
    after: &[Pick; 15],
    swaps: &[Swap],
) -> Option<ClubId>
    requires { AreIncomersThere players.now swaps.now }
    ensures { result ≡ first_full_club players.now after.now swaps.now }
{
    for swap in swaps {
        if is_club_full(players, after, swap.into) {
            return Some(club(players, swap.into));
        }
    }
    None
}
