// What refuses a batch: each look-up finds the first swap that breaks a rule.
ghost use Rattle.std.specs.Prelude.{◌≡◌, ◌==◌, not, ◌||◌};
ghost use Rattle.std.specs.List.{list_any};
ghost use Rattle.rule_book.specs.Batch.{is_same_position, is_held, pick_of, first_not_held, first_held, is_gone, first_gone, plays_at, moves_position, first_moved};

use crate::players::Players;
use fpl_base::{PlayerId, Position};
use rule_book::{Pick, Swap};

// Whether the team has the player.
pub(crate) fn is_held(picks: &[Pick; 15], player: PlayerId) -> bool
    ensures { result ≡ is_held picks.now player }
{
    picks.iter().any(|pick| pick.player == player)
}

// The team's pick of a player, if it has him.
pub(crate) fn pick_of(picks: &[Pick; 15], player: PlayerId) -> Option<Pick>
    ensures { result ≡ pick_of picks.now player }
{
    for pick in picks {
        if pick.player == player {
            return Some(*pick);
        }
    }
    None
}

// Whether a player goes in one of the swaps.
fn has_gone(swaps: &[Swap], player: PlayerId) -> bool
    ensures { result ≡ list_any (λ swap. swap.out == player) swaps.now }
{
    swaps.iter().any(|swap| swap.out == player)
}

// Whether a player comes in one of the swaps.
fn has_come(swaps: &[Swap], player: PlayerId) -> bool
    ensures { result ≡ list_any (λ swap. swap.into == player) swaps.now }
{
    swaps.iter().any(|swap| swap.into == player)
}

// Whether a player cannot go after some swaps of the batch: he is not in the team, or has gone.
fn cannot_go(picks: &[Pick; 15], earlier: &[Swap], player: PlayerId) -> bool
    ensures { result
        ≡ (not (is_held picks.now player) || list_any (λ swap. swap.out == player) earlier.now) }
{
    !is_held(picks, player) || has_gone(earlier, player)
}

// Whether a player cannot come after some swaps of the batch: he is in the team, or has come.
fn cannot_come(picks: &[Pick; 15], earlier: &[Swap], player: PlayerId) -> bool
    ensures { result
        ≡ (is_held picks.now player || list_any (λ swap. swap.into == player) earlier.now) }
{
    is_held(picks, player) || has_come(earlier, player)
}

// The first who goes and is not in the team, or has gone in an earlier swap.
pub(crate) fn first_not_held(picks: &[Pick; 15], swaps: &[Swap]) -> Option<PlayerId>
    ensures { result ≡ first_not_held picks.now swaps.now }
{
    for (place, swap) in swaps.iter().enumerate() {
        if cannot_go(picks, &swaps[..place], swap.out) {
            return Some(swap.out);
        }
    }
    None
}

// The first incomer who is in the team, or came in an earlier swap.
pub(crate) fn first_held(picks: &[Pick; 15], swaps: &[Swap]) -> Option<PlayerId>
    ensures { result ≡ first_held picks.now swaps.now }
{
    for (place, swap) in swaps.iter().enumerate() {
        if cannot_come(picks, &swaps[..place], swap.into) {
            return Some(swap.into);
        }
    }
    None
}

// Whether a player is marked as gone.
fn is_gone(players: &Players, player: PlayerId) -> bool
    ensures { result ≡ is_gone players.now player }
{
    match players.get(player) {
        Some(there) => there.gone,
        None => false,
    }
}

// The first incomer who is marked as gone.
pub(crate) fn first_gone(players: &Players, swaps: &[Swap]) -> Option<PlayerId>
    ensures { result ≡ first_gone players.now swaps.now }
{
    for swap in swaps {
        if is_gone(players, swap.into) {
            return Some(swap.into);
        }
    }
    None
}

fn is_same_position(one: Position, other: Position) -> bool
    ensures { result ≡ is_same_position one other }
{
    one == other
}

// Whether a player plays at a position.
fn plays_at(players: &Players, position: Position, player: PlayerId) -> bool
    ensures { result ≡ plays_at players.now position player }
{
    match players.get(player) {
        Some(there) => is_same_position(there.position, position),
        None => false,
    }
}

// Whether the incomer plays at another position than the one who goes.
fn moves_position(players: &Players, picks: &[Pick; 15], swap: Swap) -> bool
    ensures { result ≡ moves_position players.now picks.now swap }
{
    match pick_of(picks, swap.out) {
        Some(pick) => !plays_at(players, pick.position, swap.into),
        None => false,
    }
}

// The first incomer who does.
pub(crate) fn first_moved(players: &Players, picks: &[Pick; 15], swaps: &[Swap]) -> Option<PlayerId>
    ensures { result ≡ first_moved players.now picks.now swaps.now }
{
    for swap in swaps {
        if moves_position(players, picks, *swap) {
            return Some(swap.into);
        }
    }
    None
}
