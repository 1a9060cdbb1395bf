// Squads.
ghost use Rattle.std.specs.Prelude.{◌≡◌, ◌↔◌, IsOk};
ghost use Rattle.rule_book.specs.Repeats.{first_repeat};
ghost use Rattle.rule_book.specs.Squads.{IsSquad, players_of, positions_of, has_squad_shape, is_crowded, least_crowded, squad_refusal};
ghost use Rattle.rule_book.specs.Refusals.{IsJudged};

use crate::counts::{defenders, forwards, keepers, midfielders};
use fpl_base::{ClubId, PlayerId, Position, Rule};
use rule_book::Pick;

/// The players by slot.
pub fn players_of(picks: &[Pick; 15]) -> [PlayerId; 15]
    ensures { result ≡ players_of picks.now }
{
    let mut players = [picks[0].player; 15];
    for (place, pick) in picks.iter().enumerate() {
        players[place] = pick.player;
    }
    players
}

/// The positions by slot.
pub fn positions_of(picks: &[Pick; 15]) -> [Position; 15]
    ensures { result ≡ positions_of picks.now }
{
    let mut positions = [picks[0].position; 15];
    for (place, pick) in picks.iter().enumerate() {
        positions[place] = pick.position;
    }
    positions
}

/// The first of the players that repeats an earlier one, if one does. It looks at each pair, so it is for short lists.
pub fn first_repeat(players: &[PlayerId]) -> Option<PlayerId>
    ensures { result ≡ first_repeat players.now }
{
    for (place, player) in players.iter().enumerate() {
        if players[..place].contains(player) {
            return Some(*player);
        }
    }
    None
}

/// Whether there are two goalkeepers, five defenders, five midfielders and three forwards.
pub fn has_squad_shape(positions: &[Position; 15]) -> bool
    ensures { result ≡ has_squad_shape positions.now }
{
    if keepers(positions) != 2 || defenders(positions) != 5 || midfielders(positions) != 5 {
        return false;
    }
    forwards(positions) == 3
}

// Whether more than three of the players come from this club.
fn is_crowded(clubs: &[ClubId; 15], club: ClubId) -> bool
    ensures { result ≡ is_crowded clubs.now club }
{
    clubs.iter().filter(|other| **other == club).count() > 3
}

// The least club from which more than three players come.
fn least_crowded(clubs: &[ClubId; 15]) -> Option<ClubId>
    ensures { result ≡ least_crowded clubs.now }
{
    clubs
        .iter()
        .copied()
        .filter(|club| is_crowded(clubs, *club))
        .min()
}

/// Whether these fifteen are a legal squad, `clubs[n]` being the club of `picks[n]`.
///
/// `Twice` names the first player who stands in two slots, `SquadShape` says that they are not two goalkeepers, five
/// defenders, five midfielders and three forwards, and `ClubLimit` names the least club from which more than three
/// come. The first of them in this order is answered.
pub fn check_squad(picks: &[Pick; 15], clubs: &[ClubId; 15]) -> Result<(), Rule>
    ensures refusal { IsJudged (squad_refusal picks.now clubs.now) result }
    ensures legal { IsOk result ↔ IsSquad picks.now clubs.now }
{
    if let Some(player) = first_repeat(&players_of(picks)) {
        return Err(Rule::Twice { player });
    }
    if !has_squad_shape(&positions_of(picks)) {
        return Err(Rule::SquadShape);
    }
    if let Some(club) = least_crowded(clubs) {
        return Err(Rule::ClubLimit { club });
    }
    Ok(())
}
