// A first squad.
ghost use Rattle.std.specs.Prelude.{◌≡◌, ◌≤◌, IsSome, IfSome, IfOk, All, find};
ghost use Rattle.std.specs.Option.{option_map};
ghost use Rattle.rule_book.specs.Batch.{is_gone};
ghost use Rattle.rule_book.specs.Players.{player_of};
ghost use Rattle.rule_book.specs.Refusals.{IsJudged};
ghost use Rattle.rule_book.specs.EntryCalls.{pick_from, picks_from, clubs_of, cost_of, first_refusal, squad_deeds};
ghost use Rattle.manager_book.specs.Calls.{squad_broken, IsFirstOf};
ghost use Rattle.manager_book.specs.Deeds.{IsSquadDeed, IsWorkedOut};

use crate::deed::JudgedDeed;
use crate::lineup::slot_of;
use fpl_base::{Chip, ClubId, Gw, PlayerId, Rule, Tenths};
use player_market::Players;
use rule_book::{Pick, Team};
use season_ledger::Entry;
use squad_rules::{check_lineup, check_squad, positions_of};

// A player bought at his present price, and his club.
fn bought(players: &Players, id: PlayerId) -> Option<(Pick, ClubId)>
    ensures { result ≡ option_map (λ p. (pick_from p, p.club)) (player_of players.now id) }
{
    match players.get(id) {
        Some(player) => Some((
            Pick {
                player: player.id,
                position: player.position,
                bought: player.price,
            },
            player.club,
        )),
        None => None,
    }
}

// Whether a player is marked as gone.
fn is_gone(players: &Players, id: PlayerId) -> bool
    ensures { result ≡ is_gone players.now id }
{
    match players.get(id) {
        Some(player) => player.gone,
        None => false,
    }
}

// The first of the fifteen who is marked as gone.
fn first_gone(players: &Players, squad: &[PlayerId; 15]) -> Option<PlayerId>
    ensures { result ≡ find (is_gone players.now) squad.now }
{
    'squad: for id in squad {
        if is_gone(players, *id) {
            return Some(*id);
        }
    }
    None
}

// The picks of the fifteen; None where one of them is not there.
fn picks_of(players: &Players, squad: &[PlayerId; 15]) -> Option<[Pick; 15]>
    ensures there { All (λ id. IsSome (player_of players.now id)) squad.now → IsSome result }
    ensures picks { IfSome result (λ ks. ks ≡ picks_from players.now squad.now) }
{
    let (first, _) = bought(players, squad[0])?;
    let mut picks = [first; 15];
    for i in 0..15usize {
        let Some((pick, _)) = bought(players, squad[i]) else {
            return None;
        };
        picks[i] = pick;
    }
    Some(picks)
}

// The clubs of the fifteen; None where one of them is not there.
fn clubs_of(players: &Players, squad: &[PlayerId; 15]) -> Option<[ClubId; 15]>
    ensures there { All (λ id. IsSome (player_of players.now id)) squad.now → IsSome result }
    ensures clubs { IfSome result (λ cs. cs ≡ clubs_of players.now squad.now) }
{
    let (_, first) = bought(players, squad[0])?;
    let mut clubs = [first; 15];
    for i in 0..15usize {
        let Some((_, club)) = bought(players, squad[i]) else {
            return None;
        };
        clubs[i] = club;
    }
    Some(clubs)
}

// What the fifteen cost.
fn cost_of(picks: &[Pick; 15]) -> u32
    ensures cost { result ≡ cost_of picks.now }
    ensures most { result ≤ 150000000 }
{
    let mut sum = 0;
    'picks: for pick in picks {
        sum += pick.bought.get();
    }
    sum
}

// The first team, where it is legal.
fn first_team(
    players: &Players,
    squad: &[PlayerId; 15],
    captain: u8,
    vice: u8,
) -> Result<Team, Rule>
    requires { All (λ id. IsSome (player_of players.now id)) squad.now }
    ensures judged { IsJudged (first_refusal players.now squad.now captain vice) result }
    ensures team { IfOk result (IsFirstOf players.now squad.now captain vice) }
{
    if let Some(player) = first_gone(players, squad) {
        return Err(Rule::PlayerGone { player });
    }
    let Some(picks) = picks_of(players, squad) else {
        return Err(Rule::SquadShape);
    };
    let Some(clubs) = clubs_of(players, squad) else {
        return Err(Rule::SquadShape);
    };
    match check_squad(&picks, &clubs) {
        Ok(()) => {}
        Err(rule) => return Err(rule),
    }
    let cost = cost_of(&picks);
    if cost > 1000 {
        return Err(Rule::OverBudget {
            short_by: cost - 1000,
        });
    }
    match check_lineup(&positions_of(&picks), captain, vice) {
        Ok(()) => {}
        Err(rule) => return Err(rule),
    }
    let Some(bank) = Tenths::new(1000 - cost) else {
        return Err(Rule::SquadShape);
    };
    Ok(Team {
        picks,
        captain,
        vice,
        bank,
        chip: Chip::None,
    })
}

/// A first squad, each player bought at his present price, out of 100.0 million: the team. It takes no memory.
///
/// The first of these that holds refuses it: `Registered`; `PlayerGone`; then what `check_squad` answers; `OverBudget`;
/// then what `check_lineup` answers, a captain or vice-captain who is not among the fifteen being `Captain`.
pub fn judge_squad(
    season: &Entry,
    g: Gw,
    players: &Players,
    squad: &[PlayerId; 15],
    captain: PlayerId,
    vice: PlayerId,
) -> Result<JudgedDeed, Rule>
    requires { All (λ id. IsSome (player_of players.now id)) squad.now }
    ensures judged { IsJudged (squad_broken season.now players.now squad.now captain vice) result }
    ensures squad { IfOk result (IsSquadDeed g players.now squad.now captain vice) }
    ensures worked { IfOk result
        (IsWorkedOut g players.now season.now
        (λ _. squad_deeds players.now squad.now captain vice)) }
{
    // That the players of a season have prices in range, for the prover.
    let _count = players.len();
    if season.first().is_some() {
        return Err(Rule::Registered);
    }
    let captain = slot_of(squad, captain);
    let vice = slot_of(squad, vice);
    let team = first_team(players, squad, captain, vice)?;
    Ok(JudgedDeed::Squad { gameweek: g, team })
}
