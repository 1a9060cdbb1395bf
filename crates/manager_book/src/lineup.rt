// Another order of the fifteen.
ghost use Rattle.std.specs.Prelude.{◌≡◌, List, None, Some, IfOk, MatchResult};
ghost use Rattle.rule_book.specs.Batch.{pick_of};
ghost use Rattle.rule_book.specs.declared.player.Player.{Player};
ghost use Rattle.rule_book.specs.Refusals.{IsJudged};
ghost use Rattle.season_ledger.specs.Rows.{AllUpTo};
ghost use Rattle.rule_book.specs.EntryCalls.{slot_of, first_stranger, lined_picks, lineup_deeds, order_refusal};
ghost use Rattle.manager_book.specs.Calls.{order_broken, IsLined};
ghost use Rattle.manager_book.specs.Deeds.{IsLineupDeed, IsWorkedOut};

use crate::deed::JudgedDeed;
use fpl_base::{Gw, PlayerId, Rule};
use rule_book::{Pick, Team};
use season_ledger::Entry;
use squad_rules::{check_lineup, first_repeat, positions_of};

// The team's pick of a player, if it has him.
fn pick_of(picks: &[Pick; 15], player: PlayerId) -> Option<Pick>
    ensures { result ≡ pick_of picks.now player }
{
    'picks: for pick in picks {
        if pick.player.get() == player.get() {
            return Some(*pick);
        }
    }
    None
}

// The slot in which a player stands; 0 where he is not among them.
pub fn slot_of(players: &[PlayerId; 15], player: PlayerId) -> u8
    ensures { result ≡ slot_of players.now player }
{
    for i in 0..15u8 {
        if players[i as usize].get() == player.get() {
            return i + 1;
        }
    }
    0
}

// The picks of the players in their order, or the first of them whom the team does not have.
fn lined(picks: &[Pick; 15], order: &[PlayerId; 15]) -> Result<[Pick; 15], PlayerId>
    ensures { MatchResult result
        (λ ks. (first_stranger picks.now order.now ≡ None) × (ks ≡ lined_picks picks.now order.now))
        (λ p. first_stranger picks.now order.now ≡ Some p) }
{
    let mut lined = [picks[0]; 15];
    for i in 0..15usize {
        let Some(pick) = pick_of(picks, order[i]) else {
            return Err(order[i]);
        };
        lined[i] = pick;
    }
    Ok(lined)
}

// The team in another order, where the order is legal.
fn team_lined(team: &Team, order: &[PlayerId; 15], captain: u8, vice: u8) -> Result<Team, Rule>
    ensures judged { IsJudged (order_refusal team.now order.now captain vice) result }
    ensures lined { IfOk result (IsLined order.now captain vice team.now) }
{
    let picks = match lined(&team.picks, order) {
        Ok(picks) => picks,
        Err(player) => return Err(Rule::NotHeld { player }),
    };
    if let Some(player) = first_repeat(order) {
        return Err(Rule::Twice { player });
    }
    match check_lineup(&positions_of(&picks), captain, vice) {
        Ok(()) => {}
        Err(rule) => return Err(rule),
    }
    Ok(Team {
        picks,
        captain,
        vice,
        bank: team.bank,
        chip: team.chip,
    })
}

/// An entry's fifteen in another order, with other armbands: the team in it. It takes no memory.
///
/// The first of these that holds refuses it: `NotRegistered`; `NotHeld`, the first of the players whom the team does not
/// have; `Twice`, the first who repeats an earlier one; then what `check_lineup` answers, a captain or vice-captain who
/// is not among the fifteen being `Captain`.
pub fn judge_lineup(
    season: &Entry,
    g: Gw,
    order: &[PlayerId; 15],
    captain: PlayerId,
    vice: PlayerId,
) -> Result<JudgedDeed, Rule>
    requires later { AllUpTo g season.now }
    ensures judged { IsJudged (order_broken season.now order.now captain vice g) result }
    ensures lineup { IfOk result (IsLineupDeed g order.now captain vice season.now) }
    ensures worked { (players : List Player)
        → IfOk result
        (IsWorkedOut g players season.now (λ _. lineup_deeds order.now captain vice)) }
{
    let Some(standing) = season.standing(g) else {
        return Err(Rule::NotRegistered);
    };
    let captain = slot_of(order, captain);
    let vice = slot_of(order, vice);
    let team = team_lined(&standing.team, order, captain, vice)?;
    Ok(JudgedDeed::Lineup { gameweek: g, team })
}
