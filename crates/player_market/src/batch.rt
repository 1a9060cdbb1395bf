// A batch of transfers, done to a team.
ghost use Rattle.std.specs.Prelude.{◌≡◌, ◌<◌, ◌≤◌, ◌+◌, ◌*◌, ℕ, length, map, IfOk, All};
ghost use Rattle.fpl_base.specs.declared.kinds.Position.{Position};
ghost use Rattle.rule_book.specs.Refusals.{IsJudged};
ghost use Rattle.rule_book.specs.Batch.{sales_of, IsTeamAfter, batch_refusal, AreIncomersThere, GoOneByOne, AreDifferent, ArePlaced, HavePositions};
ghost use Rattle.player_market.specs.Bounds.{IsCheap};

use crate::clubs::first_full_club;
use crate::judge::{first_gone, first_held, first_moved, first_not_held};
use crate::players::Players;
use crate::sales::Sales;
use crate::trade::{bank_after, picks_after, sales_of};
use fpl_base::Rule;
use rule_book::{Swap, Team};

/// Does a batch of transfers to a team: all who go are sold, then all who come are bought at their present prices. It
/// answers the team after it and the sales. Each incomer takes the slot of the one who goes.
///
/// The first of these that holds refuses it, each tried over all swaps in their order before the next: `NotHeld`, one
/// who goes is not in the team or goes twice; `Held`, an incomer is in the team before the batch or comes twice;
/// `PlayerGone`, an incomer is marked as gone; `PositionSwap`, an incomer plays at another position than the one who
/// goes; `ClubLimit`, the club of an incomer has more than three afterwards; `OverBudget`, the money is short.
pub fn apply(team: &Team, swaps: &[Swap], players: &Players) -> Result<(Team, Sales), Rule>
    requires some { 0 < length swaps.now }
    requires few { length swaps.now ≤ 15 }
    requires there { AreIncomersThere players.now swaps.now }
    requires room { team.now.bank ≤ 9990000 }

    ensures judged { IsJudged (batch_refusal players.now team.now swaps.now) result }
    ensures sales { IfOk result (λ done. done.1 ≡ sales_of players.now team.now.picks swaps.now) }
    ensures team { IfOk result (λ done. IsTeamAfter done.1 team.now done.0) }

    // What follows of them for whoever keeps a team over many batches.
    ensures one_by_one { IfOk result (λ done. GoOneByOne done.1 team.now.picks done.0.picks) }
    ensures different { IfOk result
        (λ done. AreDifferent team.now.picks → AreDifferent done.0.picks) }
    ensures positions { IfOk result
        (λ done. map (λ k. k.position) done.0.picks ≡ map (λ k. k.position) team.now.picks) }
    ensures placed { IfOk result
        (λ done. (position : ℕ → Position) → HavePositions position players.now
        → ArePlaced position team.now.picks → ArePlaced position done.0.picks) }
    ensures cheap { IfOk result (λ done. All IsCheap done.1) }
    ensures gain { IfOk result (λ done. done.0.bank ≤ team.now.bank + 200 * length done.1) }
{
    if let Some(player) = first_not_held(&team.picks, swaps) {
        return Err(Rule::NotHeld { player });
    }
    if let Some(player) = first_held(&team.picks, swaps) {
        return Err(Rule::Held { player });
    }
    if let Some(player) = first_gone(players, swaps) {
        return Err(Rule::PlayerGone { player });
    }
    if let Some(player) = first_moved(players, &team.picks, swaps) {
        return Err(Rule::PositionSwap { player });
    }
    let sales = sales_of(players, &team.picks, swaps);
    let picks = picks_after(sales.as_slice(), &team.picks);
    if let Some(club) = first_full_club(players, &picks, swaps) {
        return Err(Rule::ClubLimit { club });
    }
    let bank = match bank_after(team.bank, sales.as_slice()) {
        Ok(bank) => bank,
        Err(short_by) => return Err(Rule::OverBudget { short_by }),
    };
    let after = Team {
        picks,
        captain: team.captain,
        vice: team.vice,
        bank,
        chip: team.chip,
    };
    Ok((after, sales))
}
