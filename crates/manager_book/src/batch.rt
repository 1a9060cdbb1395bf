// A batch of transfers.
ghost use Rattle.std.specs.Prelude.{◌≡◌, ◌≤◌, ◌<◌, length, IfOk};
ghost use Rattle.rule_book.specs.Batch.{AreIncomersThere};
ghost use Rattle.rule_book.specs.EntryCalls.{batch_deeds};
ghost use Rattle.rule_book.specs.Refusals.{IsJudged};
ghost use Rattle.season_ledger.specs.Rows.{AllUpTo};
ghost use Rattle.manager_book.specs.Calls.{transfer_broken};
ghost use Rattle.manager_book.specs.Deeds.{IsBatchDeed, IsWorkedOut};

use crate::chips::is_first;
use crate::deed::JudgedDeed;
use crate::laws::rows_refuse_alike;
use fpl_base::{Gw, Rule};
use player_market::{Players, apply};
use rule_book::Swap;
use season_ledger::Entry;
use squad_rules::transfer_limit;

/// What a batch of 1 to 15 transfers comes to: the team after it, and its sales. It takes no memory.
///
/// The first of these that holds refuses it: `NotRegistered`; `TransferLimit`, the gameweek would have more than 20
/// transfers, or more than 1,000 in the first gameweek and under a wildcard or a free hit; then what `apply` answers.
pub fn judge_transfers(
    season: &Entry,
    g: Gw,
    players: &Players,
    swaps: &[Swap],
) -> Result<JudgedDeed, Rule>
    requires later { AllUpTo g season.now }
    requires early { g ≤ 38 }
    requires some { 0 < length swaps.now }
    requires few { length swaps.now ≤ 15 }
    requires there { AreIncomersThere players.now swaps.now }
    ensures judged { IsJudged (transfer_broken season.now players.now swaps.now g) result }
    ensures batch { IfOk result (IsBatchDeed g players.now swaps.now season.now) }
    ensures worked { IfOk result
        (IsWorkedOut g players.now season.now (λ h. batch_deeds players.now h swaps.now g)) }
{
    // The law by which the sales are those of the history, for the prover.
    rows_refuse_alike();
    let Some(standing) = season.standing(g) else {
        return Err(Rule::NotRegistered);
    };
    let limit = transfer_limit(is_first(season, g), season.chip(g));
    if season.made(g) + swaps.len() as u16 > limit {
        return Err(Rule::TransferLimit);
    }
    let (team, sales) = apply(&standing.team, swaps, players)?;
    Ok(JudgedDeed::Transfers {
        gameweek: g,
        team,
        sales,
    })
}
