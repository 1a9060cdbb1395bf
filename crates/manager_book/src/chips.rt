// Chips: played, and taken back.
ghost use Rattle.std.specs.Prelude.{◌≡◌, List, IfOk};
ghost use Rattle.rule_book.specs.declared.player.Player.{Player};
ghost use Rattle.rule_book.specs.EntryCalls.{cancel_deeds, chip_deeds};
ghost use Rattle.rule_book.specs.Refusals.{IsJudged};
ghost use Rattle.season_ledger.specs.Rows.{AllUpTo};
ghost use Rattle.manager_book.specs.Calls.{is_first, play_broken, cancel_broken};
ghost use Rattle.manager_book.specs.Deeds.{IsWorkedOut};
ghost use Rattle.manager_book.specs.declared.deed.JudgedDeed.TheVariants as judged;

use crate::deed::JudgedDeed;
use fpl_base::{Chip, Gw, Rule};
use season_ledger::Entry;
use squad_rules::{can_cancel, is_same_chip, makes_free};

// Whether a gameweek is the entry's first.
pub fn is_first(season: &Entry, g: Gw) -> bool
    ensures { result ≡ is_first season.now g }
{
    match season.first() {
        Some(first) => first.get() == g.get(),
        None => false,
    }
}

/// A chip that is played in a gameweek; `split` is the last gameweek of the season's first half. It takes no memory.
///
/// The first of these that holds refuses it: `NotRegistered`; `ChipEarly`, a wildcard or a free hit in the entry's first
/// gameweek; `ChipPlayed`, a chip stands in the gameweek; `ChipUsed`, the chip was played in an earlier gameweek, for a
/// wildcard in one of the same half.
pub fn judge_chip(season: &Entry, g: Gw, split: u8, chip: Chip) -> Result<JudgedDeed, Rule>
    requires later { AllUpTo g season.now }
    ensures judged { IsJudged (play_broken season.now split chip g) result }
    ensures chip { IfOk result (λ deed. deed ≡ judged.Chip g chip) }
    ensures worked { (players : List Player)
        → IfOk result (IsWorkedOut g players season.now (λ _. chip_deeds chip)) }
{
    if season.first().is_none() {
        return Err(Rule::NotRegistered);
    }
    if is_first(season, g) && makes_free(chip) {
        return Err(Rule::ChipEarly);
    }
    if !is_same_chip(season.chip(g), Chip::None) {
        return Err(Rule::ChipPlayed);
    }
    if let Some(gameweek) = season.chip_used(split, chip, g) {
        return Err(Rule::ChipUsed { gameweek });
    }
    Ok(JudgedDeed::Chip { gameweek: g, chip })
}

/// The chip of a gameweek is taken back, as if it had not been played.
///
/// The first of these that holds refuses it: `NotRegistered`; `NoChip`, none stands; `ChipFixed`, a wildcard or a free
/// hit stands.
pub fn judge_cancel(season: &Entry, g: Gw) -> Result<JudgedDeed, Rule>
    requires later { AllUpTo g season.now }
    ensures judged { IsJudged (cancel_broken season.now g) result }
    ensures cancel { IfOk result (λ deed. deed ≡ judged.Cancel g) }
    ensures worked { (players : List Player)
        → IfOk result (IsWorkedOut g players season.now (λ _. cancel_deeds)) }
{
    if season.first().is_none() {
        return Err(Rule::NotRegistered);
    }
    let chip = season.chip(g);
    if is_same_chip(chip, Chip::None) {
        return Err(Rule::NoChip);
    }
    if !can_cancel(chip) {
        return Err(Rule::ChipFixed);
    }
    Ok(JudgedDeed::Cancel { gameweek: g })
}
