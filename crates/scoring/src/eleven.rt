// The eleven that count.
ghost use Rattle.std.specs.Prelude.{◌≡◌, ◌≢◌, ◌≤◌, ℕ, true, All, AllPairs};
ghost use Rattle.rule_book.specs.Teams.{InTeam, did_play, is_still};
ghost use Rattle.rule_book.specs.Elevens.{IsFinal, IsKeeperSlot, OneEleven, HasOneEleven, ElevensAreLegal, EnoughForElevens, slot_of};

use crate::substitutions::substituted;
use fpl_base::Chip;
use rule_book::{Eleven, Figures, Team};
use squad_rules::enough_is_formation;

fn is_still(team: &Team, ended: bool) -> bool
    ensures { result ≡ is_still ended team.now }
{
    !ended || team.chip == Chip::BenchBoost
}

/// The slots that stand for the starters, `figures[n - 1]` being those of slot n. Before the gameweek has ended, and
/// under a bench boost, each starter stands for himself.
pub fn final_eleven(team: &Team, figures: &[Figures; 15], ended: bool) -> Eleven
    ensures assigned { IsFinal team.now figures.now ended result.slots }
    ensures known { All InTeam result.slots }
    ensures keeper { IsKeeperSlot (slot_of result.slots 1) }
    ensures once { AllPairs (λ one other. one ≢ other) result.slots }
    ensures played { (n : ℕ) → 1 ≤ n → n ≤ 11 → did_play figures.now n ≡ true
        → slot_of result.slots n ≡ n }
{
    if is_still(team, ended) {
        return Eleven {
            slots: [1, 2, 3, 4, 5, 6, 7, 8, 9, 10, 11],
        };
    }
    substituted(team, figures)
}

/// At most one eleven is the final one.
pub fn one_eleven()
    ensures { OneEleven }
{}

/// Exactly one eleven is the final one, whatever the team and its players did.
pub fn has_one_eleven(team: &Team, figures: &[Figures; 15], ended: bool)
    ensures { HasOneEleven team.now figures.now ended }
{
    // There is the one that this finds, for the prover.
    let _ = final_eleven(team, figures, ended);
}

/// The final eleven of a team with a legal lineup is a legal formation.
pub fn elevens_are_legal()
    ensures { ElevensAreLegal }
{
    // The law on which it stands, for the prover.
    enough_is_formation();
}

/// Where a starter of a team with a legal lineup is replaced, an eleven is a formation exactly where it has one
/// goalkeeper, three defenders and a forward.
pub fn enough_for_elevens()
    ensures { EnoughForElevens }
{}
