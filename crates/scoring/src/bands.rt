// Whose points count more than once.
ghost use Rattle.std.specs.Prelude.{◌≡◌, ◌≤◌, IfSome};
ghost use Rattle.rule_book.specs.Teams.{InTeam};
ghost use Rattle.rule_book.specs.Armbands.{armband_of, factor_of};

use crate::slots::played;
use fpl_base::Chip;
use rule_book::{Armband, Figures, Team};

fn factor(chip: Chip) -> u8
    ensures value { result ≡ factor_of chip }
    ensures low { 2 ≤ result }
    ensures high { result ≤ 3 }
{
    match chip {
        Chip::TripleCaptain => 3,
        _ => 2,
    }
}

// The armband at a slot.
fn worn(slot: u8, chip: Chip) -> Armband
    ensures slot { result.slot ≡ slot }
    ensures factor { result.factor ≡ factor_of chip }
    ensures low { 2 ≤ result.factor }
    ensures high { result.factor ≤ 3 }
{
    Armband {
        slot,
        factor: factor(chip),
    }
}

/// The slot whose points count more than once, and how often. `None` says that nobody wears the armband: the gameweek
/// has ended, and neither captain nor vice-captain played.
pub fn armband(team: &Team, figures: &[Figures; 15], ended: bool) -> Option<Armband>
    requires captain { InTeam team.now.captain }
    requires vice { InTeam team.now.vice }
    ensures value { result ≡ armband_of team.now figures.now ended }
    ensures range { IfSome result (λ a. InTeam a.slot × (2 ≤ a.factor) × (a.factor ≤ 3)) }
{
    wearer(team, figures, ended)
}

// The same of any team, whatever its captain and its vice-captain are.
pub(crate) fn wearer(team: &Team, figures: &[Figures; 15], ended: bool) -> Option<Armband>
    ensures value { result ≡ armband_of team.now figures.now ended }
    ensures slot { InTeam team.now.captain → InTeam team.now.vice
        → IfSome result (λ a. InTeam a.slot) }
    ensures factor { IfSome result (λ a. (2 ≤ a.factor) × (a.factor ≤ 3)) }
{
    if !ended {
        return Some(worn(team.captain, team.chip));
    }
    if played(figures, team.captain) {
        return Some(worn(team.captain, team.chip));
    }
    if played(figures, team.vice) {
        return Some(worn(team.vice, team.chip));
    }
    None
}
