// What a slot holds. Of a slot that no team has, the figures are those of the definitions: slot 0 has those of slot 1,
// and a slot after the fifteenth has none.
ghost use Rattle.std.specs.Prelude.{◌≡◌, ◌≤◌, ◌-◌, ◌≤ℤ◌, All, pos, negsuc, option_copied, slice_get};
ghost use Rattle.rule_book.specs.Teams.{InTeam, did_play, defender_at, midfielder_at, forward_at};
ghost use Rattle.rule_book.specs.TeamScores.{IsModest, points_at, goals_at, conceded_at};

use fpl_base::Position;
use rule_book::{Figures, Team};

// The figures of a slot, if it has any.
fn figures_at(figures: &[Figures; 15], slot: u8) -> Option<&Figures>
    ensures { option_copied result ≡ slice_get figures.now (slot - 1) }
{
    figures.get(usize::from(slot.saturating_sub(1)))
}

pub(crate) fn played(figures: &[Figures; 15], slot: u8) -> bool
    ensures { result ≡ did_play figures.now slot }
{
    match figures_at(figures, slot) {
        Some(there) => there.played,
        None => false,
    }
}

pub(crate) fn is_defender(team: &Team, slot: u8) -> bool
    requires { InTeam slot }
    ensures { result ≡ defender_at team.now slot }
{
    team.picks[(slot - 1) as usize].position == Position::Defender
}

pub(crate) fn is_midfielder(team: &Team, slot: u8) -> bool
    requires { InTeam slot }
    ensures { result ≡ midfielder_at team.now slot }
{
    team.picks[(slot - 1) as usize].position == Position::Midfielder
}

pub(crate) fn is_forward(team: &Team, slot: u8) -> bool
    requires { InTeam slot }
    ensures { result ≡ forward_at team.now slot }
{
    team.picks[(slot - 1) as usize].position == Position::Forward
}

pub(crate) fn points(figures: &[Figures; 15], slot: u8) -> i32
    requires { All IsModest figures.now }
    ensures value { result ≡ points_at figures.now slot }
    ensures low { negsuc 999999 ≤ℤ result }
    ensures high { result ≤ℤ pos 1000000 }
{
    match figures_at(figures, slot) {
        Some(there) => there.points,
        None => 0,
    }
}

pub(crate) fn goals(figures: &[Figures; 15], slot: u8) -> u32
    requires { All IsModest figures.now }
    ensures value { result ≡ goals_at figures.now slot }
    ensures high { result ≤ 1000000 }
{
    match figures_at(figures, slot) {
        Some(there) => there.goals,
        None => 0,
    }
}

pub(crate) fn conceded(figures: &[Figures; 15], slot: u8) -> u32
    requires { All IsModest figures.now }
    ensures value { result ≡ conceded_at figures.now slot }
    ensures high { result ≤ 1000000 }
{
    match figures_at(figures, slot) {
        Some(there) => there.conceded,
        None => 0,
    }
}
