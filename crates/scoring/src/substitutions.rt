// The substitutions of an ended gameweek, starter by starter.
ghost use Rattle.std.specs.Prelude.{◌≡◌, ◌≤◌, ◌+◌, ◌-◌, ◌++◌, ◌∷◌, true, false, find, take, drop, slice_set, slice_index_or, All, IfSome};
ghost use Rattle.rule_book.specs.Teams.{InTeam, starters, bench};
ghost use Rattle.rule_book.specs.Elevens.{IsSubstituted, can_stand, is_legal_eleven, keeper_for};
ghost use Rattle.scoring.specs.Counts.{AreCountsAfter, HasCounted};
ghost use Rattle.scoring.specs.Standing.{Standing};

use crate::counts::Counts;
use crate::slots::played;
use rule_book::{Eleven, Figures, Team};
use squad_rules::formation_ok;

// The eleven as far as the substitutions have come, with its counts, and a mark for each of the bench that is used.
#[derive(Drop)]
pub(crate) struct Progress {
    slots: [u8; 11],
    used: [bool; 3],
    counts: Counts,
}

// The slot that stands for the goalkeeper.
fn keeper_slot(figures: &[Figures; 15]) -> u8
    ensures value { result ≡ keeper_for figures.now }
    ensures known { InTeam result }
{
    if !played(figures, 1) && played(figures, 12) {
        12
    } else {
        1
    }
}

// The eleven before any outfield starter is settled.
fn start(team: &Team, figures: &[Figures; 15]) -> Progress
    ensures { Standing team.now figures.now 2 result }
{
    let slots = [keeper_slot(figures), 2, 3, 4, 5, 6, 7, 8, 9, 10, 11];
    Progress {
        slots,
        used: [false; 3],
        counts: Counts::of(team, &slots),
    }
}

// Whether the formation stays legal with slot `bench` for starter `n`.
fn fits(team: &Team, figures: &[Figures; 15], progress: &Progress, n: u8, bench: u8) -> bool
    requires standing { Standing team.now figures.now n progress.now }
    requires low { 2 ≤ n }
    requires high { n ≤ 11 }
    requires from { 13 ≤ bench }
    requires to { bench ≤ 15 }
    ensures { result
        ≡ is_legal_eleven team.now (take (n - 1) progress.now.slots ++ bench ∷ drop n starters) }
{
    let counts = progress.counts.after(team, n, bench);
    formation_ok(counts.defenders, counts.midfielders, counts.forwards)
}

// Whether slot `bench` stands for a starter already.
fn is_marked(used: &[bool; 3], bench: u8) -> bool
    requires from { 13 ≤ bench }
    requires to { bench ≤ 15 }
    ensures { result ≡ slice_index_or used.now (bench - 13) false }
{
    used[(bench - 13) as usize]
}

// Whether slot `bench` can stand for starter `n`.
fn stands(team: &Team, figures: &[Figures; 15], progress: &Progress, n: u8, bench: u8) -> bool
    requires standing { Standing team.now figures.now n progress.now }
    requires low { 2 ≤ n }
    requires high { n ≤ 11 }
    requires from { 13 ≤ bench }
    requires to { bench ≤ 15 }
    ensures { result ≡ can_stand team.now figures.now (take (n - 1) progress.now.slots) n bench }
{
    if !played(figures, bench) {
        return false;
    }
    if is_marked(&progress.used, bench) {
        return false;
    }
    fits(team, figures, progress, n, bench)
}

// The first of the bench that can stand for starter `n`.
fn replacement(team: &Team, figures: &[Figures; 15], progress: &Progress, n: u8) -> Option<u8>
    requires standing { Standing team.now figures.now n progress.now }
    requires low { 2 ≤ n }
    requires high { n ≤ 11 }
    ensures first { result
        ≡ find (can_stand team.now figures.now (take (n - 1) progress.now.slots) n) bench }
    ensures range { IfSome result (λ slot. (13 ≤ slot) × (slot ≤ 15)) }
{
    if stands(team, figures, progress, n, 13) {
        Some(13)
    } else if stands(team, figures, progress, n, 14) {
        Some(14)
    } else if stands(team, figures, progress, n, 15) {
        Some(15)
    } else {
        None
    }
}

// Puts slot `bench` for starter `n`.
fn replace(team: &Team, progress: &mut Progress, n: u8, bench: u8)
    requires low { 2 ≤ n }
    requires high { n ≤ 11 }
    requires from { 13 ≤ bench }
    requires to { bench ≤ 15 }
    requires counted { HasCounted team.now n progress.old.counts }
    ensures slots { progress.new.slots ≡ slice_set progress.old.slots (n - 1) bench }
    ensures used { progress.new.used ≡ slice_set progress.old.used (bench - 13) true }
    ensures counts { AreCountsAfter team.now n bench progress.old.counts progress.new.counts }
{
    progress.slots[(n - 1) as usize] = bench;
    progress.used[(bench - 13) as usize] = true;
    progress.counts = progress.counts.after(team, n, bench);
}

// Settles who stands for starter `n`.
fn settle(team: &Team, figures: &[Figures; 15], progress: &mut Progress, n: u8)
    requires standing { Standing team.now figures.now n progress.old }
    requires low { 2 ≤ n }
    requires high { n ≤ 11 }
    ensures { Standing team.now figures.now (n + 1) progress.new }
{
    if played(figures, n) {
        return;
    }
    match replacement(team, figures, progress, n) {
        Some(bench) => replace(team, progress, n, bench),
        None => {}
    }
}

/// The eleven after all substitutions.
pub(crate) fn substituted(team: &Team, figures: &[Figures; 15]) -> Eleven
    ensures substituted { IsSubstituted team.now figures.now result.slots }
    ensures known { All InTeam result.slots }
{
    let mut progress = start(team, figures);
    for n in 2..12u8 {
        settle(team, figures, &mut progress, n);
    }
    Eleven {
        slots: progress.slots,
    }
}
