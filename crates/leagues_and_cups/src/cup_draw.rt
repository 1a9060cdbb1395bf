// Which cup can be played.
ghost use Rattle.std.specs.Prelude.{◌≡◌, ◌≢◌, ◌≤◌, ◌<◌, ◌+◌, ◌*◌, ◌^◌, ◌↔◌, ℕ, IfSome, IfNone, IsTrue, OnOk};
ghost use Rattle.rule_book.specs.Cups.{StandsOnce, HasNoByeTie, IsCup, wrong_cup};
ghost use Rattle.rule_book.specs.Refusals.{IsJudged};

use fpl_base::{Gw, Rule};

/// Whether a cup can be drawn so, in a season of so many gameweeks of which so many are locked; the parts are those of a
/// draw, of which no cup has been made yet. Its start has to be open; else that gameweek is named. Then it has to be a
/// draw that can be played: 2 to 1,024 slots, a power of two; one coin less than slots; no entry twice; in the first
/// round no two byes against each other; the last round not after the last gameweek. That the entrants are registered is
/// for the caller to see. `docs/RULES.md` has this under "Cups".
pub fn check_draw(
    start: Gw,
    slots: &[u32],
    coins: &[u8],
    gameweeks: u8,
    locked: u8,
) -> Result<(), Rule>
    ensures judged { IsJudged
        (wrong_cup
        (record { start = start; slots = slots.now; coins = coins.now }) gameweeks locked) result }
    ensures open { OnOk result (locked < start) }
    ensures cup { OnOk result
        (IsCup (record { start = start; slots = slots.now; coins = coins.now }) gameweeks) }
    ensures wrong { result ≡ Err Rule.DrawWrong
        → ¬ IsCup (record { start = start; slots = slots.now; coins = coins.now }) gameweeks }
{
    if start.get() <= locked {
        return Err(Rule::StartPassed { gameweek: start });
    }
    if !can_be_played(start, slots, coins, gameweeks) {
        return Err(Rule::DrawWrong);
    }
    Ok(())
}

// Whether the draw is one that can be played.
fn can_be_played(start: Gw, slots: &[u32], coins: &[u8], gameweeks: u8) -> bool
    ensures { IsTrue result
        ↔ IsCup (record { start = start; slots = slots.now; coins = coins.now }) gameweeks }
{
    let Some(rounds) = rounds_of(slots.len()) else {
        return false;
    };
    if start.get() as u32 + rounds as u32 > gameweeks as u32 + 1 {
        return false;
    }
    if coins.len() != slots.len() - 1 {
        return false;
    }
    if !stands_once(slots) {
        return false;
    }
    has_no_bye_tie(slots)
}

// The rounds of a cup of so many slots, if there is such a cup.
pub(crate) fn rounds_of(slots: usize) -> Option<u8>
    ensures some { IfSome result (λ r. (1 ≤ r) × (r ≤ 10) × (slots ≡ 2 ^ r)) }
    ensures none { IfNone result ((r : ℕ) → 1 ≤ r → r ≤ 10 → slots ≢ 2 ^ r) }
{
    if slots == 2 {
        Some(1)
    } else if slots == 4 {
        Some(2)
    } else if slots == 8 {
        Some(3)
    } else if slots == 16 {
        Some(4)
    } else if slots == 32 {
        Some(5)
    } else if slots == 64 {
        Some(6)
    } else if slots == 128 {
        Some(7)
    } else if slots == 256 {
        Some(8)
    } else if slots == 512 {
        Some(9)
    } else if slots == 1024 {
        Some(10)
    } else {
        None
    }
}

// Whether no entry stands in two slots. Each slot is compared with those before it: with no memory for a sorted copy,
// this takes half a million steps for the 1,024 slots that a cup has at most.
fn stands_once(slots: &[u32]) -> bool
    ensures { IsTrue result ↔ StandsOnce slots.now }
{
    for j in 0..slots.len() {
        for i in 0..j {
            if slots[i] != 0 && slots[i] == slots[j] {
                return false;
            }
        }
    }
    true
}

// Whether in the first round no two byes meet.
fn has_no_bye_tie(slots: &[u32]) -> bool
    ensures { IsTrue result ↔ HasNoByeTie slots.now }
{
    for i in 0..slots.len() / 2 {
        if slots[2 * i] == 0 && slots[2 * i + 1] == 0 {
            return false;
        }
    }
    true
}
