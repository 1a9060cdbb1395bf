// In which order a league may be drawn.
ghost use Rattle.std.specs.Prelude.{OnOk, OnErr};
ghost use Rattle.rule_book.specs.Ranks.{AllDiffer};
ghost use Rattle.rule_book.specs.HeadToHead.{IsDraw, wrong_draw};
ghost use Rattle.rule_book.specs.Refusals.{IsJudged};

use fpl_base::{EntryId, Rule};

/// Whether a league of these members, who differ, may be drawn in this order: it has two members or more, and the order
/// names each of them once and no other. Else the draw is wrong. Each member is looked for in the whole order, which is
/// quick for the 64 members that a league can have. `docs/RULES.md` has this under "Head-to-head leagues".
pub fn check_order(order: &[EntryId], members: &[EntryId]) -> Result<(), Rule>
    requires differ { AllDiffer members.now }
    ensures judged { IsJudged (wrong_draw order.now members.now) result }
    ensures draw { OnOk result (IsDraw order.now members.now) }
    ensures wrong { OnErr result (¬ IsDraw order.now members.now) }
{
    if members.len() < 2 {
        return Err(Rule::DrawWrong);
    }
    if order.len() != members.len() {
        return Err(Rule::DrawWrong);
    }
    for member in members {
        if !order.contains(member) {
            return Err(Rule::DrawWrong);
        }
    }
    Ok(())
}
