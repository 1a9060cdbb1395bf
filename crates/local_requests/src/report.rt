// The report of one view.
ghost use Rattle.std.specs.Prelude.{◌≡◌, ◌≤◌, ◌⊎◌, false, true};
ghost use Rattle.fpl_base.specs.Causes.{Rose};
ghost use Rattle.season_book.specs.declared.answer.Answer.TheVariants as answer_of;
ghost use Rattle.request_handler.specs.Kept.{Leads, kept_as};
ghost use Rattle.fpl_reports.specs.Reports.{HasReport};
ghost use Rattle.local_requests.specs.Printing.{IsReported, ReportsAs};

use crate::asking::ask;
use crate::printing::{halted, print};
use crate::status::{DONE, MEMORY};
use fpl_base::{Caller, Clock, Keeper, Memory, ReadCount, Sink};
use fpl_reports::report_text;
use season_book::{Answer, Request, Shown, View};
use season_keeping::Host;
use std::alloc::Global;
use std::sync::ledger::Ledger;

/// Asks a view as the operator, writes its report, and answers the exit status.
pub fn reported<W: Sink, C: Clock, K: Keeper, L: Ledger>(
    alloc: Global,
    host: &mut Host,
    view: View,
    output: &mut W,
    clock: &mut C,
    keeper: &mut K,
    steps: &mut ReadCount<L>,
) -> u8
    requires fresh { host.old.stale ≡ false }
    ensures reported { Leads K.tells K.serves K.holds K.passes
        (kept_as host.old (C.left clock.old) (K.faults keeper.old) keeper.old)
        (kept_as host.new (C.left clock.new) (K.faults keeper.new) keeper.new)
        (IsReported view (W.taken output.old) (W.taken output.new) result) }
    ensures statuses { (result ≡ 0) ⊎ (result ≡ 3) ⊎ (result ≡ 4) ⊎ (result ≡ 6) ⊎ (result ≡ 13) }
    ensures keeper { result ≡ 4 → Rose (K.faults keeper.old) (K.faults keeper.new) }
    ensures write { result ≡ 3 → Rose (W.faults output.old) (W.faults output.new) }
    ensures later { K.faults keeper.old ≤ K.faults keeper.new }
{
    let answer = ask(
        host,
        keeper,
        clock,
        steps,
        Caller::Operator,
        &Request::View(view),
    );
    report(alloc, &answer, output)
}

// Writes the report of an answer, or ends by it.
fn report<W: Sink>(alloc: Global, told: &Answer, output: &mut W) -> u8
    ensures reports { ReportsAs told.now result (W.taken output.old) (W.taken output.new) }
    ensures statuses { (result ≡ 0) ⊎ (result ≡ 3) ⊎ (result ≡ 4) ⊎ (result ≡ 6) ⊎ (result ≡ 13) }
    ensures keeper { result ≡ 4 → told.now ≡ answer_of.Keeper }
    ensures write { result ≡ 3 → Rose (W.faults output.old) (W.faults output.new) }
{
    let Answer::Shown(shown) = told else {
        return halted(alloc, told, output);
    };
    // No view that a report asks shows anything else.
    if !has_report(shown) {
        return MEMORY;
    }
    match report_text(alloc, shown) {
        Ok(text) => print(output, &text, DONE),
        Err(Memory) => MEMORY,
    }
}

// Whether there is a report of what is shown.
fn has_report(shown: &Shown) -> bool
    ensures there { result ≡ true → HasReport shown.now }
    ensures none { result ≡ false → HasReport shown.now → ⊥ }
{
    match shown {
        Shown::Season(_)
        | Shown::Fixture(_)
        | Shown::EntryGameweek(_)
        | Shown::Classic(_)
        | Shown::Head(_) => true,
        _ => false,
    }
}
