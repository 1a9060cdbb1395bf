// The transfers of an entry, written as they are read.
ghost use Rattle.std.specs.Prelude.{◌≤◌, ◌+◌, length};
ghost use Rattle.season_views.specs.Seen.{OfEachSeen, ShowsEach};
ghost use Rattle.season_book.specs.TransfersWindow.{transfers_window};
ghost use Rattle.season_views.specs.TransfersWindowReads.{transfers_window_reads};

use crate::shown::is_shown;
use crate::transfers::write_latest;
use fpl_base::{EntryId, Memory, ReadCount};
use json::Writer;
use season_entries::entries_are_issued;
use season_views::{Seen, issued};
use std::sync::ledger::Ledger;

/// Writes the transfers of an entry in locked gameweeks behind its first, the latest first; `false` where it is not
/// registered. Each of its transfers is a counted read.
pub fn write_transfers<L: Ledger>(
    out: &mut Writer,
    seen: &Seen<L>,
    number: u32,
    steps: &mut ReadCount<L>,
) -> Result<bool, Memory>
    ensures value { ShowsEach seen.now (λ entries. transfers_window seen.now.facts entries number)
        result out.old out.new }
    ensures cost { OfEachSeen seen.now
        (λ entries. steps.new ≤ steps.old + transfers_window_reads entries number) }
{
    // The law on which entries are there, for the prover.
    entries_are_issued();
    match issued(seen, number) {
        Some(entry) => write_if_registered(out, seen, entry, steps),
        None => Ok(false),
    }
}

// The same of an entry that was issued.
fn write_if_registered<L: Ledger>(
    out: &mut Writer,
    seen: &Seen<L>,
    entry: EntryId,
    steps: &mut ReadCount<L>,
) -> Result<bool, Memory>
    requires { entry ≤ length seen.now.managers.managers }
    ensures value { ShowsEach seen.now (λ entries. transfers_window seen.now.facts entries entry) result
        out.old out.new }
    ensures cost { OfEachSeen seen.now
        (λ entries. steps.new ≤ steps.old + transfers_window_reads entries entry) }
{
    // The law on which entries are there, for the prover.
    entries_are_issued();
    match seen.entry(entry).first {
        Some(first) => {
            let sales = seen.sales(entry, steps);
            let locked = seen.calendar().locked();
            is_shown(write_latest(out, entry, first.get() + 1, locked, sales))
        }
        None => Ok(false),
    }
}
