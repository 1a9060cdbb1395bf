// What is read of the table of a league.
ghost use Rattle.std.specs.Prelude.{◌≡◌, ◌≤◌, ◌⊎◌, Err, IfErr, OnOk, Option, false};
ghost use Rattle.fpl_base.specs.Causes.{Rose};
ghost use Rattle.fpl_base.specs.Moments.{Moments};
ghost use Rattle.request_handler.specs.Kept.{Leads, kept_as};
ghost use Rattle.season_generator.specs.Generating.{IsTabled};
ghost use Rattle.season_generator.specs.Summaries.{sum_of, table_in, table_of};

use fpl_base::{Caller, EntryId, Keeper, Moment, ReadCount, Sink};
use local_requests::{ask_at, halted};
use season_book::{Answer, Request, Shown, ShownRanked, View};
use season_keeping::Host;
use std::alloc::Global;
use std::sync::ledger::Ledger;

// What is read of a table that has a row.
#[derive(Drop)]
pub(crate) struct Table {
    // The totals of all rows together. They fit: each is 32 bits wide, and a slice has no more than 2^64 rows.
    pub(crate) sum: i128,
    // The entry of the first row, and its total.
    pub(crate) entry: EntryId,
    pub(crate) total: i32,
}

// Asks for the table of the league, as the operator and at the moment of the sheets. `Err` has the exit status.
pub(crate) fn tabled<W: Sink, K: Keeper, L: Ledger>(
    alloc: Global,
    host: &mut Host,
    output: &mut W,
    keeper: &mut K,
    steps: &mut ReadCount<L>,
) -> Result<Table, u8>
    requires fresh { host.old.stale ≡ false }
    ensures tabled { (moments : Option Moments) → Leads K.tells K.serves K.holds K.passes
        (kept_as host.old moments (K.faults keeper.old) keeper.old)
        (kept_as host.new moments (K.faults keeper.new) keeper.new)
        (IsTabled (W.taken output.old) (W.taken output.new) result) }
    ensures fresh { OnOk result (host.new.stale ≡ false) }
    ensures output { OnOk result (output.new ≡ output.old) }
    ensures statuses { IfErr result
        (λ status. (status ≡ 3) ⊎ (status ≡ 4) ⊎ (status ≡ 6) ⊎ (status ≡ 13)) }
    ensures keeper { result ≡ Err 4 → Rose (K.faults keeper.old) (K.faults keeper.new) }
    ensures write { result ≡ Err 3 → Rose (W.faults output.old) (W.faults output.new) }
    ensures later { K.faults keeper.old ≤ K.faults keeper.new }
{
    let told = ask_at(
        host,
        keeper,
        steps,
        Caller::Operator,
        moment_of_sheets(),
        &Request::View(View::League { league: 1 }),
    );
    match table_of(&told) {
        Some(table) => Ok(table),
        None => Err(halted(alloc, &told, output)),
    }
}

// The sheets come behind the deadline.
fn moment_of_sheets() -> Moment
    ensures { result ≡ 1691790000 }
{
    match Moment::new(1_691_790_000) {
        Some(moment) => moment,
        None => unreachable!(),
    }
}

fn table_of(told: &Answer) -> Option<Table>
    ensures { result ≡ table_of told.now }
{
    match told {
        Answer::Shown(Shown::Classic(league)) => table_in(league.rows.as_slice()),
        _ => None,
    }
}

fn table_in(rows: &[ShownRanked]) -> Option<Table>
    ensures { result ≡ table_in rows.now }
{
    match rows {
        [first, ..] => Some(Table {
            sum: sum_of(rows),
            entry: first.row.entry,
            total: first.row.total,
        }),
        [] => None,
    }
}

fn sum_of(rows: &[ShownRanked]) -> i128
    ensures { result ≡ sum_of rows.now }
{
    let mut sum = 0i128;
    for ranked in rows {
        sum += i128::from(ranked.row.total);
    }
    sum
}
