// The command that makes a season up.
ghost use Rattle.std.specs.Prelude.{◌≡◌, ◌≤◌, ◌-◌, ◌⊎◌, Err, IfErr, IfOk, OnOk, Option, false, string_bytes};
ghost use Rattle.fpl_base.specs.Causes.{Rose};
ghost use Rattle.fpl_base.specs.Moments.{Moments};
ghost use Rattle.local_requests.specs.Printing.{PrintsOne};
ghost use Rattle.request_handler.specs.Kept.{Leads, kept_as};
ghost use Rattle.season_generator.specs.Generating.{IsCorrected, IsGenerated, TabledBehind};
ghost use Rattle.season_generator.specs.Summaries.{summary_text};

use crate::made::{MadeUpSeason, STEPS};
use crate::playing::play;
use crate::table::{Table, tabled};
use fpl_base::{Keeper, ReadCount, Sink};
use local_requests::print;
use local_requests::status::{DONE, MEMORY};
use season_keeping::Host;
use std::alloc::{AllocError, Global};
use std::sync::ledger::Ledger;

// The step that corrects a line, behind all others.
const LAST: u32 = STEPS - 1;

/// Asks the season of a seed of a host that has none, writes a summary of it, and answers the exit status.
pub fn generated<W: Sink, K: Keeper, L: Ledger>(
    alloc: Global,
    host: &mut Host,
    seed: u64,
    output: &mut W,
    keeper: &mut K,
    steps: &mut ReadCount<L>,
) -> u8
    requires fresh { host.old.stale ≡ false }
    ensures generated { (moments : Option Moments) → Leads K.tells K.serves K.holds K.passes
        (kept_as host.old moments (K.faults keeper.old) keeper.old)
        (kept_as host.new moments (K.faults keeper.new) keeper.new)
        (IsGenerated seed (W.taken output.old) (W.taken output.new) result) }
    ensures statuses { (result ≡ 0) ⊎ (result ≡ 3) ⊎ (result ≡ 4) ⊎ (result ≡ 6) ⊎ (result ≡ 13) }
    ensures keeper { result ≡ 4 → Rose (K.faults keeper.old) (K.faults keeper.new) }
    ensures write { result ≡ 3 → Rose (W.faults output.old) (W.faults output.new) }
    ensures later { K.faults keeper.old ≤ K.faults keeper.new }
{
    let mut season = MadeUpSeason::new(seed);
    match tabled_behind(alloc, host, &mut season, 0, LAST, output, keeper, steps) {
        Ok(first) => corrected(alloc, host, &mut season, &first, output, keeper, steps),
        Err(status) => status,
    }
}

// Plays the last step, asks for the table again, and writes the summary of both tables.
fn corrected<W: Sink, K: Keeper, L: Ledger>(
    alloc: Global,
    host: &mut Host,
    season: &mut MadeUpSeason,
    first: &Table,
    output: &mut W,
    keeper: &mut K,
    steps: &mut ReadCount<L>,
) -> u8
    requires fresh { host.old.stale ≡ false }
    ensures corrected { (moments : Option Moments) → Leads K.tells K.serves K.holds K.passes
        (kept_as host.old moments (K.faults keeper.old) keeper.old)
        (kept_as host.new moments (K.faults keeper.new) keeper.new)
        (IsCorrected season.old first.now (W.taken output.old) (W.taken output.new) result) }
    ensures statuses { (result ≡ 0) ⊎ (result ≡ 3) ⊎ (result ≡ 4) ⊎ (result ≡ 6) ⊎ (result ≡ 13) }
    ensures keeper { result ≡ 4 → Rose (K.faults keeper.old) (K.faults keeper.new) }
    ensures write { result ≡ 3 → Rose (W.faults output.old) (W.faults output.new) }
    ensures later { K.faults keeper.old ≤ K.faults keeper.new }
{
    match tabled_behind(alloc, host, season, LAST, STEPS, output, keeper, steps) {
        Ok(second) => summarised(alloc, first, &second, output),
        Err(status) => status,
    }
}

// Plays the steps from one number up to another, and asks for the table behind them. `Err` has the exit status.
fn tabled_behind<W: Sink, K: Keeper, L: Ledger>(
    alloc: Global,
    host: &mut Host,
    season: &mut MadeUpSeason,
    from: u32,
    to: u32,
    output: &mut W,
    keeper: &mut K,
    steps: &mut ReadCount<L>,
) -> Result<Table, u8>
    requires fresh { host.old.stale ≡ false }
    requires order { from ≤ to }
    requires within { to ≤ 2122 }
    ensures tabled { (moments : Option Moments) → Leads K.tells K.serves K.holds K.passes
        (kept_as host.old moments (K.faults keeper.old) keeper.old)
        (kept_as host.new moments (K.faults keeper.new) keeper.new)
        (TabledBehind season.old from (to - from) (W.taken output.old)
        (W.taken output.new) result) }
    ensures same { season.new ≡ season.old }
    ensures fresh { OnOk result (host.new.stale ≡ false) }
    ensures output { OnOk result (output.new ≡ output.old) }
    ensures statuses { IfErr result
        (λ status. (status ≡ 3) ⊎ (status ≡ 4) ⊎ (status ≡ 6) ⊎ (status ≡ 13)) }
    ensures keeper { result ≡ Err 4 → Rose (K.faults keeper.old) (K.faults keeper.new) }
    ensures write { result ≡ Err 3 → Rose (W.faults output.old) (W.faults output.new) }
    ensures later { K.faults keeper.old ≤ K.faults keeper.new }
{
    play(alloc, host, season, from, to, output, keeper, steps)?;
    tabled(alloc, host, output, keeper, steps)
}

// Writes the summary of the tables before the last step and behind it.
fn summarised<W: Sink>(alloc: Global, first: &Table, second: &Table, output: &mut W) -> u8
    ensures printed { PrintsOne
        (λ text. text ≡ summary_text first.now.sum second.now.sum second.now.entry second.now.total)
        0 result (W.taken output.old) (W.taken output.new) }
    ensures statuses { (result ≡ 0) ⊎ (result ≡ 3) ⊎ (result ≡ 6) }
    ensures write { result ≡ 3 → Rose (W.faults output.old) (W.faults output.new) }
{
    match summary_of(alloc, first, second) {
        Ok(text) => print(output, text.as_bytes(), DONE),
        Err(AllocError) => MEMORY,
    }
}

fn summary_of(alloc: Global, first: &Table, second: &Table) -> Result<String, AllocError>
    ensures { IfOk result (λ text.
        string_bytes text
        ≡ summary_text first.now.sum second.now.sum second.now.entry second.now.total) }
{
    lines_of(
        alloc,
        first.sum,
        second.sum,
        second.entry.get(),
        second.total,
    )
}

fn lines_of(
    alloc: Global,
    before: i128,
    behind: i128,
    entry: u32,
    total: i32,
) -> Result<String, AllocError>
    ensures { IfOk result (λ text. string_bytes text ≡ summary_text before behind entry total) }
{
    format!(in alloc;
        "players 600\nentries 500\nsum {before}\nsum {behind}\nbest {entry} {total}\n"
    )
}
