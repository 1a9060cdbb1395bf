// Rows, done one after another.
ghost use Rattle.std.specs.Prelude.{◌≡◌, ◌≤◌, ◌⊎◌, Err, IfErr, IfOk, OnOk, Some, false};
ghost use Rattle.fpl_base.specs.Causes.{Rose};
ghost use Rattle.season_book.specs.Hosts.{IsRequest};
ghost use Rattle.season_book.specs.declared.request.Request.TheVariants as request_of;
ghost use Rattle.season_book.specs.declared.request.View.TheVariants as view_of;
ghost use Rattle.request_handler.specs.Kept.{Leads, kept_as};
ghost use Rattle.draft_league.specs.Leagues.{picked};
ghost use Rattle.draft_league.specs.Rules.{IsJudged, pick_refusal, waive_refusal};
ghost use Rattle.fpl_drafting.specs.Rows.{AreRowsOf, IsRowOf};
ghost use Rattle.fpl_drafting.specs.Steps.{Changes, IsDone, IsStep, StepsOn, StopsBy, Waives, asked_of, position_in, refusal_of};

use crate::row::DraftRow;
use draft_league::{Draft, DraftRefused};
use fpl_base::{Caller, Clock, Gw, Keeper, PlayerId, Position, ReadCount, Sink};
use local_requests::status::MEMORY;
use local_requests::{ask, halted, refused_row};
use season_book::{Answer, Request, Shown, View};
use season_keeping::Host;
use std::alloc::Global;
use std::sync::ledger::Ledger;

// Does these rows, from the first on. `Err` has the exit status.
pub(crate) fn steps_done<W: Sink, C: Clock, K: Keeper, L: Ledger>(
    alloc: Global,
    host: &mut Host,
    rows: &[DraftRow],
    draft: Draft,
    output: &mut W,
    clock: &mut C,
    keeper: &mut K,
    steps: &mut ReadCount<L>,
) -> Result<Draft, u8>
    requires fresh { host.old.stale ≡ false }
    requires own { AreRowsOf draft.members rows.now }
    ensures done { Leads K.tells K.serves K.holds K.passes
        (kept_as host.old (C.left clock.old) (K.faults keeper.old) keeper.old)
        (kept_as host.new (C.left clock.new) (K.faults keeper.new) keeper.new)
        (StepsOn 1 rows.now draft (W.taken output.old) (W.taken output.new) result) }
    ensures fresh { OnOk result (host.new.stale ≡ false) }
    ensures output { OnOk result (output.new ≡ output.old) }
    ensures statuses { IfErr result (λ status.
        (status ≡ 3) ⊎ (status ≡ 4) ⊎ (status ≡ 6) ⊎ (status ≡ 13) ⊎ (status ≡ 14)) }
    ensures keeper { result ≡ Err 4 → Rose (K.faults keeper.old) (K.faults keeper.new) }
    ensures write { result ≡ Err 3 → Rose (W.faults output.old) (W.faults output.new) }
    ensures later { K.faults keeper.old ≤ K.faults keeper.new }
{
    let mut draft = draft;
    for place in 0..rows.len() {
        match step_done(
            alloc,
            host,
            place + 1,
            &rows[place],
            draft,
            output,
            clock,
            keeper,
            steps,
        ) {
            Ok(next) => draft = next,
            Err(status) => return Err(status),
        }
    }
    Ok(draft)
}

// Does a row, which has this number.
fn step_done<W: Sink, C: Clock, K: Keeper, L: Ledger>(
    alloc: Global,
    host: &mut Host,
    number: usize,
    row: &DraftRow,
    draft: Draft,
    output: &mut W,
    clock: &mut C,
    keeper: &mut K,
    steps: &mut ReadCount<L>,
) -> Result<Draft, u8>
    requires fresh { host.old.stale ≡ false }
    requires own { IsRowOf draft.members row.now }
    ensures done { Leads K.tells K.serves K.holds K.passes
        (kept_as host.old (C.left clock.old) (K.faults keeper.old) keeper.old)
        (kept_as host.new (C.left clock.new) (K.faults keeper.new) keeper.new)
        (IsStep number row.now draft (W.taken output.old) (W.taken output.new) result) }
    ensures same { IfOk result (λ next. next.members ≡ draft.members) }
    ensures fresh { OnOk result (host.new.stale ≡ false) }
    ensures output { OnOk result (output.new ≡ output.old) }
    ensures statuses { IfErr result (λ status.
        (status ≡ 3) ⊎ (status ≡ 4) ⊎ (status ≡ 6) ⊎ (status ≡ 13) ⊎ (status ≡ 14)) }
    ensures keeper { result ≡ Err 4 → Rose (K.faults keeper.old) (K.faults keeper.new) }
    ensures write { result ≡ Err 3 → Rose (W.faults output.old) (W.faults output.new) }
    ensures later { K.faults keeper.old ≤ K.faults keeper.new }
{
    match asked_of(row) {
        Some(player) => step_asked(
            alloc, host, number, row, player, draft, output, clock, keeper, steps,
        ),
        None => row_done(alloc, number, row, Position::Keeper, draft, output),
    }
}

// Does a row that asks the position of this player.
fn step_asked<W: Sink, C: Clock, K: Keeper, L: Ledger>(
    alloc: Global,
    host: &mut Host,
    number: usize,
    row: &DraftRow,
    player: PlayerId,
    draft: Draft,
    output: &mut W,
    clock: &mut C,
    keeper: &mut K,
    steps: &mut ReadCount<L>,
) -> Result<Draft, u8>
    requires fresh { host.old.stale ≡ false }
    requires own { IsRowOf draft.members row.now }
    requires asks { asked_of row.now ≡ Some player }
    ensures done { Leads K.tells K.serves K.holds K.passes
        (kept_as host.old (C.left clock.old) (K.faults keeper.old) keeper.old)
        (kept_as host.new (C.left clock.new) (K.faults keeper.new) keeper.new)
        (IsStep number row.now draft (W.taken output.old) (W.taken output.new) result) }
    ensures same { IfOk result (λ next. next.members ≡ draft.members) }
    ensures fresh { OnOk result (host.new.stale ≡ false) }
    ensures output { OnOk result (output.new ≡ output.old) }
    ensures statuses { IfErr result (λ status.
        (status ≡ 3) ⊎ (status ≡ 4) ⊎ (status ≡ 6) ⊎ (status ≡ 13) ⊎ (status ≡ 14)) }
    ensures keeper { result ≡ Err 4 → Rose (K.faults keeper.old) (K.faults keeper.new) }
    ensures write { result ≡ Err 3 → Rose (W.faults output.old) (W.faults output.new) }
    ensures later { K.faults keeper.old ≤ K.faults keeper.new }
{
    let asked = request_of_player(player);
    let told = ask(host, keeper, clock, steps, Caller::Operator, &asked);
    match position_in(&told) {
        Some(position) => row_done(alloc, number, row, position, draft, output),
        None => Err(halted(alloc, &told, output)),
    }
}

// The player whose position a row asks.
fn asked_of(row: &DraftRow) -> Option<PlayerId>
    ensures { result ≡ asked_of row.now }
{
    match row {
        DraftRow::Pick { player } => Some(*player),
        DraftRow::Bid { into, .. } => Some(*into),
        DraftRow::Waive { .. } => None,
    }
}

// The request that shows a player.
fn request_of_player(player: PlayerId) -> Request
    ensures value { result ≡ request_of.View (view_of.Player player) }
    ensures lawful { IsRequest result }
{
    Request::View(View::Player {
        player: player.get(),
    })
}

// The position that an answer shows.
fn position_in(told: &Answer) -> Option<Position>
    ensures { result ≡ position_in told.now }
{
    match told {
        Answer::Shown(Shown::Player(player)) => Some(player.position),
        _ => None,
    }
}

// Does a row whose player has this position, or tells the rule that refuses it.
fn row_done<W: Sink>(
    alloc: Global,
    number: usize,
    row: &DraftRow,
    position: Position,
    draft: Draft,
    output: &mut W,
) -> Result<Draft, u8>
    requires own { IsRowOf draft.members row.now }
    ensures done { IsDone number row.now position draft
        (W.taken output.old) (W.taken output.new) result }
    ensures same { IfOk result (λ next. next.members ≡ draft.members) }
    ensures output { OnOk result (output.new ≡ output.old) }
    ensures statuses { IfErr result (λ status.
        (status ≡ 3) ⊎ (status ≡ 6) ⊎ (status ≡ 14)) }
    ensures write { result ≡ Err 3 → Rose (W.faults output.old) (W.faults output.new) }
{
    let mut draft = draft;
    match change(alloc, row, position, &mut draft) {
        Ok(()) => Ok(draft),
        Err(why) => Err(ended(alloc, number, why, output)),
    }
}

// Ends the command by the row of a number that was refused.
fn ended<W: Sink>(alloc: Global, number: usize, why: DraftRefused, output: &mut W) -> u8
    ensures stops { StopsBy number why result (W.taken output.old) (W.taken output.new) }
    ensures statuses { (result ≡ 3) ⊎ (result ≡ 6) ⊎ (result ≡ 14) }
    ensures write { result ≡ 3 → Rose (W.faults output.old) (W.faults output.new) }
{
    match why {
        DraftRefused::Rule(rule) => refused_row(alloc, number, rule.number(), output),
        DraftRefused::Memory => MEMORY,
    }
}

// Does it in the league.
fn change(
    alloc: Global,
    row: &DraftRow,
    position: Position,
    draft: &mut Draft,
) -> Result<(), DraftRefused>
    requires own { IsRowOf draft.old.members row.now }
    ensures judged { IsJudged (refusal_of row.now position draft.old) result }
    ensures changed { OnOk result (Changes row.now position draft.old draft.new) }
    ensures same { OnOk result (draft.new.members ≡ draft.old.members) }
{
    match row {
        DraftRow::Pick { player } => pick(*player, position, draft),
        DraftRow::Bid {
            gw,
            member,
            into,
            out,
        } => draft.bid(*gw, *member, *into, position, *out),
        DraftRow::Waive { gw } => waive(alloc, *gw, draft),
    }
}

fn pick(player: PlayerId, position: Position, draft: &mut Draft) -> Result<(), DraftRefused>
    ensures judged { IsJudged (pick_refusal draft.old player position) result }
    ensures picked { OnOk result (draft.new ≡ picked draft.old player position) }
{
    match draft.pick(player, position) {
        Ok(_) => Ok(()),
        Err(refusal) => Err(refusal),
    }
}

fn waive(alloc: Global, gw: Gw, draft: &mut Draft) -> Result<(), DraftRefused>
    ensures judged { IsJudged (waive_refusal draft.old gw) result }
    ensures waived { OnOk result (Waives gw draft.old draft.new) }
{
    let _outcomes = draft.waive(alloc, gw)?;
    Ok(())
}
