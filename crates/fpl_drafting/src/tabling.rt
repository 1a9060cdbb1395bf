// The table, by the points that a host answers.
ghost use Rattle.std.specs.Prelude.{◌≡◌, ◌≤◌, ◌⊎◌, ◌++◌, ◌∷◌, [], Err, IfErr, IfOk, IfSome, OnOk, false, true};
ghost use Rattle.fpl_base.specs.Causes.{Rose};
ghost use Rattle.season_book.specs.Hosts.{IsRequest};
ghost use Rattle.season_book.specs.declared.request.Request.TheVariants as request_of;
ghost use Rattle.season_book.specs.declared.request.View.TheVariants as view_of;
ghost use Rattle.request_handler.specs.Kept.{Leads, kept_as};
ghost use Rattle.draft_league.specs.Leagues.{is_over};
ghost use Rattle.fpl_drafting.specs.Totals.{IsTableText};
ghost use Rattle.local_requests.specs.Printing.{PrintsOne};
ghost use Rattle.fpl_drafting.specs.Drafting.{IsScored, IsTabled, IsTabledOver, PointsOn, locked_in, points_told, told_of};

use crate::totals::{Told, questions_of, table_of};
use draft_league::Draft;
use fpl_base::{Caller, Clock, Gw, Keeper, ListOf, Memory, PlayerId, ReadCount, Sink};
use local_requests::status::{DONE, MEMORY};
use local_requests::{ask, halted, print};
use season_book::{Answer, Request, Shown, View};
use season_keeping::Host;
use std::alloc::Global;
use std::sync::ledger::Ledger;

// Asks the season and the points of the members' players in its locked gameweeks, and writes the table.
pub(crate) fn tabled<W: Sink, C: Clock, K: Keeper, L: Ledger>(
    alloc: Global,
    host: &mut Host,
    draft: &Draft,
    output: &mut W,
    clock: &mut C,
    keeper: &mut K,
    steps: &mut ReadCount<L>,
) -> u8
    requires fresh { host.old.stale ≡ false }
    requires over { is_over draft.now ≡ true }
    ensures tabled { Leads K.tells K.serves K.holds K.passes
        (kept_as host.old (C.left clock.old) (K.faults keeper.old) keeper.old)
        (kept_as host.new (C.left clock.new) (K.faults keeper.new) keeper.new)
        (IsTabled draft.now (W.taken output.old) (W.taken output.new) result) }
    ensures statuses { (result ≡ 0) ⊎ (result ≡ 3) ⊎ (result ≡ 4) ⊎ (result ≡ 6) ⊎ (result ≡ 13) }
    ensures keeper { result ≡ 4 → Rose (K.faults keeper.old) (K.faults keeper.new) }
    ensures write { result ≡ 3 → Rose (W.faults output.old) (W.faults output.new) }
    ensures later { K.faults keeper.old ≤ K.faults keeper.new }
{
    let asked = Request::View(View::Season);
    let told = ask(host, keeper, clock, steps, Caller::Operator, &asked);
    match locked_in(&told) {
        Some(locked) => tabled_over(alloc, host, draft, locked, output, clock, keeper, steps),
        None => halted(alloc, &told, output),
    }
}

// Asks the points of the members' players in so many gameweeks, and writes the table over these.
fn tabled_over<W: Sink, C: Clock, K: Keeper, L: Ledger>(
    alloc: Global,
    host: &mut Host,
    draft: &Draft,
    locked: u8,
    output: &mut W,
    clock: &mut C,
    keeper: &mut K,
    steps: &mut ReadCount<L>,
) -> u8
    requires fresh { host.old.stale ≡ false }
    requires over { is_over draft.now ≡ true }
    requires few { locked ≤ 38 }
    ensures tabled { Leads K.tells K.serves K.holds K.passes
        (kept_as host.old (C.left clock.old) (K.faults keeper.old) keeper.old)
        (kept_as host.new (C.left clock.new) (K.faults keeper.new) keeper.new)
        (IsTabledOver draft.now locked (W.taken output.old) (W.taken output.new) result) }
    ensures statuses { (result ≡ 0) ⊎ (result ≡ 3) ⊎ (result ≡ 4) ⊎ (result ≡ 6) ⊎ (result ≡ 13) }
    ensures keeper { result ≡ 4 → Rose (K.faults keeper.old) (K.faults keeper.new) }
    ensures write { result ≡ 3 → Rose (W.faults output.old) (W.faults output.new) }
    ensures later { K.faults keeper.old ≤ K.faults keeper.new }
{
    match questions_of(alloc, draft, locked) {
        Ok(questions) => scored(
            alloc,
            host,
            draft,
            locked,
            questions.as_slice(),
            output,
            clock,
            keeper,
            steps,
        ),
        Err(Memory) => MEMORY,
    }
}

// Asks the points of these players' gameweeks, and writes the table over so many of them.
fn scored<W: Sink, C: Clock, K: Keeper, L: Ledger>(
    alloc: Global,
    host: &mut Host,
    draft: &Draft,
    locked: u8,
    questions: &[(PlayerId, Gw)],
    output: &mut W,
    clock: &mut C,
    keeper: &mut K,
    steps: &mut ReadCount<L>,
) -> u8
    requires fresh { host.old.stale ≡ false }
    requires over { is_over draft.now ≡ true }
    requires few { locked ≤ 38 }
    ensures scored { Leads K.tells K.serves K.holds K.passes
        (kept_as host.old (C.left clock.old) (K.faults keeper.old) keeper.old)
        (kept_as host.new (C.left clock.new) (K.faults keeper.new) keeper.new)
        (IsScored draft.now locked questions.now (W.taken output.old) (W.taken output.new) result) }
    ensures statuses { (result ≡ 0) ⊎ (result ≡ 3) ⊎ (result ≡ 4) ⊎ (result ≡ 6) ⊎ (result ≡ 13) }
    ensures keeper { result ≡ 4 → Rose (K.faults keeper.old) (K.faults keeper.new) }
    ensures write { result ≡ 3 → Rose (W.faults output.old) (W.faults output.new) }
    ensures later { K.faults keeper.old ≤ K.faults keeper.new }
{
    match points_asked(alloc, host, questions, output, clock, keeper, steps) {
        Ok(told) => write_table(alloc, draft, told.as_slice(), locked, output),
        Err(status) => status,
    }
}

// Asks the points of these players' gameweeks, one after another. `Err` has the exit status.
fn points_asked<W: Sink, C: Clock, K: Keeper, L: Ledger>(
    alloc: Global,
    host: &mut Host,
    questions: &[(PlayerId, Gw)],
    output: &mut W,
    clock: &mut C,
    keeper: &mut K,
    steps: &mut ReadCount<L>,
) -> Result<ListOf<Told>, u8>
    requires fresh { host.old.stale ≡ false }
    ensures asked { Leads K.tells K.serves K.holds K.passes
        (kept_as host.old (C.left clock.old) (K.faults keeper.old) keeper.old)
        (kept_as host.new (C.left clock.new) (K.faults keeper.new) keeper.new)
        (PointsOn questions.now [] (W.taken output.old) (W.taken output.new) result) }
    ensures output { OnOk result (output.new ≡ output.old) }
    ensures statuses { IfErr result
        (λ status. (status ≡ 3) ⊎ (status ≡ 4) ⊎ (status ≡ 6) ⊎ (status ≡ 13)) }
    ensures keeper { result ≡ Err 4 → Rose (K.faults keeper.old) (K.faults keeper.new) }
    ensures write { result ≡ Err 3 → Rose (W.faults output.old) (W.faults output.new) }
    ensures later { K.faults keeper.old ≤ K.faults keeper.new }
{
    let mut so_far = ListOf::new(alloc);
    for place in 0..questions.len() {
        let question = questions[place];
        let asked = request_of_points(question.0, question.1);
        let told = ask(host, keeper, clock, steps, Caller::Operator, &asked);
        match points_told(&told) {
            Some(points) => {
                if keep(&mut so_far, question, points).is_err() {
                    return Err(MEMORY);
                }
            }
            None => return Err(halted(alloc, &told, output)),
        }
    }
    Ok(so_far)
}

// Keeps the points that were told for a question.
fn keep(so_far: &mut ListOf<Told>, question: (PlayerId, Gw), points: i32) -> Result<(), Memory>
    ensures { OnOk result (so_far.new ≡ so_far.old ++ told_of question points ∷ []) }
{
    so_far.push(Told {
        player: question.0,
        gw: question.1,
        points,
    })
}

// The request that shows what a player did in a gameweek.
fn request_of_points(player: PlayerId, gw: Gw) -> Request
    ensures value { result ≡ request_of.View (view_of.PlayerGameweek player gw) }
    ensures lawful { IsRequest result }
{
    Request::View(View::PlayerGameweek {
        player: player.get(),
        gameweek: u32::from(gw.get()),
    })
}

// Writes the table over so many gameweeks, by the points that were told.
fn write_table<W: Sink>(
    alloc: Global,
    draft: &Draft,
    told: &[Told],
    locked: u8,
    output: &mut W,
) -> u8
    requires over { is_over draft.now ≡ true }
    requires few { locked ≤ 38 }
    ensures written { PrintsOne (IsTableText draft.now locked told.now) 0 result
        (W.taken output.old) (W.taken output.new) }
    ensures statuses { (result ≡ 0) ⊎ (result ≡ 3) ⊎ (result ≡ 6) }
    ensures write { result ≡ 3 → Rose (W.faults output.old) (W.faults output.new) }
{
    match table_of(alloc, draft, told, locked) {
        Ok(text) => print(output, text.as_bytes(), DONE),
        Err(Memory) => MEMORY,
    }
}

// How many gameweeks are locked, by an answer that shows the season; no season has more than 38.
fn locked_in(told: &Answer) -> Option<u8>
    ensures value { result ≡ locked_in told.now }
    ensures few { IfSome result (λ locked. locked ≤ 38) }
{
    match told {
        Answer::Shown(Shown::Season(season)) => Some(season.locked.min(38)),
        _ => None,
    }
}

// The points of a player, by an answer that shows them.
fn points_told(told: &Answer) -> Option<i32>
    ensures { result ≡ points_told told.now }
{
    match told {
        Answer::Shown(Shown::PlayerGameweek(figures)) => Some(figures.points),
        _ => None,
    }
}
