// The gameweeks, as a window shows them.
ghost use Rattle.std.specs.Prelude.{◌≡◌, ◌≤◌, ◌+◌, IfOk, length};
ghost use Rattle.std.specs.List.{list_all};
ghost use Rattle.std.specs.String.{string_bytes};
ghost use Rattle.rule_book.specs.MatchFacts.{is_finished};
ghost use Rattle.json_members.specs.Members.{integer};
ghost use Rattle.json_members.specs.Tokens.{Appends, member_tokens, tokens_of};
ghost use Rattle.season_views.specs.Seen.{IsKept, WritesEach};
ghost use Rattle.season_views.specs.BootstrapReads.{events_reads};
ghost use Rattle.season_book.specs.Events.{Scores, average_of, average_score, event_data, events_window, gameweek_name, highest_entry, highest_score, is_over};
ghost use Rattle.bootstrap_window.specs.EventRows.{event_by};
ghost use Rattle.bootstrap_window.specs.Told.{AreTold, entry_of, highest_of};

use crate::scores::{Best, EventScores, event_scores};
use fpl_base::{FixtureId, Gw, Moment, ReadCount};
use json::Writer;
use json_members::{
    write_count, write_count_or_null, write_integer_or_null, write_text, write_truth,
};
use season_views::{Seen, SeenCells, deadline_at, write_moment};
use std::alloc::{AllocError, Global};
use std::sync::ledger::Ledger;

/// What is shown of a gameweek.
#[derive(Clone, Copy)]
pub(crate) struct Event {
    pub(crate) gameweek: Gw,
    pub(crate) deadline: Moment,
    pub(crate) average: i64,
    pub(crate) highest: Option<i32>,
    pub(crate) entry: Option<u64>,
    pub(crate) over: bool,
    pub(crate) is_current: bool,
    pub(crate) is_next: bool,
    pub(crate) is_previous: bool,
}

/// The gameweeks, each with what its entries have in it.
pub(crate) fn write_events<L: Ledger>(
    out: &mut Writer,
    alloc: Global,
    seen: &Seen<L>,
    cells: &SeenCells<L>,
    steps: &mut ReadCount<L>,
) -> Result<(), AllocError>
    requires { IsKept seen.now cells.now }
    ensures value { WritesEach seen.now (λ entries. events_window seen.now.facts entries) result
        out.old out.new }
    ensures cost { steps.new
        ≤ steps.old + events_reads seen.now.facts (length seen.now.managers.managers) }
{
    // The law that at most so many are locked as there are, for the prover.
    let _locked = seen.calendar().locked();
    out.begin_array()?;
    for place in 0..seen.calendar().gameweeks() {
        let gameweek = Gw::new(place + 1).unwrap();
        let deadline = deadline_at(seen.calendar(), place);
        let scores = event_scores(seen, cells, gameweek, steps);
        write_event(out, alloc, seen, gameweek, deadline, &scores)?;
    }
    out.end_array()
}

fn write_event<L: Ledger>(
    out: &mut Writer,
    alloc: Global,
    seen: &Seen<L>,
    gameweek: Gw,
    deadline: Moment,
    scores: &EventScores,
) -> Result<(), AllocError>
    ensures { (those : Scores) → AreTold those scores.now
        → Appends result out.old out.new
        (tokens_of (event_data gameweek deadline (average_score those) (highest_score those)
        (highest_entry those) (is_over seen.now.facts gameweek) seen.now.facts.calendar.locked)) }
{
    let locked = seen.calendar().locked();
    let number = gameweek.get();
    let event = Event {
        gameweek,
        deadline,
        average: average_of(scores.total, scores.many),
        highest: highest_of(&scores.best),
        entry: entry_of(&scores.best),
        over: is_over(seen, gameweek),
        is_current: number == locked,
        is_next: number == locked + 1,
        is_previous: number + 1 == locked,
    };
    let name = gameweek_name(alloc, number)?;
    write_row(out, &event, name.as_str())
}

// A gameweek that is called so.
fn write_row(out: &mut Writer, event: &Event, name: &str) -> Result<(), AllocError>
    ensures { Appends result out.old out.new (tokens_of (event_by event.now name.now)) }
{
    out.begin_object()?;
    write_whole(out, "average_entry_score", event.average)?;
    write_truth(out, "data_checked", event.over)?;
    write_moment(out, "deadline_time", event.deadline)?;
    write_count(out, "deadline_time_epoch", event.deadline.get())?;
    write_truth(out, "finished", event.over)?;
    write_integer_or_null(out, "highest_score", event.highest)?;
    write_count_or_null(out, "highest_scoring_entry", event.entry)?;
    write_count(out, "id", u64::from(event.gameweek.get()))?;
    write_truth(out, "is_current", event.is_current)?;
    write_truth(out, "is_next", event.is_next)?;
    write_truth(out, "is_previous", event.is_previous)?;
    write_text(out, "name", name)?;
    out.end_object()
}

// A whole number.
fn write_whole(out: &mut Writer, name: &str, n: i64) -> Result<(), AllocError>
    ensures { Appends result out.old out.new (member_tokens name.now (integer n)) }
{
    out.key(name)?;
    out.i64(n)
}

// The mean of so many that have so much together, rounded down; 0 where there is none.
fn average_of(total: i64, many: u32) -> i64
    ensures { result ≡ average_of total many }
{
    if many == 0 {
        return 0;
    }
    total.div_euclid(i64::from(many))
}

fn highest_of(best: &Option<Best>) -> Option<i32>
    ensures { result ≡ highest_of best.now }
{
    match best {
        Some(best) => Some(best.gross),
        None => None,
    }
}

fn entry_of(best: &Option<Best>) -> Option<u64>
    ensures { result ≡ entry_of best.now }
{
    match best {
        Some(best) => Some(u64::from(best.entry.get())),
        None => None,
    }
}

// Whether a gameweek is locked and has ended.
fn is_over<L: Ledger>(seen: &Seen<L>, gameweek: Gw) -> bool
    ensures { result ≡ is_over seen.now.facts gameweek }
{
    if gameweek.get() > seen.calendar().locked() {
        return false;
    }
    all_finished(seen, seen.calendar().standing(gameweek))
}

fn all_finished<L: Ledger>(seen: &Seen<L>, fixtures: &[FixtureId]) -> bool
    ensures { result ≡ list_all (is_finished seen.now.facts.matches) fixtures.now }
{
    fixtures.iter().all(|fixture| seen.is_finished(*fixture))
}

fn gameweek_name(alloc: Global, number: u8) -> Result<String, AllocError>
    ensures { IfOk result (λ name. string_bytes name ≡ gameweek_name number) }
{
    format!(in alloc; "Gameweek {}", number)
}
