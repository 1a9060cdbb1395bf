// One session with a host that is open.
ghost use Rattle.std.specs.Prelude.{◌≡◌, IfSome};
ghost use Rattle.fpl_base.specs.Causes.{Rose};
ghost use Rattle.fpl_http.specs.Replies.{Speaks};
ghost use Rattle.fpl_http.specs.Sessions.{EndsAs, SessionOf};
ghost use Rattle.request_handler.specs.Kept.{LeadsAll, kept_as};
ghost use Rattle.request_handler.specs.Looks.{CountsLooks, SessionReadsFew, counted_as};
ghost use Rattle.request_handler.specs.Replying.{IsReplyUntil};
ghost use Rattle.request_handler.specs.Whole.{IsKeptReply};
ghost use Rattle.fpl_run.specs.Pipe.{IsSession};
ghost use Rattle.fpl_run.specs.Talk.{TalksCount, TalksLead};

use fpl_base::{Clock, Keeper, ReadCount, Sink, Source};
use fpl_http::{Buffers, Ending, session, sessions_lift, sessions_split};
use request_handler::{
    ByRecords, ByRows, ByStops, HostWithScratch, ReadsFirst, RequestHandler, RowsFirst, StopsFirst,
    looks_read_few, sessions_answer,
};
use std::alloc::Global;
use std::sync::ledger::Ledger;

/// Answers the messages of a source into a sink. While they ask nothing but views of a host that is not stale, and no
/// deadline passes, the host and its keeper stay as they were, and no more reads are counted than these views allow in all.
pub fn talk<S: Source, W: Sink, C: Clock, K: Keeper, L: Ledger>(
    alloc: Global,
    buffers: &mut Buffers,
    handler: &RequestHandler,
    host: &mut HostWithScratch,
    keeper: &mut K,
    source: &mut S,
    sink: &mut W,
    clock: &mut C,
    steps: &mut ReadCount<L>,
) -> Ending
    ensures leads { LeadsAll K.tells K.serves K.holds K.passes
        (kept_as host.old.host (C.left clock.old) (K.faults keeper.old) keeper.old)
        (kept_as host.new.host (C.left clock.new) (K.faults keeper.new) keeper.new)
        (IsSession IsReplyUntil (S.left source.old) (S.left source.new) (W.taken sink.old)
        (W.taken sink.new) result)
        (IsSession IsKeptReply (S.left source.old) (S.left source.new) (W.taken sink.old)
        (W.taken sink.new) result) }

    // How many reads are counted for each message, and so for all of them.
    ensures counts { SessionOf (Speaks CountsLooks) (S.left source.old) (S.left source.new)
        (counted_as (kept_as host.old.host (C.left clock.old) (K.faults keeper.old) keeper.old)
        steps.old)
        (counted_as (kept_as host.new.host (C.left clock.new) (K.faults keeper.new) keeper.new)
        steps.new)
        (W.taken sink.old) (W.taken sink.new) result }
    ensures reads { SessionReadsFew (S.left source.old) (S.left source.new)
        (counted_as (kept_as host.old.host (C.left clock.old) (K.faults keeper.old) keeper.old)
        steps.old)
        (counted_as (kept_as host.new.host (C.left clock.new) (K.faults keeper.new) keeper.new)
        steps.new) }
    ensures exact { IfSome (S.left source.old) (λ all. EndsAs all result) }
    ensures read { result ≡ Ending.Read → Rose (S.faults source.old) (S.faults source.new) }
    ensures write { result ≡ Ending.Write → Rose (W.faults sink.old) (W.faults sink.new) }
{
    // The laws of what a session is told by, for the prover.
    talks_lead::<K>();
    talks_count::<K>();
    session(
        alloc, buffers, handler, host, keeper, source, sink, clock, steps,
    )
}

// A law: a session leads on by each of the three views of its keeper.
fn talks_lead<K: Keeper>()
    ensures { TalksLead K.tells K.serves K.holds K.passes }
{
    // The laws on which it stands, for the prover.
    sessions_split::<ReadsFirst<K>>();
    sessions_split::<RowsFirst<K>>();
    sessions_split::<StopsFirst<K>>();
    sessions_lift::<ByRows<K>>();
    sessions_lift::<ByStops<K>>();
    sessions_lift::<ByRecords<K>>();
}

// A law: a session counts reads as its messages do, which are few where these are looks.
fn talks_count<K: Keeper>()
    ensures { TalksCount K.tells K.serves K.holds K.passes }
{
    // The laws on which it stands, for the prover.
    sessions_split::<ReadsFirst<K>>();
    sessions_answer::<ReadsFirst<K>>();
    looks_read_few::<K>();
}
