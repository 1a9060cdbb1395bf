// Laws on the definitions.
ghost use Rattle.std.specs.Prelude.{Option, Some};
ghost use Rattle.request_handler.specs.Replying.{IsReplyUntil, Served};
ghost use Rattle.request_handler.specs.Whole.{IsKeptReply};
ghost use Rattle.fpl_run.specs.Once.{ServesActOnce, SessionsActOnce};
ghost use Rattle.fpl_run.specs.Whole.{PipesAreWhole, ServesAreWhole};

use fpl_base::Keeper;
use fpl_http::Answering;
use lawful_books::lawful_books_are_whole;
use request_handler::{messages_act_once, replies_are_whole, sessions_answer};

/// Over a keeper that tells, and serves to the end, a run of `pipe` or `serve` from a lawful book has no reply of status
/// 500, and leaves a lawful book. Nor is the keeper found damaged as the host is opened.
pub fn lawful_runs_are_whole<K: Keeper>()
    ensures pipe { PipesAreWhole K.tells K.serves K.holds K.passes K.faults }
    ensures serve { ServesAreWhole K.tells K.serves K.holds K.passes K.faults }
{
    // The laws on which it stands, for the prover.
    replies_are_whole();
    lawful_books_are_whole::<K>();
}

/// How messages are replied over a keeper that tells and serves.
#[derive(Clone, Copy)]
pub struct RepliesKept;

impl Answering for RepliesKept {
    ghost State = { Served };

    ghost one = { IsKeptReply };

    ghost other = { IsKeptReply };
}

/// How they are replied over any keeper, up to the first for which the keeper is read again.
#[derive(Clone, Copy)]
pub struct RepliesUntil;

impl Answering for RepliesUntil {
    ghost State = { Option Served };

    ghost one = { IsReplyUntil };

    ghost other = { IsReplyUntil };
}

/// A law on the definitions: over one session of `pipe`, and over all connections of one run of `serve`, in turn, no command
/// acts twice, and none is left out, on whichever connections its messages come. So it is over a keeper that tells and
/// serves, and over any keeper in a run without a message for which it is read again.
pub fn runs_act_once()
    ensures pipe { SessionsActOnce IsKeptReply (λ s. s) }
    ensures serve { ServesActOnce IsKeptReply (λ s. s) }
    ensures pipe_until { SessionsActOnce IsReplyUntil (λ s. Some s) }
    ensures serve_until { ServesActOnce IsReplyUntil (λ s. Some s) }
{
    // The laws on which it stands, for the prover.
    messages_act_once();
    sessions_answer::<RepliesKept>();
    sessions_answer::<RepliesUntil>();
}
