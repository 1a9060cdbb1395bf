ghost use Rattle.request_handler.specs.Faults.{FaultsNeverFall};
ghost use Rattle.request_handler.specs.Isolation.{MessagesAreIsolated};
ghost use Rattle.request_handler.specs.Once.{MessagesActOnce, OneAsked};
ghost use Rattle.request_handler.specs.Replying.{Served};
ghost use Rattle.request_handler.specs.Whole.{IsKeptReply, IsWhole, IsWholeReply, RepliesAreWhole, RunsAreWhole, SessionsAreWhole};

use fpl_http::{Staying, sessions_stay};
use fpl_requests::targets_ask_one_thing;
use lawful_books::{books_are_lawful, lawful_books_are_judged};
use season_book::{answers_are_isolated, commands_act_once};

/// A law on the definitions: a message asks one thing of a host, or is refused in one way before the host judges it.
pub fn messages_ask_one_thing()
    ensures { OneAsked }
{
    // The law on which it stands, for the prover.
    targets_ask_one_thing();
}

/// A law on the definitions: in every run of messages, what the host judges of them is a run of requests in which no
/// command acts twice. The other messages leave the host and the moments as they were.
pub fn messages_act_once()
    ensures { MessagesActOnce }
{
    // The law on which it stands, for the prover.
    commands_act_once();
}

/// A law on the definitions: in every run of messages the count of the keeper's faults never falls, behind a reply of want of
/// memory as behind every other.
pub fn faults_never_fall()
    ensures { FaultsNeverFall }
{}

/// A law on the definitions: every reply to a message, but want of memory, a keeper that failed and a record of it that
/// is not lawful, may be given by every host that is the same to whom the message comes from. So no reply hangs on what
/// another manager did in an open gameweek, but one to the operator: whether an entry has had a player to whom he gives
/// another position.
pub fn messages_are_isolated()
    ensures { MessagesAreIsolated }
{
    // The law on which it stands, for the prover.
    answers_are_isolated();
}

/// What stays true of what is served where the keeper tells and serves: there are rows and records of its book, and the
/// book is lawful.
#[derive(Clone, Copy)]
pub struct Wholeness;

impl Staying for Wholeness {
    ghost State = { Served };

    ghost holds = { IsWhole };

    ghost one = { IsKeptReply };

    ghost other = { IsWholeReply };
}

/// A law on the definitions: where a host over a keeper that tells and serves has a lawful book, no reply is 500, and a
/// lawful book is left. So it is in every run of messages, and in every session.
pub fn replies_are_whole()
    ensures reply { RepliesAreWhole }
    ensures run { RunsAreWhole }
    ensures session { SessionsAreWhole }
{
    // The laws on which it stands, for the prover.
    books_are_lawful();
    lawful_books_are_judged();
    targets_ask_one_thing();
    sessions_stay::<Wholeness>();
}
