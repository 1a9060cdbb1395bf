// Laws on the definitions.
ghost use Rattle.request_handler.specs.Answered.{SessionsAnswer};
ghost use Rattle.request_handler.specs.Looks.{RunsReadFew};

use fpl_base::Keeper;
use fpl_http::Answering;

/// A law on the definitions: however a session ends, it answered messages at the front of the bytes that it took, one after
/// another, and left the state behind the last of them.
pub fn sessions_answer<T: Answering>()
    ensures { SessionsAnswer T.one }
{}

/// A law on the definitions: messages that ask nothing but views of a host that is not stale, where no moment that was told for
/// them locks a gameweek, leave the host and its keeper as they were, and no more reads are counted for them than these views
/// allow in all.
pub fn looks_read_few<K: Keeper>()
    ensures { RunsReadFew K }
{}
