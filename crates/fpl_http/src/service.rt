// What answers the messages of a session.
ghost use Rattle.std.specs.Prelude.{ℕ, List, IfOk, IsTrue};
ghost use Rattle.fpl_http.specs.Responses.{is_answer_status};
ghost use Rattle.fpl_http.specs.Seen.{request_seen};
ghost use Rattle.fpl_http.specs.Stream.{Request};
ghost use Rattle.fpl_http.specs.Replies.{answer_in};

use crate::decoder::Message;
use crate::responses::Reply;
use fpl_base::{Clock, Keeper, Memory, ReadCount};
use std::alloc::Global;
use std::sync::ledger::Ledger;

/// What answers one message, with a host, a keeper, a clock and a counter of reads, which go from message to message.
/// The service itself stays as it is.
pub trait Service<H, K: Keeper, C: Clock, L: Ledger> {
    /// What promises see of these four.
    ghost State: { Type 0 };

    /// The state in which they are.
    ghost see: { H × K × C × ℕ → State };

    /// In this state it may give a message that answer, a status and a body, and leave that state behind.
    ghost answers: { Self → State → Request → ℕ × List ℕ → State → Type 0 };

    /// When it may be asked.
    ghost ready: { Self → H × K × C × ℕ → Type 0 };

    /// Answers a message. Want of memory is an answer too, of status 507.
    fn reply(
        &self,
        alloc: Global,
        host: &mut H,
        keeper: &mut K,
        clock: &mut C,
        steps: &mut ReadCount<L>,
        message: &Message<'_>,
    ) -> Result<Reply, Memory>
        requires { ready self.now (host.old, keeper.old, clock.old, steps.old) }
        ensures ready { ready self.now (host.new, keeper.new, clock.new, steps.new) }
        ensures status { IfOk result (λ r. IsTrue (is_answer_status r.status)) }
        ensures answered { answers self.now (see (host.old, keeper.old, clock.old, steps.old))
            (request_seen message.now) (answer_in result)
            (see (host.new, keeper.new, clock.new, steps.new)) };
}
