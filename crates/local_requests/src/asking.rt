// A request that is asked of a host.
ghost use Rattle.std.specs.Prelude.{◌≡◌, ◌≤◌, ◌⊎◌, Option, false, true};
ghost use Rattle.fpl_base.specs.Moments.{Moments};
ghost use Rattle.season_book.specs.Hosts.{IsRequest};
ghost use Rattle.season_book.specs.declared.answer.Answer.TheVariants as answer_of;
ghost use Rattle.season_keeping.specs.Answering.{IsCaused};
ghost use Rattle.request_handler.specs.Kept.{Leads, kept_as};
ghost use Rattle.local_requests.specs.Asking.{IsHeard, IsHeardAt};

use fpl_base::{Caller, Clock, Keeper, Moment, ReadCount};
use season_book::{Answer, Request};
use season_keeping::Host;
use std::sync::ledger::Ledger;

/// Asks a caller's request at a moment.
pub fn ask_at<K: Keeper, L: Ledger>(
    host: &mut Host,
    keeper: &mut K,
    steps: &mut ReadCount<L>,
    caller: Caller,
    now: Moment,
    request: &Request,
) -> Answer
    requires fresh { host.old.stale ≡ false }
    requires asked { IsRequest request.now }
    ensures heard { (moments : Option Moments) → Leads K.tells K.serves K.holds K.passes
        (kept_as host.old moments (K.faults keeper.old) keeper.old)
        (kept_as host.new moments (K.faults keeper.new) keeper.new)
        (λ served behind. IsHeardAt now served caller request.now result behind) }
    ensures stale { host.new.stale ≡ true
        → (result ≡ answer_of.Memory) ⊎ (result ≡ answer_of.Keeper) }
    ensures caused { IsCaused
        (record { before = K.faults keeper.old; behind = K.faults keeper.new }) result }
    ensures later { K.faults keeper.old ≤ K.faults keeper.new }
{
    host.answer(keeper, caller, now, request, steps)
}

/// Asks a caller's request at the moment that the clock tells.
pub fn ask<K: Keeper, C: Clock, L: Ledger>(
    host: &mut Host,
    keeper: &mut K,
    clock: &mut C,
    steps: &mut ReadCount<L>,
    caller: Caller,
    request: &Request,
) -> Answer
    requires fresh { host.old.stale ≡ false }
    requires asked { IsRequest request.now }
    ensures heard { Leads K.tells K.serves K.holds K.passes
        (kept_as host.old (C.left clock.old) (K.faults keeper.old) keeper.old)
        (kept_as host.new (C.left clock.new) (K.faults keeper.new) keeper.new)
        (λ served behind. IsHeard served caller request.now result behind) }
    ensures stale { host.new.stale ≡ true
        → (result ≡ answer_of.Memory) ⊎ (result ≡ answer_of.Keeper) }
    ensures caused { IsCaused
        (record { before = K.faults keeper.old; behind = K.faults keeper.new }) result }
    ensures later { K.faults keeper.old ≤ K.faults keeper.new }
{
    let now = clock.now();
    ask_at(host, keeper, steps, caller, now, request)
}
