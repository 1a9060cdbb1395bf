// The host at its handler: what a message asks of it, and the reply.
ghost use Rattle.std.specs.Prelude.{◌≡◌, ◌≢◌, ◌<◌, Err, IfOk, IsTrue, MatchResult, Ok, OnErr, Some, false, ⊤};
ghost use Rattle.fpl_base.specs.declared.kinds.Caller.{Caller};
ghost use Rattle.fpl_http.specs.Responses.{is_answer_status};
ghost use Rattle.fpl_http.specs.Seen.{reply_seen, request_seen};
ghost use Rattle.fpl_http.specs.Lifts.{LiftsWhile};
ghost use Rattle.fpl_http.specs.Splits.{Both};
ghost use Rattle.fpl_http.specs.Replies.{answer_in};
ghost use Rattle.fpl_requests.specs.Requests.{request_of};
ghost use Rattle.season_book.specs.Hosts.{IsRequest};
ghost use Rattle.season_opening.specs.Opening.{IsLater};
ghost use Rattle.season_keeping.specs.Opening.{HoldsOn, Opens, Withholds};
ghost use Rattle.season_opening.specs.declared.loading.OpenFault.{OpenFault};
ghost use Rattle.season_opening.specs.declared.loading.OpenFault.TheVariants as fault;
ghost use Rattle.request_handler.specs.Handlers.{Asks, IsFaultReply, RepliesAs};
ghost use Rattle.request_handler.specs.Kept.{IsStoodByRows, IsStoodByStops, Leads, StandsByRecords, asked_in, caller_in, kept_as};
ghost use Rattle.request_handler.specs.Looks.{Counted, CountsAs, CountsLooks, counted_as};
ghost use Rattle.request_handler.specs.Replying.{IsReplyUntil, Judges, asked_by, reply_of, unless_malformed};
ghost use Rattle.request_handler.specs.Whole.{IsKeptReply};

use fpl_answers::{answer_text, caller_text, key_text, malformed_text, method_text, unknown_text};
use fpl_base::{Caller, Clock, Keeper, Key, Memory, ReadCount};
use fpl_http::{Message, Reply, Service};
use fpl_requests::{Found, ReadFault, Route, Routes, Scratch, read_request};
use season_book::{Answer, Request};
use season_keeping::Host;
use season_opening::OpenFault;
use std::alloc::Global;
use std::marker::Brand;
use std::sync::ledger::{Blank, Ledger};

/// Where messages come to the host: the table of routes, which is built once for all of them.
#[derive(Drop)]
pub struct RequestHandler {
    routes: Routes,
}

/// The host, and the place in which bodies are read, which is kept from message to message.
#[derive(Drop)]
pub struct HostWithScratch {
    pub host: Host,
    pub scratch: Scratch,
}

/// What a message asks by its route, or the reply that refuses it before the host judges it.
#[derive(Drop)]
enum Asked {
    By(Caller, Request),
    Refused(Reply),
}

impl RequestHandler {
    /// A handler. The table of routes takes memory.
    pub fn new(alloc: Global) -> Result<Self, Memory> {
        Ok(RequestHandler {
            routes: Routes::new(alloc)?,
        })
    }
}

/// A handler, and the host that was opened over a keeper. They take memory. What it reads to open the host is counted apart, so
/// that a counter of reads tells those of messages alone.
pub fn opened<K: Keeper>(
    alloc: Global,
    key: &Key,
    keeper: &mut K,
) -> Result<(RequestHandler, HostWithScratch), OpenFault>
    ensures opened { MatchResult result
        (λ opened. Opens K.tells K.holds K.passes keeper.old keeper.new opened.1.host)
        (Withholds K.tells K.holds K.passes K.faults keeper.old keeper.new) }
    ensures holds { OnErr result (HoldsOn K.tells K.serves K.holds K.passes keeper.old keeper.new) }
    ensures operator { IfOk result (λ opened. opened.1.host.rows.operator ≡ key.now) }
    ensures reread { IfOk result (λ opened. opened.1.host.reread ≡ false) }
    ensures counts { result ≢ Err fault.Keeper → K.faults keeper.new ≡ K.faults keeper.old }
    ensures later { IsLater K.tells K.serves K.faults keeper.old keeper.new }
{
    opened_apart::<K, Brand>(alloc, key, keeper, Blank::new(1))
}

// The same, with a counter that is made of this ledger.
fn opened_apart<K: Keeper, L: Ledger>(
    alloc: Global,
    key: &Key,
    keeper: &mut K,
    blank: Blank,
) -> Result<(RequestHandler, HostWithScratch), OpenFault>
    requires name { blank.name ≡ L.name }
    requires parts { blank.parts ≡ L.parts }
    requires some { 0 < blank.parts }
    ensures opened { MatchResult result
        (λ opened. Opens K.tells K.holds K.passes keeper.old keeper.new opened.1.host)
        (Withholds K.tells K.holds K.passes K.faults keeper.old keeper.new) }
    ensures holds { OnErr result (HoldsOn K.tells K.serves K.holds K.passes keeper.old keeper.new) }
    ensures operator { IfOk result (λ opened. opened.1.host.rows.operator ≡ key.now) }
    ensures reread { IfOk result (λ opened. opened.1.host.reread ≡ false) }
    ensures counts { result ≢ Err fault.Keeper → K.faults keeper.new ≡ K.faults keeper.old }
    ensures later { IsLater K.tells K.serves K.faults keeper.old keeper.new }
{
    let mut steps: ReadCount<L> = ReadCount::open(blank);
    let handler = match RequestHandler::new(alloc) {
        Ok(handler) => handler,
        Err(Memory) => return Err(OpenFault::Memory),
    };
    match Host::open(alloc, keeper, key, &mut steps) {
        Ok(host) => Ok((
            handler,
            HostWithScratch {
                host,
                scratch: Scratch::new(alloc),
            },
        )),
        Err(fault) => Err(fault),
    }
}

// What the owner of a message's key asks by a route.
fn asked_by(
    alloc: Global,
    host: &Host,
    scratch: &mut Scratch,
    message: &Message<'_>,
    route: Route,
    ids: &[u32; 2],
) -> Result<Asked, Memory>
    ensures { IfOk result (Asks (asked_in host.now.rows (request_seen message.now) route ids.now)) }
{
    match caller_of(host, message) {
        None => refused(alloc, 401, key_text()),
        Some(caller) => asked_as(alloc, scratch, &caller, route, ids, message.body),
    }
}

// Whose key a message shows.
fn caller_of(host: &Host, message: &Message<'_>) -> Option<Caller>
    ensures { result ≡ caller_in host.now.rows (request_seen message.now).key }
{
    match message.key {
        Some(bytes) => host.owner_of(bytes),
        None => None,
    }
}

// What a caller asks by a route.
fn asked_as(
    alloc: Global,
    scratch: &mut Scratch,
    caller: &Caller,
    route: Route,
    ids: &[u32; 2],
    body: &[u8],
) -> Result<Asked, Memory>
    ensures { IfOk result (Asks (asked_by (Some caller.now) route ids.now body.now)) }
{
    if route.is_for(*caller) {
        read(alloc, scratch, caller, route, ids, body)
    } else {
        refused(alloc, 403, caller_text())
    }
}

// The reply to a message that goes by a route: the caller and the body first, and then the host.
fn answered<K: Keeper, C: Clock, L: Ledger>(
    alloc: Global,
    host: &mut HostWithScratch,
    keeper: &mut K,
    clock: &mut C,
    steps: &mut ReadCount<L>,
    message: &Message<'_>,
    route: Route,
    ids: &[u32; 2],
) -> Result<Reply, Memory>
    requires { host.old.host.stale ≡ false }
    ensures status { IfOk result (λ reply. IsTrue (is_answer_status reply.status)) }
    ensures answered { Leads K.tells K.serves K.holds K.passes
        (kept_as host.old.host (C.left clock.old) (K.faults keeper.old) keeper.old)
        (kept_as host.new.host (C.left clock.new) (K.faults keeper.new) keeper.new)
        (λ served behind. RepliesAs
        (asked_in host.old.host.rows (request_seen message.now) route ids.now) served
        (answer_in result) behind) }
    ensures counts { CountsAs (asked_in host.old.host.rows (request_seen message.now) route ids.now)
        (counted_as (kept_as host.old.host (C.left clock.old) (K.faults keeper.old) keeper.old)
        steps.old)
        (counted_as (kept_as host.new.host (C.left clock.new) (K.faults keeper.new) keeper.new)
        steps.new) }
{
    match asked_by(alloc, &host.host, &mut host.scratch, message, route, ids)? {
        Asked::Refused(reply) => Ok(reply),
        Asked::By(caller, request) => {
            judged(
                alloc,
                &mut host.host,
                keeper,
                clock,
                steps,
                caller,
                &request,
            )
        }
    }
}

// The reply to what a caller asks, judged at the moment that the clock tells.
fn judged<K: Keeper, C: Clock, L: Ledger>(
    alloc: Global,
    host: &mut Host,
    keeper: &mut K,
    clock: &mut C,
    steps: &mut ReadCount<L>,
    caller: Caller,
    request: &Request,
) -> Result<Reply, Memory>
    requires fresh { host.old.stale ≡ false }
    requires asked { IsRequest request.now }
    ensures status { IfOk result (λ reply. IsTrue (is_answer_status reply.status)) }
    ensures judged { Leads K.tells K.serves K.holds K.passes
        (kept_as host.old (C.left clock.old) (K.faults keeper.old) keeper.old)
        (kept_as host.new (C.left clock.new) (K.faults keeper.new) keeper.new)
        (λ served behind. Judges served caller request.now (answer_in result) behind) }
    ensures counts { CountsAs (Ok (caller, request.now))
        (counted_as (kept_as host.old (C.left clock.old) (K.faults keeper.old) keeper.old)
        steps.old)
        (counted_as (kept_as host.new (C.left clock.new) (K.faults keeper.new) keeper.new)
        steps.new) }
{
    let now = clock.now();
    let answer = host.answer(keeper, caller, now, request, steps);
    replied(alloc, &answer)
}

// The reply of an answer.
fn replied(alloc: Global, answer: &Answer) -> Result<Reply, Memory>
    ensures reply { IfOk result (λ reply. reply_seen reply ≡ reply_of answer.now) }
    ensures status { IfOk result (λ reply. IsTrue (is_answer_status reply.status)) }
{
    answer_text(alloc, answer)
}

// A reply of this status and this body.
fn refusal(alloc: Global, status: u16, body: &'static [u8]) -> Result<Reply, Memory>
    requires { IsTrue (is_answer_status status) }
    ensures reply { IfOk result (λ reply. reply_seen reply ≡ (status, body.now)) }
    ensures status { IfOk result (λ reply. IsTrue (is_answer_status reply.status)) }
{
    Ok(Reply {
        status,
        body: Vec::from_slice(alloc, body)?,
    })
}

// The same, for who asks something.
fn refused(alloc: Global, status: u16, body: &'static [u8]) -> Result<Asked, Memory>
    requires { IsTrue (is_answer_status status) }
    ensures { IfOk result (Asks (Err (status, body.now))) }
{
    Ok(Asked::Refused(refusal(alloc, status, body)?))
}

// What a caller asks by a route and a body.
fn read(
    alloc: Global,
    scratch: &mut Scratch,
    caller: &Caller,
    route: Route,
    ids: &[u32; 2],
    body: &[u8],
) -> Result<Asked, Memory>
    ensures { IfOk result (Asks (unless_malformed caller.now (request_of route ids.now body.now))) }
{
    match read_request(alloc, scratch, route, [ids[0], ids[1]], body) {
        Ok(request) => Ok(Asked::By(*caller, request)),
        Err(ReadFault::Malformed { field }) => {
            let body = malformed_text(alloc, field.name())?;
            Ok(Asked::Refused(Reply { status: 400, body }))
        }
        Err(ReadFault::Memory) => Err(Memory),
    }
}

// The reply where the host could not be made ready.
fn unready(alloc: Global, fault: OpenFault) -> Result<Reply, Memory>
    ensures reply { IfOk result (λ reply. IsFaultReply fault (reply_seen reply)) }
    ensures status { IfOk result (λ reply. IsTrue (is_answer_status reply.status)) }
{
    match fault {
        OpenFault::Keeper => replied(alloc, &Answer::Keeper),
        OpenFault::Damaged(key) => replied(alloc, &Answer::Damaged(key)),
        OpenFault::Memory => Err(Memory),
    }
}

impl<K: Keeper, C: Clock, L: Ledger> Service<HostWithScratch, K, C, L> for RequestHandler {
    ghost State = { Counted K };

    ghost see = { λ now. counted_as
        (kept_as now.0.host (C.left now.2) (K.faults now.1) now.1) now.3 };

    // How many reads are counted; and what is answered by the rows, with what a stop leaves, and by the keeper's records.
    ghost answers = { λ _. Both CountsLooks
        (Both (LiftsWhile (λ _. ⊤) (λ now. IsStoodByRows now.kept) IsReplyUntil)
        (Both (LiftsWhile (λ now. K.tells now.kept.keeper)
        (λ now. IsStoodByStops K.holds K.passes now.kept) IsReplyUntil)
        (LiftsWhile (λ now. K.tells now.kept.keeper × K.serves now.kept.keeper)
        (λ now. StandsByRecords K.holds K.passes now.kept) IsKeptReply))) };

    ghost ready = { λ _ _. ⊤ };

    fn reply(
        &self,
        alloc: Global,
        host: &mut HostWithScratch,
        keeper: &mut K,
        clock: &mut C,
        steps: &mut ReadCount<L>,
        message: &Message<'_>,
    ) -> Result<Reply, Memory> {
        match self.routes.find(message.method, message.target) {
            Found::Unknown => refusal(alloc, 404, unknown_text()),
            Found::Method => refusal(alloc, 405, method_text()),
            Found::Route { route, ids } => match host.host.ready(keeper, steps) {
                Ok(()) => answered(alloc, host, keeper, clock, steps, message, route, &ids),
                Err(fault) => unready(alloc, fault),
            },
        }
    }
}
