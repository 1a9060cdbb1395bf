// Texts that are to be written together.
ghost use Rattle.std.specs.Prelude.{◌≡◌, ◌≤◌, ◌+◌, ◌++◌, ◌<◌, [], ℕ, List, IfOk, IsTrue, OnErr, length, nat_lt};
ghost use Rattle.std.specs.Vec.{vec_capacity};
ghost use Rattle.fpl_base.specs.Causes.{Rose};
ghost use Rattle.fpl_http.specs.Responses.{is_answer_status, memory_text, response_text};
ghost use Rattle.fpl_http.specs.Replies.{IsResponse, Sent};

use crate::responses::{append_response, memory_response};
use fpl_base::{Failed, Memory, Sink};
use std::alloc::Global;
use std::marker::Model;

/// An outbox with more bytes than this is full.
const FULL: usize = 262_144;

/// Room for the fixed response, which finds a place in each outbox that is not full.
const RESERVE: usize = 128;

/// Texts, one behind another, that are to be written together.
#[derive(Drop)]
pub struct Outbox {
    bytes: Vec<u8>,
}

impl Model for Outbox {
    ghost use Rattle.std.specs.Prelude.{◌≤◌, ℕ, List};
    ghost use Rattle.std.specs.Vec.{vec_capacity};

    ghost Value = { List ℕ };

    ghost view = { λ o. o.bytes.items };

    ghost invariant = { λ o. 262272 ≤ vec_capacity o.bytes };
}

impl Outbox {
    /// Takes the memory that an outbox has at first.
    pub fn new(alloc: Global) -> Result<Self, Memory>
        ensures { IfOk result (λ outbox. outbox ≡ []) }
    {
        Ok(Outbox {
            bytes: Vec::with_capacity(alloc, FULL + RESERVE)?,
        })
    }

    /// Gives up the texts.
    pub fn clear(&mut self)
        ensures { self.new ≡ [] }
    {
        self.bytes.clear();
    }

    /// Whether it is to be written before another text comes.
    pub fn is_full(&self) -> bool
        ensures { result ≡ nat_lt 262144 (length self.now) }
    {
        self.bytes.len() > FULL
    }

    /// Appends a response, or the fixed one of status 507 where there is no memory for it, as there is for what fits into
    /// the outbox as it was made.
    pub fn respond(&mut self, status: u16, body: &[u8], closing: bool)
        requires status { IsTrue (is_answer_status status) }
        requires room { length self.old ≤ 262144 }
        ensures response { (t : List ℕ) × IsResponse status body.now closing t
            × (self.new ≡ self.old ++ t) }
        ensures fits { length self.old + (length body.now + 160) ≤ 262272
            → self.new ≡ self.old ++ response_text status body.now closing }
    {
        match append_response(&mut self.bytes, status, body, closing) {
            Ok(()) => {}
            Err(Memory) => self.respond_without_memory(closing),
        }
    }

    /// Appends the fixed response of status 507.
    pub fn respond_without_memory(&mut self, closing: bool)
        requires { length self.old ≤ 262144 }
        ensures { self.new ≡ self.old ++ response_text 507 memory_text closing }
    {
        let _ = self.bytes.extend_from_slice(memory_response(closing));
    }

    /// Writes all of it, by one write, and empties it.
    pub fn send<W: Sink>(&mut self, out: &mut W) -> Result<(), Failed>
        ensures sent { Sent (W.taken out.old) (W.taken out.new) result self.old }
        ensures empty { self.new ≡ [] }
        ensures some { OnErr result (0 < length self.old) }
        ensures later { W.faults out.old ≤ W.faults out.new }
        ensures failed { OnErr result (Rose (W.faults out.old) (W.faults out.new)) }
    {
        let sent = write_some(out, &self.bytes);
        self.bytes.clear();
        sent
    }
}

/// Writes a text, if there is one.
fn write_some<W: Sink>(out: &mut W, text: &[u8]) -> Result<(), Failed>
    ensures sent { Sent (W.taken out.old) (W.taken out.new) result text.now }
    ensures some { OnErr result (0 < length text.now) }
    ensures later { W.faults out.old ≤ W.faults out.new }
    ensures failed { OnErr result (Rose (W.faults out.old) (W.faults out.new)) }
{
    if text.is_empty() {
        return Ok(());
    }
    out.write(text)
}
