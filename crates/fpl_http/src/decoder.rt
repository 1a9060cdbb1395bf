// A decoder, which takes memory once.
ghost use Rattle.std.specs.Prelude.{◌≡◌, ◌++◌, ◌≤◌, ◌<◌, ◌↔◌, ℕ, [], IfOk, IsTrue, None, Option, length, take, option_map};
ghost use Rattle.std.specs.Option.{ForSome};
ghost use Rattle.fpl_http.specs.Held.{Held, Gives};
ghost use Rattle.fpl_http.specs.Lines.{strip};
ghost use Rattle.fpl_http.specs.Parts.{Within, bytes_at};
ghost use Rattle.fpl_http.specs.Responses.{is_answer_status};
ghost use Rattle.fpl_http.specs.Seen.{request_seen};
ghost use Rattle.fpl_http.specs.Stream.{IsFront, Refusal, Wanting};

use crate::buffer::Buffer;
use crate::head::{FIELDS, Known, Parts, look};
use crate::lines::blank_lines_length;
use fpl_base::Memory;
use httparse::spans::{EMPTY_HEADER_SPAN, HeaderSpan, Span};
use std::alloc::Global;
use std::marker::Model;

/// What a decoder answers.
#[derive(Clone, Copy, Debug, PartialEq, Eq)]
pub enum Next {
    /// A message stands whole in front: `Decoder::message` has it.
    Message,
    /// More bytes have to come.
    NeedMore,
    /// The bytes are no message. The status of the response, after which nothing is read.
    Refused(u16),
}

/// The bytes of a stream, and its messages one by one. Seen as the bytes that wait and the message
/// that was found.
#[derive(Drop)]
pub struct Decoder {
    buffer: Buffer,
    known: Known,
    found: Option<Parts>,
    // Where the fields of a head are found, kept from head to head.
    spans: [HeaderSpan; FIELDS],
}

impl Model for Decoder {
    ghost use Rattle.std.specs.Prelude.{length, option_map};
    ghost use Rattle.std.specs.Option.{ForSome};
    ghost use Rattle.fpl_http.specs.Held.{Held};

    ghost Value = { Held };

    ghost use Rattle.fpl_http.specs.Parts.{request_at, PartsWithin, Knows};

    ghost view = { λ d. record {
      pending = d.buffer.waits;
      found = option_map (request_at d.buffer.kept) d.found;
    } };

    ghost invariant = { λ d. Knows d.buffer.waits d.known
        × ForSome d.found (PartsWithin (length d.buffer.kept)) };
}

/// A message, as the bytes of its parts.
#[derive(Clone, Copy, Debug)]
pub struct Message<'a> {
    pub method: &'a [u8],
    pub target: &'a [u8],
    /// The value of the one `Fpl-Key` field.
    pub key: Option<&'a [u8]>,
    pub body: &'a [u8],
    /// Whether the session ends after the answer.
    pub closes: bool,
}

fn part<'a>(bytes: &'a [u8], span: Option<Span>) -> Option<&'a [u8]>
    requires { ForSome span (Within (length bytes.now)) }
    ensures { option_map (λ k. k.now) result ≡ option_map (bytes_at bytes.now) span }
{
    match span {
        Some(span) => Some(span.of(bytes)),
        None => None,
    }
}

impl Decoder {
    /// Takes 270,336 bytes, the one memory that a decoder takes.
    pub fn new(alloc: Global) -> Result<Decoder, Memory>
        ensures { IfOk result (λ d. (d.pending ≡ []) × (d.found ≡ None)) }
    {
        Ok(Decoder {
            buffer: Buffer::new(alloc)?,
            known: Known::Searched(0),
            found: None,
            spans: [EMPTY_HEADER_SPAN; FIELDS],
        })
    }

    /// The message that the last call of `next` found.
    pub fn message(&self) -> Option<Message<'_>>
        ensures { option_map request_seen result ≡ self.now.found }
    {
        let bytes = self.buffer.kept();
        match self.found {
            Some(parts) => Some(Message {
                method: parts.method.of(bytes),
                target: parts.target.of(bytes),
                key: part(bytes, parts.key),
                body: parts.body.of(bytes),
                closes: parts.closes,
            }),
            None => None,
        }
    }

    /// Takes as much of the piece as there is room for, and answers how much that was: at least one
    /// byte of a piece that is not empty, where the last call of `next` answered `NeedMore`.
    pub fn feed(&mut self, piece: &[u8]) -> usize
        ensures within { result ≤ length piece.now }
        ensures pending { self.new.pending ≡ self.old.pending ++ take result piece.now }
        ensures found { self.new.found ≡ self.old.found }
        ensures some { IsFront self.old.pending Wanting → self.old.pending ≡ strip self.old.pending
            → self.old.found ≡ None → 0 < length piece.now → 0 < result }
        ensures refused { (k : ℕ) → IsFront self.old.pending (Refusal k)
            → IsFront self.new.pending (Refusal k) }
    {
        if self.found.is_none() {
            self.buffer.make_room();
        }
        self.buffer.append(piece)
    }

    /// Gives up the message before, and finds the next one.
    pub fn next(&mut self) -> Next
        ensures gives { Gives self.old.pending result self.new }
        ensures refused { (k : ℕ)
            → (result ≡ Next.Refused k) ↔ IsFront self.old.pending (Refusal k) }
        ensures status { (k : ℕ) → result ≡ Next.Refused k → IsTrue (is_answer_status k) }
        ensures for_good { (k : ℕ) → IsFront self.old.pending (Refusal k)
            → IsFront self.new.pending (Refusal k) }
    {
        self.give_up();
        look(self.buffer.waits(), &mut self.known, &mut self.spans);
        match self.known {
            Known::Searched(_) => Next::NeedMore,
            Known::Refused(status) => Next::Refused(status),
            Known::Awaits(parts) => if parts.body.end <= self.buffer.waits().len() {
                self.buffer.keep(parts.body.end);
                self.known = Known::Searched(0);
                self.found = Some(parts);
                Next::Message
            } else {
                Next::NeedMore
            },
        }
    }

    /// Gives up the message before, and the empty lines in front of the next one.
    fn give_up(&mut self)
        ensures { self.new ≡ record { pending = strip self.old.pending; found = None } }
    {
        let count = blank_lines_length(self.buffer.waits());
        self.buffer.skip(count);
        if count > 0 {
            self.known = Known::Searched(0);
        }
        self.found = None;
    }

    /// Gives up all bytes, for another stream: it is as a new decoder, and takes no memory.
    pub fn clear(&mut self)
        ensures { self.new ≡ record { pending = []; found = None } }
    {
        self.buffer.clear();
        self.known = Known::Searched(0);
        self.found = None;
    }

    /// Whether nothing of a message waits.
    pub fn idle(&self) -> bool
        ensures { IsTrue result ↔ (self.now.pending ≡ []) }
    {
        self.buffer.is_empty()
    }
}
