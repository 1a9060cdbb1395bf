// The bytes of a stream in one place that never grows.
ghost use Rattle.std.specs.Prelude.{◌≡◌, ◌++◌, ◌≤◌, ◌<◌, ◌+◌, ◌-◌, [], IfOk, length, take, drop, min, nat_le, ◌||◌, IsTrue, ◌↔◌};
ghost use Rattle.fpl_http.specs.Stored.{Stored};

use std::alloc::{AllocError, Global};
use std::marker::Model;

/// How many bytes there is room for: the most that a message may have, with its head.
pub const ROOM: usize = 270336;

/// How many bytes may lie before those that wait. A stream of short messages so stays in the first part of the place,
/// which the processor then has at hand.
const FAR: usize = 65536;

/// Bytes that wait at the end of those that are kept.
#[derive(Drop)]
pub struct Buffer {
    bytes: Vec<u8>,
    from: usize,
    start: usize,
    end: usize,
}

impl Model for Buffer {
    ghost use Rattle.std.specs.Prelude.{◌≡◌, ◌≤◌, ◌-◌, length, take, drop};
    ghost use Rattle.fpl_http.specs.Stored.{Stored};

    ghost Value = { Stored };

    ghost view = { λ b. record {
      kept = take (b.start - b.from) (drop b.from b.bytes.items);
      waits = take (b.end - b.start) (drop b.start b.bytes.items);
      room = length b.bytes.items - b.end;
    } };

    ghost invariant = { λ b. (b.from ≤ b.start) × (b.start ≤ b.end) × (b.end ≤ length b.bytes.items)
        × (length b.bytes.items ≡ 270336) };
}

impl Buffer {
    pub fn new(alloc: Global) -> Result<Buffer, AllocError>
        ensures { IfOk result (λ b. b ≡ record { kept = []; waits = []; room = 270336 }) }
    {
        Ok(Buffer {
            bytes: vec![in alloc; 0; ROOM]?,
            from: 0,
            start: 0,
            end: 0,
        })
    }

    pub fn kept(&self) -> &[u8]
        ensures { result.now ≡ self.now.kept }
    {
        &self.bytes[self.from..self.start]
    }

    pub fn waits(&self) -> &[u8]
        ensures { result.now ≡ self.now.waits }
    {
        &self.bytes[self.start..self.end]
    }

    pub fn is_empty(&self) -> bool
        ensures { IsTrue result ↔ (self.now.waits ≡ []) }
    {
        self.start == self.end
    }

    /// Passes over the first bytes that wait, and keeps none.
    pub fn skip(&mut self, count: usize)
        requires { count ≤ length self.old.waits }
        ensures { self.new
            ≡ record { kept = []; waits = drop count self.old.waits; room = self.old.room } }
    {
        self.start += count;
        self.from = self.start;
    }

    /// Gives up all bytes.
    pub fn clear(&mut self)
        ensures { self.new ≡ record { kept = []; waits = []; room = 270336 } }
    {
        self.from = 0;
        self.start = 0;
        self.end = 0;
    }

    /// Keeps the first bytes that wait, and those alone.
    pub fn keep(&mut self, count: usize)
        requires { count ≤ length self.old.waits }
        ensures { self.new ≡ record {
          kept = take count self.old.waits;
          waits = drop count self.old.waits;
          room = self.old.room;
        } }
    {
        self.from = self.start;
        self.start += count;
    }

    /// Takes as much of the piece as there is room for.
    pub fn append(&mut self, piece: &[u8]) -> usize
        ensures count { result ≡ min (length piece.now) self.old.room }
        ensures value { self.new ≡ record {
          kept = self.old.kept;
          waits = self.old.waits ++ take result piece.now;
          room = self.old.room - result;
        } }
    {
        let count = piece.len().min(self.bytes.len() - self.end);
        put(&mut self.bytes, self.end, &piece[..count]);
        self.end += count;
        count
    }

    /// Moves the bytes that wait to the front where there is no room after them or much before them, and keeps none.
    pub fn make_room(&mut self)
        ensures waits { self.new.waits ≡ self.old.waits }
        ensures kept { self.new.kept ≡ [] }
        ensures room { length self.old.waits < 270336 → 0 < self.new.room }
    {
        if is_due(self.start, self.end) {
            bring_forward(&mut self.bytes, self.start, self.end);
            self.end -= self.start;
            self.start = 0;
        }
        self.from = self.start;
    }
}

/// Writes a piece at a place.
fn put(bytes: &mut Vec<u8>, at: usize, piece: &[u8])
    requires { at + length piece.now ≤ length bytes.old.items }
    ensures { bytes.new.items
        ≡ take at bytes.old.items ++ piece.now ++ drop (at + length piece.now) bytes.old.items }
{
    bytes[at..at + piece.len()].copy_from_slice(piece);
}

/// Whether what waits in a range has no room after it, or much before it.
fn is_due(start: usize, end: usize) -> bool
    ensures { result ≡ (nat_le 270336 end || nat_le 65536 start) }
{
    end >= ROOM || start >= FAR
}

/// Moves the bytes of a range to the front.
fn bring_forward(bytes: &mut [u8], start: usize, end: usize)
    requires ordered { start ≤ end }
    requires within { end ≤ length bytes.old }
    ensures len { length bytes.new ≡ length bytes.old }
    ensures moved { take (end - start) bytes.new ≡ take (end - start) (drop start bytes.old) }
{
    let count = end - start;
    if count <= start {
        copy_forward(bytes, start, count);
    } else {
        bytes[..end].rotate_left(start);
    }
}

/// Copies so many bytes from a place to the front, which they do not reach beyond.
fn copy_forward(bytes: &mut [u8], start: usize, count: usize)
    requires apart { count ≤ start }
    requires within { start + count ≤ length bytes.old }
    ensures len { length bytes.new ≡ length bytes.old }
    ensures moved { take count bytes.new ≡ take count (drop start bytes.old) }
{
    let (front, back) = bytes.split_at_mut(start);
    front[..count].copy_from_slice(&back[..count]);
}
