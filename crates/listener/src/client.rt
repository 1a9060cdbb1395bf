// One client: what came from it, and what is to go to it.
ghost use Rattle.std.specs.Prelude.{◌≤◌, ◌≡◌, vec_len};

use fpl_http::{Framed, front_of};
use mio::net::TcpStream;
use mio::{Interest, Registry, Token};
use std::alloc::Global;
use std::io::{ErrorKind, Read, Write};
use std::net::Shutdown;
use std::time::{Duration, Instant};
use std::{io, mem};

/// How many seconds a client has for a message, from the answer before it or from its coming, and how many may pass in which
/// it takes nothing of an answer.
const PATIENCE: u64 = 60;

/// How many milliseconds a client that was told everything may still send, and how many pieces are read in one go.
const FAREWELL: u64 = 500;

const PIECES: u32 = 256;

/// The most bytes of a client that wait for a whole message: those of the longest head and the longest body, and 8,192 for
/// empty lines in front. A client that sends as many without a message is told nothing, and closed.
const ROOM: usize = 278_528;

/// The most memory that is kept for a client between its messages.
const KEPT: usize = 16_384;

/// What a client may do next.
#[derive(Clone, Copy, Debug, PartialEq, Eq)]
pub(crate) enum Turn {
    /// Its bytes may become a message.
    Sends,
    /// A message of its stands whole in front, of so many bytes, and the connection ends behind it or not.
    Asks(usize, bool),
    /// Its message is being answered, and the connection ends behind it or not.
    Awaits(bool),
    /// Nothing of what it sends is read any more. It is told what is queued, and that nothing follows.
    Leaves,
    /// It was told all, and that nothing follows.
    Lingers,
    /// It is gone.
    Gone,
}

#[derive(Drop)]
pub(crate) struct Client {
    stream: TcpStream,
    // What came and was not handed out, from a place on.
    came: Vec<u8>,
    from: usize,
    // How many bytes have to be there before another look is worth while.
    wants: usize,
    // Whether a read, and a write, may find something since the last one that did not.
    readable: bool,
    writable: bool,
    ended: bool,
    // What is to be told, of which the first so many bytes went.
    told: Vec<u8>,
    sent: usize,
    turn: Turn,
    since: Instant,
    ghost came_within: { from ≤ vec_len came },
    ghost sent_within: { sent ≤ vec_len told },
}

impl Client {
    pub(crate) fn new(alloc: Global, stream: TcpStream, now: Instant) -> Self {
        Client {
            stream,
            came: Vec::new(alloc),
            from: 0,
            wants: 1,
            readable: true,
            writable: true,
            ended: false,
            told: Vec::new(alloc),
            sent: 0,
            turn: Turn::Sends,
            since: now,
        }
    }

    pub(crate) fn register(&mut self, registry: &Registry, key: usize) -> io::Result<()> {
        let both = Interest::READABLE | Interest::WRITABLE;
        registry.register(&mut self.stream, Token(key), both)
    }

    pub(crate) fn turn(&self) -> Turn {
        self.turn
    }

    /// Whether something is still to be told, or the end of it to be seen.
    pub(crate) fn owes(&self) -> bool {
        !self.told.is_empty() || self.turn == Turn::Lingers
    }

    /// Has reads and writes tried again.
    pub(crate) fn wake(&mut self, readable: bool, writable: bool) {
        self.readable |= readable;
        self.writable |= writable;
    }

    /// Does all that can be done without waiting, and says what the client may do next.
    pub(crate) fn go_on(&mut self, alloc: Global, place: &mut [u8], now: Instant) -> Turn {
        self.send(alloc, now);
        if self.turn == Turn::Sends {
            self.hear(alloc, place);
        }
        if self.turn == Turn::Leaves && self.told.is_empty() {
            let _ = self.stream.shutdown(Shutdown::Write);
            self.turn = Turn::Lingers;
            self.since = now;
        }
        if self.turn == Turn::Lingers {
            self.drain(place);
        }
        self.turn
    }

    /// Ends the time of a client that has kept nothing moving. While it stands in line it is the host that lets it wait.
    pub(crate) fn tire(&mut self, now: Instant) -> Turn {
        let patience = match self.turn {
            Turn::Asks(_, _) | Turn::Awaits(_) => return self.turn,
            Turn::Lingers => Duration::from_millis(FAREWELL),
            _ => Duration::from_secs(PATIENCE),
        };
        if now.duration_since(self.since) >= patience {
            self.turn = Turn::Gone;
        }
        self.turn
    }

    /// Hands out the message that stands in front, or all that is there where it is none. It takes memory.
    pub(crate) fn hand_out(&mut self, alloc: Global) -> Option<Vec<u8>> {
        let Turn::Asks(count, closes) = self.turn else {
            return None;
        };
        let count = count.min(self.came.len() - self.from);
        self.turn = Turn::Awaits(closes);
        self.wants = 1;
        if self.from == 0 && count == self.came.len() {
            return Some(mem::replace(&mut self.came, Vec::new(alloc)));
        }
        let bytes = Vec::from_slice(alloc, &self.came[self.from..self.from + count]).ok()?;
        self.from += count;
        Some(bytes)
    }

    /// Takes the answer, none where it was lost.
    pub(crate) fn answer(&mut self, told: Option<Vec<u8>>, now: Instant) {
        self.since = now;
        match (told, self.turn) {
            (Some(told), Turn::Awaits(closes)) => {
                self.sent = 0;
                self.told = told;
                self.turn = if closes { Turn::Leaves } else { Turn::Sends };
            }
            _ => self.turn = Turn::Gone,
        }
    }

    // Sends of what is to be told as much as the system takes.
    fn send(&mut self, alloc: Global, now: Instant) {
        for _ in 0..u64::MAX {
            if !self.writable || self.told.is_empty() {
                return;
            }
            match self.stream.write(&self.told[self.sent..]) {
                Ok(count) if count > 0 => {
                    self.sent += count;
                    self.since = now;
                }
                Err(fault) if fault.kind() == ErrorKind::Interrupted => {}
                Err(fault) if fault.kind() == ErrorKind::WouldBlock => self.writable = false,
                _ => {
                    self.turn = Turn::Gone;
                    return;
                }
            }
            if self.sent == self.told.len() {
                self.sent = 0;
                self.told = Vec::new(alloc);
            }
        }
    }

    // Reads until a message stands in front, or nothing more is there. While an answer is not taken, nothing is read.
    fn hear(&mut self, alloc: Global, place: &mut [u8]) {
        for _ in 0..u64::MAX {
            if !self.told.is_empty() {
                return;
            }
            self.look();
            if self.turn != Turn::Sends || self.leaves_at_the_end() || !self.readable {
                return;
            }
            self.make_room(alloc);
            let room = place.len().min(ROOM.saturating_sub(self.came.len()));
            match self.stream.read(&mut place[..room]) {
                Ok(0) => self.ended = true,
                Ok(count) => {
                    if self.came.extend_from_slice(&place[..count]).is_err() {
                        self.turn = Turn::Gone;
                        return;
                    }
                }
                Err(fault) if fault.kind() == ErrorKind::Interrupted => {}
                Err(fault) if fault.kind() == ErrorKind::WouldBlock => self.readable = false,
                Err(_) => {
                    self.turn = Turn::Gone;
                    return;
                }
            }
        }
    }

    // Looks whether a message stands in front.
    fn look(&mut self) {
        let waits = &self.came[self.from..];
        if waits.len() < self.wants {
            return;
        }
        match front_of(waits) {
            Framed::Wants(count) if count <= ROOM => self.wants = count,
            Framed::Whole(count, closes) => self.turn = Turn::Asks(count, closes),
            _ => self.turn = Turn::Asks(waits.len(), true),
        }
    }

    // Where nothing more comes, what is left is no message, and nobody waits for an answer to it.
    fn leaves_at_the_end(&mut self) -> bool {
        if self.ended {
            self.turn = Turn::Leaves;
        }
        self.ended
    }

    // Gives up the bytes that were handed out, and memory that a long message took.
    fn make_room(&mut self, alloc: Global) {
        if self.from == self.came.len() {
            self.from = 0;
            if self.came.capacity() > KEPT {
                self.came = Vec::new(alloc);
            } else {
                self.came.clear();
            }
        } else if self.from > 0 {
            let left = self.came.len() - self.from;
            self.came.rotate_left(self.from);
            self.from = 0;
            self.came.truncate(left);
        }
    }

    // Reads what a client still sends to whom nothing more is said, so that closing takes no answer from it.
    fn drain(&mut self, place: &mut [u8]) {
        for _ in 0..PIECES {
            if !self.readable {
                return;
            }
            match self.stream.read(place) {
                Ok(count) if count > 0 => {}
                Err(fault) if fault.kind() == ErrorKind::WouldBlock => self.readable = false,
                _ => {
                    self.turn = Turn::Gone;
                    return;
                }
            }
        }
        self.turn = Turn::Gone;
    }
}
