// The traits of the outside over memory: forms that never fail, and forms that fail at calls that are listed.
ghost use Rattle.std.specs.Prelude.{◌≡◌, ◌≤◌, ◌+◌, ◌-◌, ◌^◌, ◌++◌, ◌↔◌, [], min, Some, None, Ok, length, IfOk, IsErr, OnOk, OnErr, IsTrue};
ghost use Rattle.std.specs.Io.{ReadsAtMost};
ghost use Rattle.std.specs.Io.KnownBytes.{Appends, ReadConsumes};
ghost use Rattle.fpl_base.specs.Causes.{HasCause, AppendsFront};
ghost use Rattle.test_doubles.specs.Plans.{after_call, fails_next, given_of, plan_after_write, taken_of, with_fault, write_fails};

use fpl_base::{
    Bytes, Clock, Doors, Failed, Keeper, KeeperFault, Memory, Moment, Op, RecordKey, Shelf,
    ShelfFault, Sink, Source,
};
use std::alloc::Global;
use std::marker::Model;

/// A source over bytes that never fails. It gives at most `piece` bytes a call, and at least one.
#[derive(Drop)]
pub struct MemorySource<'a> {
    left: &'a [u8],
    piece: usize,
}

impl<'a> Model for MemorySource<'a> {
    ghost use Rattle.test_doubles.specs.Plans.{Pieces};

    ghost Value = { Pieces };

    ghost view = { λ s. record { left = s.left.now; piece = s.piece } };
}

impl<'a> MemorySource<'a> {
    pub fn new(bytes: &'a [u8], piece: usize) -> Self
        ensures { result ≡ record { left = bytes.now; piece = piece } }
    {
        MemorySource { left: bytes, piece }
    }
}

impl<'a> Source for MemorySource<'a> {
    ghost left = { λ s. Some s.left };

    ghost faults = { λ _. 0 };

    ghost one_read = { λ s t. t.piece ≡ s.piece };

    fn read(&mut self, into: &mut [u8]) -> Result<usize, Failed>
        ensures bound { ReadsAtMost result into.new }
        ensures bytes { ReadConsumes (Some self.old.left) (Some self.new.left) result into.new }
        ensures cause { HasCause 0 0 result }
        ensures once { self.new.piece ≡ self.old.piece }
        ensures count { result ≡ Ok (given_of self.old.piece self.old.left (length into.old)) }
    {
        let count = into.len().min(self.left.len()).min(self.piece.max(1));
        let (front, rest) = self.left.split_at(count);
        into[..count].copy_from_slice(front);
        self.left = rest;
        Ok(count)
    }
}

/// Calls that are to fail, by number from 1, and how many calls were made and failed.
#[derive(Drop)]
pub struct Plan {
    failing: Vec<u64>,
    calls: u64,
    faults: u64,
}

impl Model for Plan {
    ghost use Rattle.std.specs.Prelude.{◌≤◌, ◌-◌, ◌^◌};
    ghost use Rattle.test_doubles.specs.Plans.{Planned};

    ghost Value = { Planned };

    ghost view = { λ p. record { failing = p.failing.items; calls = p.calls; faults = p.faults } };

    ghost invariant = { λ p. p.faults ≤ 2 ^ 64 - 1 };
}

impl Plan {
    /// A plan with these calls, and no call so far.
    pub fn new(failing: Vec<u64>) -> Self
        ensures { result ≡ record { failing = failing.items; calls = 0; faults = 0 } }
    {
        Plan {
            failing,
            calls: 0,
            faults: 0,
        }
    }

    /// Begins the next call, and says whether it is to fail, which is then counted.
    pub(crate) fn next_fails(&mut self) -> bool
        ensures fails { result ≡ fails_next self.old }
        ensures begun { self.new ≡ after_call self.old }
        ensures range { self.old.faults ≤ 2 ^ 64 - 1 }
    {
        self.calls = self.calls.saturating_add(1);
        let fails = self.failing.contains(&self.calls);
        if fails {
            self.fault();
        }
        fails
    }

    /// Counts a fault.
    fn fault(&mut self)
        ensures { self.new ≡ with_fault self.old }
    {
        self.faults = self.faults.saturating_add(1);
    }
}

/// A source over bytes that fails at the calls that its plan lists, and gives at most `piece` bytes a call.
#[derive(Drop)]
pub struct FaultySource<'a> {
    source: MemorySource<'a>,
    plan: Plan,
}

impl<'a> Model for FaultySource<'a> {
    ghost use Rattle.test_doubles.specs.Plans.{PlannedSource};

    ghost Value = { PlannedSource };

    ghost view = { λ s. record { left = s.source.left; piece = s.source.piece; plan = s.plan } };
}

impl<'a> FaultySource<'a> {
    pub fn new(bytes: &'a [u8], piece: usize, plan: Plan) -> Self
        ensures { result ≡ record { left = bytes.now; piece = piece; plan = plan } }
    {
        FaultySource {
            source: MemorySource::new(bytes, piece),
            plan,
        }
    }
}

impl<'a> Source for FaultySource<'a> {
    ghost left = { λ s. Some s.left };

    ghost faults = { λ s. s.plan.faults };

    ghost one_read = { λ s t. t.plan ≡ after_call s.plan };

    fn read(&mut self, into: &mut [u8]) -> Result<usize, Failed>
        ensures bound { ReadsAtMost result into.new }
        ensures bytes { ReadConsumes (Some self.old.left) (Some self.new.left) result into.new }
        ensures cause { HasCause self.old.plan.faults self.new.plan.faults result }
        ensures once { self.new.plan ≡ after_call self.old.plan }
        ensures fails { IsErr result ↔ IsTrue (fails_next self.old.plan) }
        ensures piece { self.new.piece ≡ self.old.piece }
        ensures count { IfOk result
            (λ n. n ≡ given_of self.old.piece self.old.left (length into.old)) }
    {
        if self.plan.next_fails() {
            return Err(Failed);
        }
        self.source.read(into)
    }
}

/// A sink with room for a number of bytes, which fails where they are more and at the calls that its plan lists.
#[derive(Drop)]
pub struct FaultySink {
    bytes: Vec<u8>,
    room: usize,
    plan: Plan,
}

impl Model for FaultySink {
    ghost use Rattle.std.specs.Prelude.{◌≤◌, vec_len, vec_capacity};
    ghost use Rattle.test_doubles.specs.Plans.{PlannedSink};

    ghost Value = { PlannedSink };

    ghost view = { λ s. record { taken = s.bytes.items; room = s.room; plan = s.plan } };

    ghost invariant = { λ s. (s.room ≤ vec_capacity s.bytes) × (vec_len s.bytes ≤ s.room) };
}

impl FaultySink {
    /// A sink that took no bytes yet. It takes memory for all that it has room for.
    pub fn new(alloc: Global, room: usize, plan: Plan) -> Result<Self, Memory>
        ensures { IfOk result (λ s. s ≡ record { taken = []; room = room; plan = plan }) }
    {
        Ok(FaultySink {
            bytes: Vec::with_capacity(alloc, room)?,
            room,
            plan,
        })
    }

    /// The bytes that it took.
    pub fn bytes(&self) -> &[u8]
        ensures { result.now ≡ self.now.taken }
    {
        &self.bytes
    }
}

impl Sink for FaultySink {
    ghost taken = { λ s. Some s.taken };

    ghost faults = { λ s. s.plan.faults };

    fn write(&mut self, bytes: &[u8]) -> Result<(), Failed>
        ensures ok { OnOk result (Appends (Some self.old.taken) (Some self.new.taken) bytes.now) }
        ensures failed { OnErr result
            (AppendsFront (Some self.old.taken) (Some self.new.taken) bytes.now) }
        ensures cause { HasCause self.old.plan.faults self.new.plan.faults result }
        ensures room { self.new.room ≡ self.old.room }
        ensures plan { self.new.plan ≡ plan_after_write self.old bytes.now }
        ensures taken { self.new.taken ≡ self.old.taken ++ taken_of self.old bytes.now }
        ensures fails { IsErr result ↔ IsTrue (write_fails self.old bytes.now) }
    {
        if self.plan.next_fails() {
            return Err(Failed);
        }
        let fits = (self.room - self.bytes.len()).min(bytes.len());
        let _ = self.bytes.extend_from_slice(&bytes[..fits]);
        if fits < bytes.len() {
            self.plan.fault();
            return Err(Failed);
        }
        Ok(())
    }
}

/// A clock that tells the moments that it was made with, in their order, and the last of them for good.
#[derive(Clone, Copy, Debug)]
pub struct MemoryClock<'a> {
    next: Moment,
    behind: &'a [Moment],
}

impl<'a> MemoryClock<'a> {
    pub fn new(next: Moment, behind: &'a [Moment]) -> Self
        ensures { ⟦<MemoryClock<'a> as Clock>⟧.left result
            ≡ Some (record { next = next; behind = behind.now }) }
    {
        MemoryClock { next, behind }
    }
}

impl<'a> Clock for MemoryClock<'a> {
    ghost left = { λ c. Some (record { next = c.next; behind = c.behind.now }) };

    fn now(&mut self) -> Moment {
        let moment = self.next;
        match self.behind {
            [] => {}
            [next, behind @ ..] => {
                self.next = *next;
                self.behind = behind;
            }
        }
        moment
    }
}
