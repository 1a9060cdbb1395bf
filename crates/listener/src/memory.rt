// Doors over memory: a form that never fails, and one that fails at calls that are listed.
ghost use Rattle.std.specs.Prelude.{◌≡◌, ◌++◌, ◌∷◌, ◌↔◌, ◌<◌, ℕ, [], Some, IfOk, IsErr, IsOk, IsTrue, MatchOption, OnErr, map, length};
ghost use Rattle.fpl_base.specs.Causes.{HasCause};
ghost use Rattle.fpl_base.specs.Doors.{GivesBack, Opens};
ghost use Rattle.test_doubles.specs.Plans.{after_call, fails_next};
ghost use Rattle.listener.specs.Forms.{ended_with, fresh_sink};

use fpl_base::{Doors, Failed, Memory, Sink, Source};
use std::alloc::Global;
use std::collections::VecDeque;
use std::marker::Model;
use std::mem;
use test_doubles::{FaultySink, FaultySource, MemorySource, Plan};

/// The sink of a connection over memory, with room for a number of bytes. It brings the place that the connection takes
/// once it is given back.
#[derive(Drop)]
pub struct MemorySink<'a> {
    sink: FaultySink,
    place: Box<Past<'a>>,
}

impl<'a> Model for MemorySink<'a> {
    ghost use Rattle.test_doubles.specs.Plans.{PlannedSink};

    ghost Value = { PlannedSink };

    ghost view = { λ s. s.sink };
}

impl<'a> MemorySink<'a> {
    // A sink that took no bytes yet. It takes memory for all that it has room for.
    fn new(alloc: Global, room: usize) -> Result<Self, Memory>
        ensures fresh { IfOk result (λ s. s ≡ fresh_sink room) }
    {
        let sink = FaultySink::new(alloc, room, Plan::new(Vec::new(alloc)))?;
        let place = Box::new(alloc, Past::Empty)?;
        Ok(MemorySink { sink, place })
    }
}

impl<'a> Sink for MemorySink<'a> {
    ghost taken = { λ s. Some s.taken };

    ghost faults = { λ s. s.plan.faults };

    fn write(&mut self, bytes: &[u8]) -> Result<(), Failed> {
        self.sink.write(bytes)
    }
}

// A connection that was given back.
#[derive(Drop)]
struct Visit<'a> {
    source: MemorySource<'a>,
    sink: FaultySink,
}

// The connections that were given back, the last one in front.
#[derive(Drop)]
enum Past<'a> {
    Empty,
    Last(Visit<'a>, Box<Past<'a>>),
}

// A connection that is still to come.
#[derive(Drop)]
struct Visitor<'a> {
    bytes: &'a [u8],
    sink: MemorySink<'a>,
}

/// Doors that never fail, with connections that are known beforehand. They tell which are still to come, and what became
/// of those that were given back.
#[derive(Drop)]
pub struct MemoryDoors<'a> {
    coming: VecDeque<Visitor<'a>>,
    past: Past<'a>,
    piece: usize,
    room: usize,
}

impl<'a> Model for MemoryDoors<'a> {
    ghost use Rattle.std.specs.Prelude.{◌≡◌, All, map};
    ghost use Rattle.listener.specs.Forms.{KnownDoors, ended_in, fresh_sink};

    ghost Value = { KnownDoors };

    ghost view = { λ d.
        record {
          coming = map (λ v. v.bytes.now) d.coming.items;
          given_back = ended_in d.past;
          piece = d.piece;
          room = d.room;
        } };

    ghost invariant = { λ d. All (λ v. v.sink ≡ fresh_sink d.room) d.coming.items };
}

impl<'a> MemoryDoors<'a> {
    /// Doors with these connections, each as the bytes that its client sends. A source gives at most `piece` bytes a
    /// call, and a sink has room for so many bytes. It takes memory for all of them.
    pub fn new(
        alloc: Global,
        connections: &[&'a [u8]],
        piece: usize,
        room: usize,
    ) -> Result<Self, Memory>
        ensures { IfOk result
            (λ d. d ≡ record {
              coming = map (λ c. c.now) connections.now;
              given_back = [];
              piece = piece;
              room = room;
            }) }
    {
        let mut coming = VecDeque::new(alloc);
        for bytes in connections {
            let sink = MemorySink::new(alloc, room)?;
            coming.push_back(Visitor {
                bytes: *bytes,
                sink,
            })?;
        }
        Ok(MemoryDoors {
            coming,
            past: Past::Empty,
            piece,
            room,
        })
    }

    /// Takes off the connection that was given back last, so that its bytes can be looked at.
    pub fn take_last(&mut self) -> Option<(MemorySource<'a>, FaultySink)>
        ensures coming { self.new.coming ≡ self.old.coming }
        ensures piece { self.new.piece ≡ self.old.piece }
        ensures room { self.new.room ≡ self.old.room }
        ensures last { MatchOption result ((self.old.given_back ≡ []) × (self.new.given_back ≡ []))
            (λ ends. self.old.given_back ≡ self.new.given_back ++ ended_with ends.0 ends.1 ∷ []) }
    {
        match mem::replace(&mut self.past, Past::Empty) {
            Past::Empty => None,
            Past::Last(visit, before) => {
                self.past = Box::into_inner(before);
                Some((visit.source, visit.sink))
            }
        }
    }
}

impl<'a> Doors for MemoryDoors<'a> {
    ghost coming = { λ d. Some d.coming };

    ghost given_back = { λ d. Some d.given_back };

    ghost faults = { λ _. 0 };

    type In = MemorySource<'a>;

    type Out = MemorySink<'a>;

    fn next(&mut self) -> Result<(MemorySource<'a>, MemorySink<'a>), Failed>
        requires { 0 < length self.old.coming }
        ensures opened { IfOk result
            (λ ends. Opens (Some self.old.coming) (Some self.new.coming) (Some ends.0.left)
            (Some ends.1.taken)) }
        ensures counts { IfOk result
            (λ ends. (⟦<MemorySource<'a> as Source>⟧.faults ends.0 ≡ 0)
            × (ends.1.plan.faults ≡ 0)) }
        ensures kept { OnErr result (Some self.new.coming ≡ Some self.old.coming) }
        ensures back { Some self.new.given_back ≡ Some self.old.given_back }
        ensures cause { HasCause 0 0 result }
        ensures piece { self.new.piece ≡ self.old.piece }
        ensures room { self.new.room ≡ self.old.room }
        ensures pieces { IfOk result (λ ends. ends.0.piece ≡ self.old.piece) }
        ensures sinks { IfOk result (λ ends. ends.1 ≡ fresh_sink self.old.room) }
        ensures ok { IsOk result }
    {
        match self.coming.pop_front() {
            Some(visitor) => Ok((MemorySource::new(visitor.bytes, self.piece), visitor.sink)),
            None => Err(Failed),
        }
    }

    fn give_back(&mut self, source: MemorySource<'a>, sink: MemorySink<'a>)
        ensures back { GivesBack (Some self.old.given_back) (Some self.new.given_back)
            (ended_with source.entry sink.entry) }
        ensures coming { Some self.new.coming ≡ Some self.old.coming }
        ensures faults { ◌≡◌ {A = ℕ} 0 0 }
        ensures piece { self.new.piece ≡ self.old.piece }
        ensures room { self.new.room ≡ self.old.room }
    {
        let MemorySink { sink, mut place } = sink;
        *place = mem::replace(&mut self.past, Past::Empty);
        self.past = Past::Last(Visit { source, sink }, place);
    }
}

/// The same doors, which fail at the calls of `next` that their plan lists.
#[derive(Drop)]
pub struct FaultyDoors<'a> {
    doors: MemoryDoors<'a>,
    // A source of no bytes, which is read once in each call and fails by the plan.
    calls: FaultySource<'static>,
}

impl<'a> Model for FaultyDoors<'a> {
    ghost use Rattle.listener.specs.Forms.{PlannedDoors};

    ghost Value = { PlannedDoors };

    ghost view = { λ d.
        record {
          coming = d.doors.coming;
          given_back = d.doors.given_back;
          piece = d.doors.piece;
          room = d.doors.room;
          plan = d.calls.plan;
        } };
}

impl<'a> FaultyDoors<'a> {
    pub fn new(doors: MemoryDoors<'a>, plan: Plan) -> Self
        ensures { result
            ≡ record {
              coming = doors.entry.coming;
              given_back = doors.entry.given_back;
              piece = doors.entry.piece;
              room = doors.entry.room;
              plan = plan;
            } }
    {
        FaultyDoors {
            doors,
            calls: FaultySource::new(b"", 1, plan),
        }
    }

    /// Takes off the connection that was given back last, so that its bytes can be looked at.
    pub fn take_last(&mut self) -> Option<(MemorySource<'a>, FaultySink)>
        ensures coming { self.new.coming ≡ self.old.coming }
        ensures piece { self.new.piece ≡ self.old.piece }
        ensures room { self.new.room ≡ self.old.room }
        ensures plan { self.new.plan ≡ self.old.plan }
        ensures last { MatchOption result ((self.old.given_back ≡ []) × (self.new.given_back ≡ []))
            (λ ends. self.old.given_back ≡ self.new.given_back ++ ended_with ends.0 ends.1 ∷ []) }
    {
        self.doors.take_last()
    }
}

impl<'a> Doors for FaultyDoors<'a> {
    ghost coming = { λ d. Some d.coming };

    ghost given_back = { λ d. Some d.given_back };

    ghost faults = { λ d. d.plan.faults };

    type In = MemorySource<'a>;

    type Out = MemorySink<'a>;

    fn next(&mut self) -> Result<(MemorySource<'a>, MemorySink<'a>), Failed>
        requires { 0 < length self.old.coming }
        ensures opened { IfOk result
            (λ ends. Opens (Some self.old.coming) (Some self.new.coming) (Some ends.0.left)
            (Some ends.1.taken)) }
        ensures counts { IfOk result
            (λ ends. (⟦<MemorySource<'a> as Source>⟧.faults ends.0 ≡ 0)
            × (ends.1.plan.faults ≡ 0)) }
        ensures kept { OnErr result (Some self.new.coming ≡ Some self.old.coming) }
        ensures back { Some self.new.given_back ≡ Some self.old.given_back }
        ensures cause { HasCause self.old.plan.faults self.new.plan.faults result }
        ensures piece { self.new.piece ≡ self.old.piece }
        ensures room { self.new.room ≡ self.old.room }
        ensures pieces { IfOk result (λ ends. ends.0.piece ≡ self.old.piece) }
        ensures sinks { IfOk result (λ ends. ends.1 ≡ fresh_sink self.old.room) }
        ensures plan { self.new.plan ≡ after_call self.old.plan }
        ensures fails { IsErr result ↔ IsTrue (fails_next self.old.plan) }
    {
        if self.calls.read(&mut [0; 0]).is_err() {
            return Err(Failed);
        }
        self.doors.next()
    }

    fn give_back(&mut self, source: MemorySource<'a>, sink: MemorySink<'a>)
        ensures back { GivesBack (Some self.old.given_back) (Some self.new.given_back)
            (ended_with source.entry sink.entry) }
        ensures coming { Some self.new.coming ≡ Some self.old.coming }
        ensures faults { self.new.plan.faults ≡ self.old.plan.faults }
        ensures piece { self.new.piece ≡ self.old.piece }
        ensures room { self.new.room ≡ self.old.room }
        ensures plan { self.new.plan ≡ self.old.plan }
    {
        self.doors.give_back(source, sink);
    }
}
