// The events of a match.
ghost use Rattle.std.specs.Prelude.{◌≡◌, ◌≤◌, ◌+◌, [], IfOk, OnErr, OnOk, length, true};
ghost use Rattle.match_events.specs.Events.{is_event};
ghost use Rattle.match_events.specs.Lines.{line_of};
ghost use Rattle.match_events.specs.Refusals.{IsJudged, broken_in};
ghost use Rattle.match_events.specs.Sheets.{AreChanged, insert_refusal, remove_refusal, with_event, without_event};

use crate::changes::changed;
use crate::event::Event;
use crate::judge::judge;
use crate::line::line_of;
use crate::refusal::{EventRefused, EventRule};
use fpl_base::{Memory, PlayerId};
use rule_book::Line;
use std::alloc::Global;
use std::marker::Model;

/// At most so many events stand in a match.
const MOST_EVENTS: usize = 200;

/// The events of a match in their order, each from place 1 on, and what was told of them. A contract sees the length of
/// the match in minutes, the events, and the events as they stood when it was told last whose line had changed.
#[derive(Drop)]
pub struct MatchEvents {
    alloc: Global,
    minutes: u8,
    events: Vec<Event>,
    told: Vec<Event>,
}

impl Model for MatchEvents {
    ghost use Rattle.std.specs.Prelude.{◌≤◌, length};
    ghost use Rattle.match_events.specs.Sheets as sheets;

    ghost Value = { sheets.Sheet };

    ghost view = { λ s.
        record { minutes = s.minutes; events = s.events.items; told = s.told.items } };

    ghost invariant = { λ s. (length s.events.items ≤ 200) × (length s.told.items ≤ 200) };
}

impl MatchEvents {
    /// A match of so many minutes, 1 to 120, without events.
    pub fn new(alloc: Global, minutes: u8) -> Self
        ensures { result ≡ record { minutes = minutes; events = []; told = [] } }
    {
        MatchEvents {
            alloc,
            minutes,
            events: Vec::new(alloc),
            told: Vec::new(alloc),
        }
    }

    /// Puts an event in front of the one at a place, from 1, or behind the last. Where the list would break a rule, or
    /// memory is wanting, all is as before.
    pub fn insert(&mut self, place: usize, event: Event) -> Result<(), EventRefused>
        requires place { (1 ≤ place) × (place ≤ length self.old.events + 1) }
        requires event { is_event self.old.minutes event ≡ true }
        ensures judged { IsJudged (insert_refusal self.old.events place event) result }
        ensures ok { OnOk result
            (self.new ≡ record self.old { events = with_event self.old.events place event }) }
        ensures err { OnErr result (self.new ≡ self.old) }
    {
        if self.events.len() >= MOST_EVENTS {
            return Err(EventRefused::Rule(EventRule::EventsFull));
        }
        match with_event(self.alloc, &self.events, place, event) {
            Ok(events) => self.adopt(events),
            Err(Memory) => Err(EventRefused::Memory),
        }
    }

    /// Takes the event at a place away, from 1. Where the list would break a rule, or memory is wanting, all is as before.
    pub fn remove(&mut self, place: usize) -> Result<(), EventRefused>
        requires { (1 ≤ place) × (place ≤ length self.old.events) }
        ensures judged { IsJudged (remove_refusal self.old.events place) result }
        ensures ok { OnOk result
            (self.new ≡ record self.old { events = without_event self.old.events place }) }
        ensures err { OnErr result (self.new ≡ self.old) }
    {
        match without_event(&self.events, place) {
            Ok(events) => self.adopt(events),
            Err(Memory) => Err(EventRefused::Memory),
        }
    }

    // Takes these events in place of its own, where none of them breaks a rule.
    fn adopt(&mut self, events: Vec<Event>) -> Result<(), EventRefused>
        requires { length events.items ≤ 200 }
        ensures judged { IsJudged (broken_in events.items) result }
        ensures ok { OnOk result (self.new ≡ record self.old { events = events.items }) }
        ensures err { OnErr result (self.new ≡ self.old) }
    {
        match judge(&events) {
            Ok(()) => {
                self.events = events;
                Ok(())
            }
            Err(rule) => Err(EventRefused::Rule(rule)),
        }
    }

    /// How many events there are.
    pub fn len(&self) -> usize
        ensures { result ≡ length self.now.events }
    {
        self.events.len()
    }

    /// The line of a player by the events; `None` where he neither started nor came on.
    pub fn line(&self, player: PlayerId) -> Option<Line>
        ensures { result ≡ line_of self.now.minutes self.now.events player }
    {
        line_of(self.minutes, &self.events, player)
    }

    /// The players whose line differs from that when this was answered last, or from none where it never was; ascending.
    pub fn take_changed(&mut self) -> Result<Vec<PlayerId>, Memory>
        ensures changed { IfOk result (λ players.
            AreChanged self.old.minutes self.old.told self.old.events players.items) }
        ensures few { IfOk result (λ players. length players.items ≤ 400) }
        ensures told { OnOk result (self.new ≡ record self.old { told = self.old.events }) }
        ensures err { OnErr result (self.new ≡ self.old) }
    {
        let players = changed(self.alloc, self.minutes, &self.told, &self.events)?;
        self.told = self.events.clone()?;
        Ok(players)
    }
}

// The events with one more in front of the one at a place.
fn with_event(
    alloc: Global,
    events: &[Event],
    place: usize,
    event: Event,
) -> Result<Vec<Event>, Memory>
    requires { (1 ≤ place) × (place ≤ length events.now + 1) }
    ensures more { IfOk result (λ more. more.items ≡ with_event events.now place event) }
    ensures one { IfOk result (λ more. length more.items ≡ length events.now + 1) }
{
    let (front, behind) = events.split_at(place - 1);
    let mut more = Vec::from_slice(alloc, front)?;
    more.extend_from_slice(&[event])?;
    more.extend_from_slice(behind)?;
    Ok(more)
}

// The events without the one at a place.
fn without_event(events: &Vec<Event>, place: usize) -> Result<Vec<Event>, Memory>
    requires { (1 ≤ place) × (place ≤ length events.now.items) }
    ensures fewer { IfOk result (λ fewer. fewer.items ≡ without_event events.now.items place) }
    ensures one { IfOk result (λ fewer. length fewer.items + 1 ≡ length events.now.items) }
{
    let mut fewer = events.clone()?;
    fewer.remove(place - 1);
    Ok(fewer)
}
