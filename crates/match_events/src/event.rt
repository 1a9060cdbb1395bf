// One event of a match, and what it says of a player.
ghost use Rattle.std.specs.Prelude.{◌≡◌};
ghost use Rattle.match_events.specs.Events.{assists, books, brings_on, comer_of, ends_play, has_minute, is_event, is_player, is_same_side, scores, scores_own, sends_off, takes_off};

use fpl_base::PlayerId;

/// A side of a match.
#[derive(Clone, Copy, Debug, PartialEq, Eq)]
pub enum Side {
    Home,
    Away,
}

impl Side {
    /// Whether two sides are the same.
    pub fn is(self, other: Side) -> bool
        ensures { result ≡ is_same_side self other }
    {
        match (self, other) {
            (Side::Home, Side::Home) | (Side::Away, Side::Away) => true,
            _ => false,
        }
    }
}

/// What happens.
#[derive(Clone, Copy, Debug, PartialEq, Eq)]
pub enum EventKind {
    /// The player is in the starting eleven of the event's side.
    Start,
    /// The player goes off, and the other one comes on for him.
    Sub,
    /// The player scores; the other one, if there is one, assisted.
    Goal,
    /// The player scores an own goal.
    Own,
    /// The player is booked.
    Yellow,
    /// The player is sent off.
    Red,
}

/// An event. The side counts for a start alone.
#[derive(Clone, Copy, Debug, PartialEq, Eq)]
pub struct Event {
    /// 0 for a start, and else from 1 to the length of the match.
    pub minute: u8,
    pub kind: EventKind,
    pub side: Side,
    pub player: PlayerId,
    pub other: Option<PlayerId>,
}

impl Event {
    /// Whether this may be an event of a match of so many minutes: a start stands at minute 0 and every other event in a
    /// minute of the match; a substitution names an incomer, a goal may name who assisted, and no other event names a
    /// second player.
    pub fn is_in(&self, length: u8) -> bool
        ensures { result ≡ is_event length self.now }
    {
        match self.kind {
            EventKind::Start => self.minute == 0 && self.other.is_none(),
            EventKind::Sub => self.has_minute(length) && self.other.is_some(),
            EventKind::Goal => self.has_minute(length),
            EventKind::Own | EventKind::Yellow | EventKind::Red => {
                self.has_minute(length) && self.other.is_none()
            }
        }
    }

    fn has_minute(&self, length: u8) -> bool
        ensures { result ≡ has_minute length self.now }
    {
        1 <= self.minute && self.minute <= length
    }

    // Who starts or comes on by it.
    pub(crate) fn comer(&self) -> Option<PlayerId>
        ensures { result ≡ comer_of self.now }
    {
        match self.kind {
            EventKind::Start => Some(self.player),
            EventKind::Sub => self.other,
            _ => None,
        }
    }

    pub(crate) fn brings_on(&self, player: PlayerId) -> bool
        ensures { result ≡ brings_on player self.now }
    {
        is_player(self.comer(), player)
    }

    pub(crate) fn takes_off(&self, player: PlayerId) -> bool
        ensures { result ≡ takes_off player self.now }
    {
        matches!(self.kind, EventKind::Sub) && self.player == player
    }

    pub(crate) fn sends_off(&self, player: PlayerId) -> bool
        ensures { result ≡ sends_off player self.now }
    {
        matches!(self.kind, EventKind::Red) && self.player == player
    }

    pub(crate) fn ends_play(&self, player: PlayerId) -> bool
        ensures { result ≡ ends_play player self.now }
    {
        self.takes_off(player) || self.sends_off(player)
    }

    pub(crate) fn scores(&self, player: PlayerId) -> bool
        ensures { result ≡ scores player self.now }
    {
        matches!(self.kind, EventKind::Goal) && self.player == player
    }

    pub(crate) fn assists(&self, player: PlayerId) -> bool
        ensures { result ≡ assists player self.now }
    {
        matches!(self.kind, EventKind::Goal) && is_player(self.other, player)
    }

    pub(crate) fn scores_own(&self, player: PlayerId) -> bool
        ensures { result ≡ scores_own player self.now }
    {
        matches!(self.kind, EventKind::Own) && self.player == player
    }

    pub(crate) fn books(&self, player: PlayerId) -> bool
        ensures { result ≡ books player self.now }
    {
        matches!(self.kind, EventKind::Yellow) && self.player == player
    }
}

fn is_player(named: Option<PlayerId>, player: PlayerId) -> bool
    ensures { result ≡ is_player named player }
{
    match named {
        Some(other) => other == player,
        None => false,
    }
}
