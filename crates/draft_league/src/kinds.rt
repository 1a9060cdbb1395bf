// What a draft league is made of.
use fpl_base::{Gw, PlayerId, Position};

/// A player whom a member owns.
#[derive(Clone, Copy, Debug, PartialEq, Eq)]
pub struct Holding {
    pub player: PlayerId,
    pub position: Position,
    /// The number of the member, from 1.
    pub member: u8,
}

/// A member's bid for a player, who is to come in for one of his own at the waivers of a gameweek.
#[derive(Clone, Copy, Debug, PartialEq, Eq)]
pub struct Bid {
    pub gw: Gw,
    pub member: u8,
    pub into: PlayerId,
    pub out: PlayerId,
}

/// What the waivers made of a bid.
#[derive(Clone, Copy, Debug, PartialEq, Eq)]
pub enum End {
    /// The member has the player now, and not the one who was to go.
    Granted,
    /// Somebody owned the player who was to come.
    Owned,
    /// The player was free, but the member had no longer the one who was to go.
    Gone,
}

/// A bid that the waivers of its gameweek settled, and its end.
#[derive(Clone, Copy, Debug, PartialEq, Eq)]
pub struct Outcome {
    pub gw: Gw,
    pub member: u8,
    pub into: PlayerId,
    pub out: PlayerId,
    pub end: End,
}
