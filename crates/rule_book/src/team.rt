use fpl_base::{Chip, PlayerId, Position, Tenths};

/// A player of a team, with the price at which he was bought.
#[derive(Clone, Copy, Debug, PartialEq, Eq)]
pub struct Pick {
    pub player: PlayerId,
    pub position: Position,
    pub bought: Tenths,
}

/// An entry's team in a gameweek. Slot n, from 1 to 15, is `picks[n - 1]`: slot 1 is the goalkeeper, 2 to 11 are the
/// other starters, 12 is the goalkeeper on the bench, and 13 to 15 are the others on the bench by priority. `captain`
/// and `vice` are slots.
#[derive(Clone, Copy, Debug, PartialEq, Eq)]
pub struct Team {
    pub picks: [Pick; 15],
    pub captain: u8,
    pub vice: u8,
    pub bank: Tenths,
    pub chip: Chip,
}
