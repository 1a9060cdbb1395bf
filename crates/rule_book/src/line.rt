use fpl_base::{PlayerId, Position};

/// One player's figures in one fixture, in the order of the table of figures.
#[derive(Clone, Copy, Debug, PartialEq, Eq)]
pub struct Line {
    pub figures: [u16; 28],
}

/// A player in a fixture: who, where he plays, and his figures.
#[derive(Clone, Copy, Debug, PartialEq, Eq)]
pub struct Appearance {
    pub player: PlayerId,
    pub position: Position,
    pub line: Line,
}
