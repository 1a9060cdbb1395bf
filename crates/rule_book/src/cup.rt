// What a cup is drawn of.
use fpl_base::{Gw, ListOf};

/// The slots of a cup in order: the number of an entry, or 0 for a bye. Slots 2i and 2i + 1 meet in the first round.
pub type Slots = ListOf<u32>;

/// The coins of a cup, each 0 or 1, round by round and tie by tie.
pub type Coins = ListOf<u8>;

/// The draw of a cup: the gameweek of the first round, the slots, and a coin for each tie.
#[derive(Drop)]
pub struct Bracket {
    pub start: Gw,
    pub slots: Slots,
    pub coins: Coins,
}

/// One side of a tie, in the tie's gameweek: the points after deductions, and the goals and the conceded goals of the
/// final eleven.
#[derive(Clone, Copy, Debug, PartialEq, Eq)]
pub struct Side {
    pub net: i32,
    pub goals: u32,
    pub conceded: u32,
}
