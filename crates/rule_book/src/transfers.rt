use fpl_base::{PlayerId, Tenths};

/// A transfer that is asked for: who goes, and who comes.
#[derive(Clone, Copy, Debug, PartialEq, Eq)]
pub struct Swap {
    pub out: PlayerId,
    pub into: PlayerId,
}

/// A transfer that was made, with the price at which the one was sold and that at which the other was bought.
#[derive(Clone, Copy, Debug, PartialEq, Eq)]
pub struct Sale {
    pub out: PlayerId,
    pub into: PlayerId,
    pub sold: Tenths,
    pub bought: Tenths,
}
