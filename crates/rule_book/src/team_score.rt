/// What the player of a slot did in a gameweek, over all his matches in it. He played where he had a minute or a card.
#[derive(Clone, Copy, Debug, PartialEq, Eq)]
pub struct Figures {
    pub points: i32,
    pub played: bool,
    pub goals: u32,
    pub conceded: u32,
}

/// The eleven that count: `slots[n - 1]` is the slot that stands for starter n.
#[derive(Clone, Copy, Debug, PartialEq, Eq)]
pub struct Eleven {
    pub slots: [u8; 11],
}

/// The slot whose points count `factor` times.
#[derive(Clone, Copy, Debug, PartialEq, Eq)]
pub struct Armband {
    pub slot: u8,
    pub factor: u8,
}

/// What a team scores in a gameweek. `gross` is before and `net` after the points that transfers cost.
#[derive(Clone, Copy, Debug, PartialEq, Eq)]
pub struct TeamScore {
    pub gross: i32,
    pub cost: u32,
    pub net: i32,
    pub goals: u32,
    pub conceded: u32,
    pub eleven: Eleven,
    pub armband: Option<Armband>,
}
