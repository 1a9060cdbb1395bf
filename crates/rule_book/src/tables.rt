use fpl_base::EntryId;

/// A row of the table of a classic league: an entry's total in points and its counted transfers, with the rank.
#[derive(Clone, Copy, Debug, PartialEq, Eq)]
pub struct Ranked {
    pub rank: u32,
    pub entry: EntryId,
    pub total: i32,
    pub transfers: u32,
}

/// What an entry has of its matches in a head-to-head league: match points, the matches won, drawn and lost, and the
/// points scored in them, after deductions.
#[derive(Clone, Copy, Debug, PartialEq, Eq)]
pub struct HeadScore {
    pub points: u32,
    pub won: u32,
    pub drawn: u32,
    pub lost: u32,
    pub scored: i32,
}

/// A row of the table of a head-to-head league.
#[derive(Clone, Copy, Debug, PartialEq, Eq)]
pub struct HeadRanked {
    pub rank: u32,
    pub entry: EntryId,
    pub score: HeadScore,
}
