use fpl_base::{ClubId, FixtureId, Gw, Moment};

/// A match of the season: the two clubs, when it kicks off, and the gameweek in which it now stands, if it stands in
/// one.
#[derive(Clone, Copy, Debug, PartialEq, Eq)]
pub struct Fixture {
    pub id: FixtureId,
    pub home: ClubId,
    pub away: ClubId,
    pub gw: Option<Gw>,
    pub kickoff: Moment,
}
