use fpl_base::{ClubId, Name, PlayerId, Position, Tenths};

/// A player of the season, with the club for which he plays now and his present price. One who is marked `gone` is
/// not bought any more, and stays in the squads that have him.
#[derive(Drop)]
pub struct Player {
    pub id: PlayerId,
    pub name: Name,
    pub position: Position,
    pub club: ClubId,
    pub price: Tenths,
    pub gone: bool,
}
