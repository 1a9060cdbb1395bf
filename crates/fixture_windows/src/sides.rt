// On which side of a match a player is.
ghost use Rattle.std.specs.Prelude.{◌≡◌};
ghost use Rattle.fixture_windows.specs.Sides.{is_side, side_of};

use fpl_base::PlayerId;
use rule_book::Fixture;
use season_views::Seen;
use std::sync::ledger::Ledger;

// The sides of a match.
#[derive(Clone, Copy, Debug, PartialEq, Eq)]
pub(crate) enum Side {
    Home,
    Away,
}

// The side of a player by the club for which he now plays; `None` where he plays for neither.
pub(crate) fn side_of<L: Ledger>(
    seen: &Seen<L>,
    fixture: &Fixture,
    player: PlayerId,
) -> Option<Side>
    ensures { result ≡ side_of seen.now.facts fixture.now player }
{
    let club = match seen.player(player.get()) {
        Some(player) => player.club,
        None => return None,
    };
    if club == fixture.home {
        Some(Side::Home)
    } else if club == fixture.away {
        Some(Side::Away)
    } else {
        None
    }
}

// Whether this is the side.
pub(crate) fn is_side(side: Side, other: Option<Side>) -> bool
    ensures { result ≡ is_side side other }
{
    match (side, other) {
        (Side::Home, Some(Side::Home)) | (Side::Away, Some(Side::Away)) => true,
        _ => false,
    }
}
