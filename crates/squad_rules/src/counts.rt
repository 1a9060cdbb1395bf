// How many players stand where.
ghost use Rattle.std.specs.Prelude.{◌≡◌};
ghost use Rattle.rule_book.specs.Positions.{keepers, defenders, midfielders, forwards};

use fpl_base::Position;

pub(crate) fn keepers(positions: &[Position]) -> usize
    ensures { result ≡ keepers positions.now }
{
    positions.iter().filter(|p| **p == Position::Keeper).count()
}

pub(crate) fn defenders(positions: &[Position]) -> usize
    ensures { result ≡ defenders positions.now }
{
    positions
        .iter()
        .filter(|p| **p == Position::Defender)
        .count()
}

pub(crate) fn midfielders(positions: &[Position]) -> usize
    ensures { result ≡ midfielders positions.now }
{
    positions
        .iter()
        .filter(|p| **p == Position::Midfielder)
        .count()
}

pub(crate) fn forwards(positions: &[Position]) -> usize
    ensures { result ≡ forwards positions.now }
{
    positions
        .iter()
        .filter(|p| **p == Position::Forward)
        .count()
}
