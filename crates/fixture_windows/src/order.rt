// Fixtures in the order in which they are shown.
ghost use Rattle.std.specs.Prelude.{◌≡◌, ◌<◌, AllPairs, IfOk};
ghost use Rattle.season_book.specs.FixturesWindow.{by_kickoff};

use rule_book::Fixture;
use std::alloc::{AllocError, Global};

// Fixtures by kick-off, those of one kick-off by id. It takes memory, and time for one sort.
pub(crate) fn by_kickoff(alloc: Global, fixtures: &[Fixture]) -> Result<Vec<Fixture>, AllocError>
    requires { AllPairs (λ x y. x.id < y.id) fixtures.now }
    ensures { IfOk result (λ sorted. sorted.items ≡ by_kickoff fixtures.now) }
{
    let mut sorted = Vec::from_slice(alloc, fixtures)?;
    sorted.sort_unstable_by_key(|fixture| (fixture.kickoff, fixture.id));
    Ok(sorted)
}
