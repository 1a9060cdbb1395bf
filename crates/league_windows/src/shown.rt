// What was written is shown.
ghost use Rattle.std.specs.Prelude.{◌≡◌, IsErr, MatchResult, Ok, true};

use fpl_base::Memory;
use std::alloc::AllocError;

// Whether a window is there: it is what was written, unless memory was wanting.
pub fn is_shown(wrote: Result<(), AllocError>) -> Result<bool, Memory>
    ensures { MatchResult wrote (λ _. result ≡ Ok true) (λ _. IsErr result) }
{
    match wrote {
        Ok(()) => Ok(true),
        Err(_) => Err(Memory),
    }
}
