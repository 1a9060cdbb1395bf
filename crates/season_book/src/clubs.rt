// The clubs of a season, which stay as they were when it began.
ghost use Rattle.std.specs.Prelude.{◌≡◌, IfOk};

use crate::Clubs;
use fpl_base::{ClubId, Memory, Name};
use std::alloc::Global;
use std::marker::Model;
use std::rc::Rc;

/// Clubs that a season shares with what is shown of it, so that a view copies none. A contract sees them as a list.
#[derive(Drop)]
pub struct SharedClubs {
    clubs: Rc<Clubs>,
}

impl Model for SharedClubs {
    ghost use Rattle.std.specs.Prelude.{ℕ, List};

    ghost Value = { List (ℕ × List ℕ) };

    ghost view = { λ c. c.clubs.value };
}

impl SharedClubs {
    /// These clubs, to be shared.
    pub fn of(alloc: Global, clubs: Clubs) -> Result<Self, Memory>
        ensures { IfOk result (λ shared. shared ≡ clubs) }
    {
        Ok(SharedClubs {
            clubs: Rc::new(alloc, clubs)?,
        })
    }

    /// The clubs themselves.
    pub fn as_slice(&self) -> &[(ClubId, Name)]
        ensures { result.now ≡ self.now }
    {
        self.clubs.as_ref().as_slice()
    }

    /// The same clubs once more. It takes no memory of its own.
    pub fn share(&self) -> Result<Self, Memory>
        ensures { IfOk result (λ shared. shared ≡ self.now) }
    {
        Ok(SharedClubs {
            clubs: self.clubs.clone()?,
        })
    }
}
