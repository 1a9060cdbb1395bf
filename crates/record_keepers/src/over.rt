// Work over the keeper of a path, which names no store.
ghost use Rattle.std.specs.Prelude.{ℕ, List};

use crate::at_path::PathKeeper;
use crate::opening::Opening;
use fpl_base::Keeper;

/// A keeper that has its records in the store of a path.
pub trait AtPath: Keeper {
    ghost path: { Self → List ℕ };
}

impl<O: Opening + Drop> AtPath for PathKeeper<O> {
    ghost path = { λ k. k.path };
}

/// What is done over the keeper of a path, and answers an exit status.
pub trait WithKeeper {
    /// When it may be done.
    ghost may: { Self → Type 0 };

    /// How it may end over a keeper of this path, that failed so often before it and so often behind it. To code over any
    /// work this says nothing, and it is had from a call of `with` alone: so who promises it has done the work, over such a
    /// keeper.
    ghost ends: { Self → List ℕ → ℕ → ℕ → ℕ → Type 0 };

    /// Does it over this keeper.
    fn with<K: AtPath>(self, keeper: &mut K) -> u8
        requires { may self }
        ensures { ends self (K.path keeper.old) (K.faults keeper.old) (K.faults keeper.new) result };
}

/// Does something over this keeper.
pub fn work_over<O: Opening + Drop, W: WithKeeper>(mut keeper: PathKeeper<O>, work: W) -> u8
    requires { W.may work }
    ensures { (faults : ℕ) × W.ends work keeper.path keeper.faults faults result }
{
    work.with(&mut keeper)
}
