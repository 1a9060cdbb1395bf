// What opens a store.
ghost use Rattle.std.specs.Prelude.{ℕ, List, IfOk};
ghost use Rattle.fpl_base.specs.Keeping.{HasKeeperCause};

use fpl_base::{Keeper, KeeperFault};

/// What opens the store of a path.
pub trait Opening {
    /// A store with which a keeper begins.
    type First: Keeper + Drop;

    /// A store that is opened later.
    type Again: Keeper + Drop;

    /// How often it failed, up to the last value of a `u64`.
    ghost faults: { Self → ℕ };

    /// What one call of `begin` with this path may make of it, and which store it may open. To code over any opening this says
    /// nothing, and it is had from a call of `begin` with that very path alone: so who promises it has opened the store there.
    ghost begins: { Self → Self → List ℕ → Self.First → Type 0 };

    /// The same of one call of `open`.
    ghost opens: { Self → Self → List ℕ → Self.Again → Type 0 };

    /// Opens the store of a path for a keeper to begin with.
    fn begin(&mut self, path: &str) -> Result<Self::First, KeeperFault>
        ensures begun { IfOk result (begins self.old self.new path.now) }
        ensures cause { HasKeeperCause (faults self.old) (faults self.new) result };

    /// Opens the store of a path again.
    fn open(&mut self, path: &str) -> Result<Self::Again, KeeperFault>
        ensures opened { IfOk result (opens self.old self.new path.now) }
        ensures cause { HasKeeperCause (faults self.old) (faults self.new) result };
}
