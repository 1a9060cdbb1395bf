// A keeper over memory that never fails.
ghost use Rattle.std.specs.Prelude.{◌≡◌, []};

use crate::tree::{Former, Places, copy_of_records, store};
use fpl_base::{Bytes, Keeper, KeeperFault, Op, RecordKey};
use std::alloc::Global;
use std::marker::Model;

/// A keeper over memory that never fails: a tree of the bodies by their keys, so that a commit costs by its changes, and
/// by the depth of the tree for what is kept. The key of a deleted record stays in the tree, without a body. It is seen
/// as its records, in the order of their keys.
#[derive(Drop)]
pub struct TreeKeeper {
    tree: Places,
    // Room for what a commit may put back, which is empty between commits.
    former: Former,
}

impl Model for TreeKeeper {
    ghost use Rattle.std.specs.Prelude.{List, ℕ};
    ghost use Rattle.fpl_base.specs.declared.records.RecordKey.{RecordKey as Key};
    ghost use Rattle.record_keepers.specs.Records.{records, AreOrdered};

    ghost Value = { List (Key × List ℕ) };

    ghost view = { λ k. records k.tree.entries };

    ghost invariant = { λ k. AreOrdered k.tree.entries };
}

impl TreeKeeper {
    /// A keeper without records.
    pub fn new(alloc: Global) -> Self
        ensures { result ≡ [] }
    {
        TreeKeeper {
            tree: Places::new(alloc),
            former: Former::new(alloc),
        }
    }
}

impl Keeper for TreeKeeper {
    ghost use Rattle.std.specs.Prelude.{⊤, ◌≡◌};
    ghost use Rattle.std.proofs.Common.{sym, ◌∙◌};
    ghost use Rattle.fpl_base.specs.Keeping.{map_of};

    ghost tells = { λ _. ⊤ };

    ghost serves = { λ _. ⊤ };

    ghost holds = { λ k m. m ≡ map_of k };

    ghost passes = { λ k m. m ≡ map_of k };

    ghost faults = { λ _. 0 };

    ghost one_map = { λ _ _ _ p q. p ∙ sym q };

    fn load(&mut self, alloc: Global) -> Result<Vec<(RecordKey, Bytes)>, KeeperFault> {
        Ok(copy_of_records(alloc, &self.tree)?)
    }

    fn commit(&mut self, alloc: Global, ops: &[Op]) -> Result<(), KeeperFault> {
        store(alloc, &mut self.tree, &mut self.former, ops)?;
        Ok(())
    }
}
