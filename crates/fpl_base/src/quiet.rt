ghost use Rattle.std.specs.Prelude.{◌≡◌, [], None, Some};

use crate::{
    Bytes, Doors, Failed, Keeper, KeeperFault, Op, RecordKey, Shelf, ShelfFault, Sink, Source,
};
use std::alloc::Global;

/// What a command gives for a part of the outside that it does not have: it holds nothing, takes everything, and never fails.
#[derive(Clone, Copy, Debug)]
pub struct Quiet;

impl Source for Quiet {
    ghost use Rattle.std.specs.Prelude.{⊤};

    ghost left = { λ _. Some [] };

    ghost faults = { λ _. 0 };

    ghost one_read = { λ _ _. ⊤ };

    fn read(&mut self, _into: &mut [u8]) -> Result<usize, Failed> {
        Ok(0)
    }
}

impl Sink for Quiet {
    ghost taken = { λ _. None };

    ghost faults = { λ _. 0 };

    fn write(&mut self, _: &[u8]) -> Result<(), Failed> {
        Ok(())
    }
}

impl Keeper for Quiet {
    ghost use Rattle.std.specs.Prelude.{⊤};

    ghost tells = { λ _. ⊤ };

    ghost serves = { λ _. ⊤ };

    ghost holds = { λ _ _. ⊥ };

    ghost passes = { λ _ _. ⊥ };

    ghost faults = { λ _. 0 };

    ghost one_map = { λ _ _ _ p _. absurd p };

    fn load(&mut self, alloc: Global) -> Result<Vec<(RecordKey, Bytes)>, KeeperFault> {
        Ok(Vec::new(alloc))
    }

    fn commit(&mut self, _alloc: Global, _ops: &[Op]) -> Result<(), KeeperFault> {
        Ok(())
    }
}

impl Doors for Quiet {
    type In = Quiet;

    type Out = Quiet;

    ghost coming = { λ _. None };

    ghost given_back = { λ _. None };

    ghost faults = { λ _. 0 };

    fn next(&mut self) -> Result<(Quiet, Quiet), Failed> {
        Ok((Quiet, Quiet))
    }

    fn give_back(&mut self, _source: Quiet, _sink: Quiet) {}
}

impl Shelf for Quiet {
    ghost files = { λ _. Some (λ _. []) };

    ghost faults = { λ _. 0 };

    fn read(&mut self, alloc: Global, _name: &str) -> Result<Bytes, ShelfFault> {
        Ok(Bytes::new(alloc))
    }
}
