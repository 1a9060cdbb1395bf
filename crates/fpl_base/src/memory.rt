ghost use Rattle.std.specs.Prelude.{◌≡◌};

use crate::Rule;
use std::alloc::{AllocError, AllocFailed};

/// Memory ran out.
#[derive(Clone, Copy, Debug, PartialEq, Eq)]
pub struct Memory;

impl From<AllocError> for Memory {
    fn from(_: AllocError) -> Self {
        Memory
    }
}

impl<T: Drop> From<AllocFailed<T>> for Memory {
    fn from(_: AllocFailed<T>) -> Self {
        Memory
    }
}

/// Why a call that takes memory refused: by a rule of the game, or for want of memory.
#[derive(Clone, Copy, Debug, PartialEq, Eq)]
pub enum Refused {
    Rule(Rule),
    Memory,
}

impl From<Rule> for Refused {
    ghost use Rattle.fpl_base.specs.declared.memory.Refused.TheVariants as refused;

    ghost from_gives = { λ rule gives. gives ≡ refused.Rule rule };

    fn from(rule: Rule) -> Self {
        Refused::Rule(rule)
    }
}

impl From<Memory> for Refused {
    ghost use Rattle.fpl_base.specs.declared.memory.Refused.TheVariants as refused;

    ghost from_gives = { λ _ gives. gives ≡ refused.Memory };

    fn from(_: Memory) -> Self {
        Refused::Memory
    }
}
