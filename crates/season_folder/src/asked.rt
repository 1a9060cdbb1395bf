// A shelf of which each read is a step of its own.
use crate::disk::Disk;
use crate::memory::{FaultyShelf, MemoryShelf};
use fpl_base::{Bytes, Quiet, Shelf, ShelfFault};
use std::alloc::Global;
use std::rt::Files;

/// A shelf that tells one read from none and from two.
pub trait AskedShelf: Shelf {
    ghost use Rattle.std.specs.Prelude.{◌≡◌, ◌<◌, ◌≤◌, ℕ, List, Result, Err, IfOk, IfSome, length};
    ghost use Rattle.fpl_base.specs.Shelves.{HasShelfCause};
    ghost use Rattle.fpl_base.specs.declared.outside.ShelfFault.{ShelfFault};
    ghost use Rattle.fpl_base.specs.declared.outside.ShelfFault.TheVariants as fault;

    /// What one call of `ask` for a name may make of it, and what came of that call. To code over any shelf this says nothing,
    /// and it is had from a call of `ask` alone, and not from two: so who promises it has asked exactly once, for this name.
    ghost one_read: { Self → List ℕ → Result (List ℕ) ShelfFault → Self → Type 0 };

    /// The bytes of the file of a name, as `read` gives them. It takes memory.
    fn ask(&mut self, alloc: Global, name: &str) -> Result<Bytes, ShelfFault>
        ensures gave { IfOk result
            (λ bytes. IfSome (Self.files self.old) (λ bytes_of. bytes ≡ bytes_of name.now)) }
        ensures short { IfOk result (λ bytes. length bytes ≤ 4194304) }
        ensures long { result ≡ Err fault.Long
            → IfSome (Self.files self.old) (λ bytes_of. 4194304 < length (bytes_of name.now)) }
        ensures kept { Self.files self.new ≡ Self.files self.old }
        ensures cause { HasShelfCause (Self.faults self.old) (Self.faults self.new) result }
        ensures once { one_read self.old name.now result self.new };
}

impl<'a, R: Files> AskedShelf for Disk<'a, R> {
    ghost use Rattle.std.specs.Prelude.{⊤};

    ghost one_read = { λ _ _ _ _. ⊤ };

    fn ask(&mut self, alloc: Global, name: &str) -> Result<Bytes, ShelfFault> {
        self.read(alloc, name)
    }
}

impl AskedShelf for Quiet {
    ghost use Rattle.std.specs.Prelude.{⊤};

    ghost one_read = { λ _ _ _ _. ⊤ };

    fn ask(&mut self, alloc: Global, name: &str) -> Result<Bytes, ShelfFault> {
        self.read(alloc, name)
    }
}

impl<'a> AskedShelf for MemoryShelf<'a> {
    ghost use Rattle.std.specs.Prelude.{◌≡◌};

    ghost one_read = { λ s _ _ t. t ≡ s };

    fn ask(&mut self, alloc: Global, name: &str) -> Result<Bytes, ShelfFault> {
        self.read(alloc, name)
    }
}

impl<'a> AskedShelf for FaultyShelf<'a> {
    ghost use Rattle.std.specs.Prelude.{◌≡◌};
    ghost use Rattle.test_doubles.specs.Plans.{after_call};

    ghost one_read = { λ s _ _ t. t.plan ≡ after_call s.plan };

    fn ask(&mut self, alloc: Global, name: &str) -> Result<Bytes, ShelfFault> {
        self.read(alloc, name)
    }
}
