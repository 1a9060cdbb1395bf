// What is outside of the program: each by what it tells, if it tells it, and by a count of its faults.
ghost use Rattle.std.specs.Prelude.{◌≡◌, ◌<◌, ◌≤◌, ◌⊎◌, ℕ, List, Option, length, IfSome, IfOk, OnOk, OnErr, Err};
ghost use Rattle.std.specs.Io.{ReadsAtMost};
ghost use Rattle.std.specs.Io.KnownBytes.{Appends, ReadConsumes};
ghost use Rattle.fpl_base.specs.Causes.{HasCause, AppendsFront};
ghost use Rattle.fpl_base.specs.Doors.{Ended, Opens, GivesBack};
ghost use Rattle.fpl_base.specs.Keeping.{Map, applied, map_of, KeysRise, HasKeeperCause};
ghost use Rattle.fpl_base.specs.Shelves.{HasShelfCause};
ghost use Rattle.fpl_base.specs.Moments.{Moments, Tells};

use crate::{Bytes, Memory, Moment, Op, RecordKey};
use std::alloc::Global;

/// A call to the outside failed.
#[derive(Clone, Copy, Debug, PartialEq, Eq)]
pub struct Failed;

/// Where bytes come from.
pub trait Source {
    /// The bytes that are left, if it tells them.
    ghost left: { Self → Option (List ℕ) };

    /// How often it failed, up to the last value of a `u64`.
    ghost faults: { Self → ℕ };

    /// What one call of `read` may make of it. To code over any source this says nothing, and it is had from a call of
    /// `read` alone, and not from two: so who promises it has read exactly once.
    ghost one_read: { Self → Self → Type 0 };

    /// Reads into the front of `into`. `Ok(0)` for a place that is not empty is the end of the input, and a failed
    /// read takes nothing.
    fn read(&mut self, into: &mut [u8]) -> Result<usize, Failed>
        ensures bound { ReadsAtMost result into.new }
        ensures bytes { ReadConsumes (left self.old) (left self.new) result into.new }
        ensures cause { HasCause (faults self.old) (faults self.new) result }
        ensures once { one_read self.old self.new };
}

/// Where bytes go.
pub trait Sink {
    /// The bytes that were taken, if it tells them.
    ghost taken: { Self → Option (List ℕ) };

    /// How often it failed, up to the last value of a `u64`.
    ghost faults: { Self → ℕ };

    /// Takes all of the bytes at `Ok`, and a front of them where it failed.
    fn write(&mut self, bytes: &[u8]) -> Result<(), Failed>
        ensures ok { OnOk result (Appends (taken self.old) (taken self.new) bytes.now) }
        ensures failed { OnErr result (AppendsFront (taken self.old) (taken self.new) bytes.now) }
        ensures cause { HasCause (faults self.old) (faults self.new) result };
}

/// What tells the moment. It never fails.
pub trait Clock {
    /// The moments that it has left, if it tells them.
    ghost left: { Self → Option Moments };

    /// The moment: the next one of those that are left, of which the last is told for good.
    fn now(&mut self) -> Moment
        ensures told { Tells (left self.old) result (left self.new) };
}

/// Why a keeper gave no answer.
#[derive(Clone, Copy, Debug, PartialEq, Eq)]
pub enum KeeperFault {
    /// It failed, which its count of faults shows. What it keeps may be the old records or the new ones.
    Failed,
    /// Memory ran out. It keeps the old records.
    Memory,
}

impl From<Memory> for KeeperFault {
    ghost use Rattle.fpl_base.specs.declared.outside.KeeperFault.TheVariants as fault;

    ghost from_gives = { λ _ gives. gives ≡ fault.Memory };

    fn from(_: Memory) -> Self {
        KeeperFault::Memory
    }
}

/// What keeps the records, through any stop of the program.
pub trait Keeper {
    ghost use Rattle.fpl_base.specs.declared.outside.KeeperFault.TheVariants as fault;

    /// So far what it says of itself is true. That may cease at any call, as when a disk does not return what was
    /// written, and no answer shows it.
    ghost tells: { Self → Type 0 };

    /// It can still answer `Ok`. That too may cease at any call, and does not come back: an `Ok` shows that it did not.
    ghost serves: { Self → Type 0 };

    /// It holds this map. One that holds none does not tell what it keeps.
    ghost holds: { Self → Map → Type 0 };

    /// A stop at this moment may leave this map.
    ghost passes: { Self → Map → Type 0 };

    /// How often it failed, up to the last value of a `u64`.
    ghost faults: { Self → ℕ };

    /// It holds one map at most.
    ghost one_map: { (k : Self) (m n : Map) → holds k m → holds k n → m ≡ n };

    /// All records, in the order of their keys. It takes memory.
    fn load(&mut self, alloc: Global) -> Result<Vec<(RecordKey, Bytes)>, KeeperFault>
        ensures rise { IfOk result (λ pairs. KeysRise pairs.items) }
        ensures gave { IfOk result
            (λ pairs. tells self.new → (m : Map) → holds self.old m → m ≡ map_of pairs.items) }
        ensures alone { OnOk result
            (tells self.new → (m : Map) → holds self.old m → (x : Map) → passes self.new x
            → x ≡ m) }
        ensures done { OnOk result
            (tells self.new → (m : Map) → holds self.old m → holds self.new m) }
        ensures kept { OnErr result
            (tells self.new → serves self.new → (m : Map) → holds self.old m → holds self.new m) }
        ensures stops { tells self.new → (m : Map) → holds self.old m → (x : Map)
            → passes self.new x → passes self.old x }
        ensures told { tells self.new → tells self.old }
        ensures served { tells self.new → serves self.new → serves self.old }
        ensures serves { OnOk result (tells self.new → serves self.new) }
        ensures cause { HasKeeperCause (faults self.old) (faults self.new) result };

    /// Applies all changes, in their order, or none. It takes memory.
    fn commit(&mut self, alloc: Global, ops: &[Op]) -> Result<(), KeeperFault>
        ensures done { OnOk result
            (tells self.new → (m : Map) → holds self.old m → holds self.new (applied m ops.now)) }
        ensures alone { OnOk result
            (tells self.new → (m : Map) → holds self.old m → (x : Map) → passes self.new x
            → x ≡ applied m ops.now) }
        ensures failed { OnErr result
            (tells self.new → serves self.new → (m : Map) → holds self.old m
            → holds self.new m ⊎ holds self.new (applied m ops.now)) }
        ensures kept { result ≡ Err fault.Memory → tells self.new → serves self.new → (m : Map)
            → holds self.old m → holds self.new m }
        ensures stops { tells self.new → (m : Map) → holds self.old m → (x : Map)
            → passes self.new x → passes self.old x ⊎ (x ≡ applied m ops.now) }
        ensures told { tells self.new → tells self.old }
        ensures served { tells self.new → serves self.new → serves self.old }
        ensures serves { OnOk result (tells self.new → serves self.new) }
        ensures cause { HasKeeperCause (faults self.old) (faults self.new) result };
}

/// What takes connections.
pub trait Doors {
    type In: Source;

    type Out: Sink;

    /// The connections still to come, each as the bytes of its source, if it tells them.
    ghost coming: { Self → Option (List (List ℕ)) };

    /// The connections that were given back, if it tells them.
    ghost given_back: { Self → Option (List Ended) };

    /// How often it failed, up to the last value of a `u64`.
    ghost faults: { Self → ℕ };

    /// The next connection. Its counts of faults are 0.
    fn next(&mut self) -> Result<(Self::In, Self::Out), Failed>
        requires { IfSome (coming self.old) (λ all. 0 < length all) }
        ensures opened { IfOk result
            (λ ends. Opens (coming self.old) (coming self.new) (Self.In.left ends.0)
            (Self.Out.taken ends.1)) }
        ensures counts { IfOk result
            (λ ends. (Self.In.faults ends.0 ≡ 0) × (Self.Out.faults ends.1 ≡ 0)) }
        ensures kept { OnErr result (coming self.new ≡ coming self.old) }
        ensures back { given_back self.new ≡ given_back self.old }
        ensures cause { HasCause (faults self.old) (faults self.new) result };

    /// Gives a connection back that has ended.
    fn give_back(&mut self, source: Self::In, sink: Self::Out)
        ensures back { GivesBack (given_back self.old) (given_back self.new)
            (record {
              left = Self.In.left source;
              taken = Self.Out.taken sink;
              read_faults = Self.In.faults source;
              write_faults = Self.Out.faults sink;
            }) }
        ensures coming { coming self.new ≡ coming self.old }
        ensures faults { faults self.new ≡ faults self.old };
}

/// Why a shelf gave no file.
#[derive(Clone, Copy, Debug, PartialEq, Eq)]
pub enum ShelfFault {
    /// It failed, which its count of faults shows.
    Failed,
    /// The file has more than 4,194,304 bytes.
    Long,
    /// Memory ran out.
    Memory,
}

impl From<Memory> for ShelfFault {
    ghost use Rattle.fpl_base.specs.declared.outside.ShelfFault.TheVariants as fault;

    ghost from_gives = { λ _ gives. gives ≡ fault.Memory };

    fn from(_: Memory) -> Self {
        ShelfFault::Memory
    }
}

/// What holds files.
pub trait Shelf {
    ghost use Rattle.fpl_base.specs.declared.outside.ShelfFault.TheVariants as fault;

    /// The bytes of each file by its name, if it tells them: none where no file has the name.
    ghost files: { Self → Option (List ℕ → List ℕ) };

    /// How often it failed, up to the last value of a `u64`.
    ghost faults: { Self → ℕ };

    /// The bytes of the file of a name. It takes memory.
    fn read(&mut self, alloc: Global, name: &str) -> Result<Bytes, ShelfFault>
        ensures gave { IfOk result
            (λ bytes. IfSome (files self.old) (λ bytes_of. bytes ≡ bytes_of name.now)) }
        ensures short { IfOk result (λ bytes. length bytes ≤ 4194304) }
        ensures long { result ≡ Err fault.Long
            → IfSome (files self.old) (λ bytes_of. 4194304 < length (bytes_of name.now)) }
        ensures kept { files self.new ≡ files self.old }
        ensures cause { HasShelfCause (faults self.old) (faults self.new) result };
}
