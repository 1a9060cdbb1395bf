// What a keeper keeps: bodies of bytes under keys.
ghost use Rattle.std.specs.Prelude.{◌≡◌, ◌++◌, [], ◌∷◌, ℕ, List, IfOk, OnOk, OnErr};
ghost use Rattle.fpl_base.specs.Keeping.{precedes};

use crate::Memory;
use std::alloc::Global;
use std::marker::Model;

/// What a record stands under: its kind, and up to three numbers, 0 where they are not used. Keys are ordered by kind,
/// then a, b and c.
#[derive(Clone, Copy, Debug, PartialEq, Eq, PartialOrd, Ord, Hash)]
pub struct RecordKey {
    pub kind: u8,
    pub a: u32,
    pub b: u32,
    pub c: u32,
}

impl RecordKey {
    /// Whether it stands before the other one.
    pub fn precedes(&self, other: &RecordKey) -> bool
        ensures { result ≡ precedes self.now other.now }
    {
        if self.kind != other.kind {
            return self.kind < other.kind;
        }
        if self.a != other.a {
            return self.a < other.a;
        }
        if self.b != other.b {
            return self.b < other.b;
        }
        self.c < other.c
    }
}

/// A list of bytes, as the body of a record.
#[derive(Drop)]
pub struct Bytes {
    bytes: Vec<u8>,
}

impl Model for Bytes {
    ghost use Rattle.std.specs.Prelude.{List, ℕ};

    ghost Value = { List ℕ };

    ghost view = { λ b. b.bytes.items };
}

impl Bytes {
    /// No bytes.
    pub fn new(alloc: Global) -> Self
        ensures { result ≡ [] }
    {
        Bytes {
            bytes: Vec::new(alloc),
        }
    }

    /// These bytes.
    pub fn from_vec(bytes: Vec<u8>) -> Self
        ensures { result ≡ bytes.items }
    {
        Bytes { bytes }
    }

    /// The list with this byte at its end; unchanged after want of memory.
    pub fn push(&mut self, item: u8) -> Result<(), Memory>
        ensures ok { OnOk result (self.new ≡ self.old ++ item ∷ []) }
        ensures err { OnErr result (self.new ≡ self.old) }
    {
        match self.bytes.push(item) {
            Ok(()) => Ok(()),
            Err(_) => Err(Memory),
        }
    }

    /// The bytes themselves.
    pub fn as_slice(&self) -> &[u8]
        ensures { result.now ≡ self.now }
    {
        self.bytes.as_slice()
    }

    /// Another list of the same bytes.
    pub fn copy(&self) -> Result<Self, Memory>
        ensures { IfOk result (λ b. b ≡ self.now) }
    {
        Ok(Bytes {
            bytes: self.bytes.clone()?,
        })
    }
}

/// One change of a batch that a keeper takes whole or not at all.
#[derive(Drop)]
pub enum Op {
    /// The record of this key has this body from now on.
    Put(RecordKey, Bytes),
    /// There is no record of this key from now on.
    Delete(RecordKey),
}

impl Op {
    /// The same change once more.
    pub fn copy(&self) -> Result<Self, Memory>
        ensures { IfOk result (λ op. op ≡ self.now) }
    {
        match self {
            Op::Put(key, body) => Ok(Op::Put(*key, body.copy()?)),
            Op::Delete(key) => Ok(Op::Delete(*key)),
        }
    }
}
