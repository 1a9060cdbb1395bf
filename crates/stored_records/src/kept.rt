// The records of a store, each read once.
ghost use Rattle.std.specs.Prelude.{◌≡◌, ◌==◌, IfOk, Some, false};
ghost use Rattle.std.specs.Option.{option_map};
ghost use Rattle.season_records.specs.ItemReading.{item_of};
ghost use Rattle.season_records.specs.Laws.{IsBytes};
ghost use Rattle.stored_records.specs.Kept.{AreTold, IsRead, other_in, transfer_in, transfer_item};

use fpl_base::{Bytes, EntryId, Gw, Memory, PlayerId, RecordKey};
use season_records::{Item, decode};
use std::alloc::Global;
use std::marker::Model;

/// What the record of a transfer tells; prices in tenths of a million.
#[derive(Clone, Copy)]
pub struct Transfer {
    pub entry: EntryId,
    pub gameweek: Gw,
    pub number: u32,
    pub out: PlayerId,
    pub into: PlayerId,
    pub sold: u16,
    pub bought: u16,
}

/// What is kept of a record in place of its body. Most records of a large store are transfers: what one tells stands beside
/// its key, and what each other one tells has a place of its own.
#[derive(Drop)]
pub enum Told {
    Transfer(Transfer),
    Other(Box<Item>),
    /// The body of a record that is not spelled as it has to be.
    Unread(Box<Bytes>),
}

/// A record of a store. A contract sees it as its key and its body.
#[derive(Drop)]
pub struct Kept {
    key: RecordKey,
    told: Told,
}

impl Model for Kept {
    ghost use Rattle.std.specs.Prelude.{List, ℕ};
    ghost use Rattle.fpl_base.specs.declared.records.RecordKey.{RecordKey};
    ghost use Rattle.stored_records.specs.Kept.{IsKept, body_kept};

    ghost Value = { RecordKey × List ℕ };

    ghost view = { λ k. (k.key, body_kept k.told) };

    ghost invariant = { λ k. IsKept k.key k.told };
}

// What a body of bytes is spelled as.
fn item_of(alloc: Global, key: RecordKey, body: &[u8]) -> Result<Option<Item>, Memory>
    ensures item { IfOk result (λ item. item ≡ item_of key body.now) }
    ensures bytes { IsBytes body.now }
{
    decode(alloc, key, body)
}

// What is kept of a record that tells this.
fn told_of(alloc: Global, item: Item) -> Result<Told, Memory>
    ensures { IfOk result (AreTold (Some item)) }
{
    match item {
        Item::Transfer {
            entry,
            gameweek,
            number,
            out,
            into,
            sold,
            bought,
        } => Ok(Told::Transfer(Transfer {
            entry,
            gameweek,
            number,
            out,
            into,
            sold,
            bought,
        })),
        other => Ok(Told::Other(Box::new(alloc, other)?)),
    }
}

// What is kept of the record of a key and a body.
fn read(alloc: Global, key: RecordKey, body: Bytes) -> Result<Told, Memory>
    ensures { IfOk result (IsRead key body) }
{
    match item_of(alloc, key, body.as_slice())? {
        Some(item) => told_of(alloc, item),
        None => Ok(Told::Unread(Box::new(alloc, body)?)),
    }
}

impl Kept {
    /// The record of a key and a body, which is read here.
    pub(crate) fn new(alloc: Global, key: RecordKey, body: Bytes) -> Result<Self, Memory>
        ensures { IfOk result (λ kept. kept ≡ (key, body)) }
    {
        let told = read(alloc, key, body)?;
        Ok(Kept { key, told })
    }

    /// Its key.
    pub fn key(&self) -> RecordKey
        ensures { result ≡ self.now.0 }
    {
        self.key
    }

    /// What the record of a transfer tells, if it is spelled as it has to be.
    pub fn transfer(&self) -> Option<Transfer>
        ensures { option_map transfer_item result ≡ transfer_in (item_of self.now.0 self.now.1) }
    {
        match &self.told {
            Told::Transfer(transfer) => Some(*transfer),
            _ => None,
        }
    }

    /// What the record of anything else tells, if it is spelled as it has to be.
    pub fn item(&self) -> Option<&Item>
        ensures other { option_map (λ item. item.now) result
            ≡ other_in (item_of self.now.0 self.now.1) }
        ensures item { (self.now.0.kind == 8) ≡ false
            → option_map (λ item. item.now) result ≡ item_of self.now.0 self.now.1 }
    {
        match &self.told {
            Told::Other(item) => Some(item),
            _ => None,
        }
    }
}
