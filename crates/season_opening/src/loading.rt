// The books that a keeper's records tell.
ghost use Rattle.std.specs.Prelude.{◌≡◌, ◌≢◌, ℕ, Err, IfOk, List, OnErr, OnOk, Some};
ghost use Rattle.fpl_base.specs.Causes.{Rose};
ghost use Rattle.fpl_base.specs.Keeping.{KeysRise, Map, map_of};
ghost use Rattle.fpl_base.specs.declared.records.RecordKey.{RecordKey};
ghost use Rattle.season_running.specs.Standing.{host_rows};
ghost use Rattle.season_opening.specs.Opening.{AreLoaded, AreMadeOf, IsDamaged, IsJudgedAs, IsLater};
ghost use Rattle.season_opening.specs.declared.loading.OpenFault.TheVariants as fault;

use fpl_base::{Bytes, Keeper, KeeperFault, Memory, RecordKey};
use season_restoring::{Restored, books_of};
use std::alloc::Global;
use store_validation::judge;
use stored_records::{Stored, terms_of};

/// Why a host could not be opened or made ready.
#[derive(Clone, Copy, Debug, PartialEq, Eq)]
pub enum OpenFault {
    /// The keeper failed.
    Keeper,
    /// The keeper holds a record that cannot be, under this key.
    Damaged(RecordKey),
    /// There was no memory.
    Memory,
}

impl From<Memory> for OpenFault {
    ghost from_gives = { λ _ gives. gives ≡ fault.Memory };

    fn from(_: Memory) -> Self {
        OpenFault::Memory
    }
}

/// The books that the keeper's records tell. It takes memory in proportion to the records.
pub fn loaded<K: Keeper>(alloc: Global, keeper: &mut K) -> Result<Restored, OpenFault>
    ensures made { IfOk result
        (λ made. (operator : List ℕ)
        → AreLoaded (K.tells keeper.new) (K.holds keeper.old) (K.holds keeper.new)
        (K.passes keeper.new) (host_rows operator made.running made.lasts)) }
    ensures damaged { (key : RecordKey) → result ≡ Err (fault.Damaged key)
        → IsDamaged (K.tells keeper.new) (K.holds keeper.old) (K.holds keeper.new)
        (K.passes keeper.new) key }
    ensures kept { OnErr result
        (K.tells keeper.new → K.serves keeper.new → (m : Map) → K.holds keeper.old m
        → K.holds keeper.new m) }
    ensures stops { K.tells keeper.new → (m : Map) → K.holds keeper.old m → (x : Map)
        → K.passes keeper.new x → K.passes keeper.old x }
    ensures later { IsLater K.tells K.serves K.faults keeper.old keeper.new }
    ensures serves { OnOk result (K.tells keeper.new → K.serves keeper.new) }
    ensures failed { result ≡ Err fault.Keeper → Rose (K.faults keeper.old) (K.faults keeper.new) }
    ensures counts { result ≢ Err fault.Keeper → K.faults keeper.new ≡ K.faults keeper.old }
{
    match keeper.load(alloc) {
        Ok(rows) => restored(alloc, rows),
        Err(KeeperFault::Failed) => Err(OpenFault::Keeper),
        Err(KeeperFault::Memory) => Err(OpenFault::Memory),
    }
}

// The books that records tell.
fn restored(alloc: Global, rows: Vec<(RecordKey, Bytes)>) -> Result<Restored, OpenFault>
    requires { KeysRise rows.items }
    ensures made { IfOk result
        (λ made. (operator : List ℕ)
        → AreMadeOf (map_of rows.items) (host_rows operator made.running made.lasts)) }
    ensures damaged { (key : RecordKey) → result ≡ Err (fault.Damaged key)
        → IsJudgedAs (map_of rows.items) (Some key) }
    ensures given { result ≢ Err fault.Keeper }
{
    let stored = Stored::read(alloc, rows)?;
    let terms = terms_of(alloc, &stored)?;
    match judge(&stored, &terms) {
        None => Ok(books_of(alloc, &stored)?),
        Some(key) => Err(OpenFault::Damaged(key)),
    }
}
