// A keeper over memory: one that never fails, and one that fails at calls that are listed.
ghost use Rattle.std.specs.Prelude.{◌≡◌, ◌≤◌, ◌<◌, ◌+◌, [], IfOk, reverse, vec_len, vec_capacity};
ghost use Rattle.fpl_base.specs.Keeping.{KeysRise, applied, map_of};
ghost use Rattle.fpl_base.specs.declared.records.Op.TheVariants as op;

use crate::Plan;
use crate::rows::{delete, put};
use fpl_base::{Bytes, Keeper, KeeperFault, Memory, Op, RecordKey};
use std::alloc::Global;
use std::marker::Model;

/// A keeper over memory that never fails. It is seen as its records, in the order of their keys.
#[derive(Drop)]
pub struct MemoryKeeper {
    rows: Vec<(RecordKey, Bytes)>,
}

impl Model for MemoryKeeper {
    ghost use Rattle.std.specs.Prelude.{List, ℕ};
    ghost use Rattle.fpl_base.specs.declared.records.RecordKey.{RecordKey as Key};
    ghost use Rattle.fpl_base.specs.Keeping.{KeysRise};

    ghost Value = { List (Key × List ℕ) };

    ghost view = { λ k. k.rows.items };

    ghost invariant = { λ k. KeysRise k.rows.items };
}

impl MemoryKeeper {
    /// A keeper without records.
    pub fn new(alloc: Global) -> Self
        ensures { result ≡ [] }
    {
        MemoryKeeper {
            rows: Vec::new(alloc),
        }
    }
}

impl Keeper for MemoryKeeper {
    ghost use Rattle.std.specs.Prelude.{⊤, ◌≡◌};
    ghost use Rattle.std.proofs.Common.{sym, ◌∙◌};
    ghost use Rattle.fpl_base.specs.Keeping.{map_of};

    ghost tells = { λ _. ⊤ };

    ghost serves = { λ _. ⊤ };

    ghost holds = { λ k m. m ≡ map_of k };

    ghost passes = { λ k m. m ≡ map_of k };

    ghost faults = { λ _. 0 };

    ghost one_map = { λ _ _ _ p q. p ∙ sym q };

    fn load(&mut self, alloc: Global) -> Result<Vec<(RecordKey, Bytes)>, KeeperFault> {
        Ok(copy_of_rows(alloc, &self.rows)?)
    }

    fn commit(&mut self, alloc: Global, ops: &[Op]) -> Result<(), KeeperFault> {
        let changes = backwards(alloc, ops)?;
        if self.rows.reserve(changes.len()).is_err() {
            return Err(KeeperFault::Memory);
        }
        apply_backwards(&mut self.rows, changes);
        Ok(())
    }
}

fn copy_of_rows(
    alloc: Global,
    rows: &[(RecordKey, Bytes)],
) -> Result<Vec<(RecordKey, Bytes)>, Memory>
    ensures { IfOk result (λ copy. copy.items ≡ rows.now) }
{
    let mut copy = Vec::with_capacity(alloc, rows.len())?;
    for row in rows {
        copy.push((row.0, row.1.copy()?))?;
    }
    Ok(copy)
}

// The changes once more, the last one first.
fn backwards(alloc: Global, ops: &[Op]) -> Result<Vec<Op>, Memory>
    ensures { IfOk result (λ copy. copy.items ≡ reverse ops.now) }
{
    let mut copy = Vec::with_capacity(alloc, ops.len())?;
    for op in ops {
        copy.push(op.copy()?)?;
    }
    copy.reverse();
    Ok(copy)
}

// Applies the changes, the last one first. There is room for them.
fn apply_backwards(rows: &mut Vec<(RecordKey, Bytes)>, mut changes: Vec<Op>)
    requires rise { KeysRise rows.old.items }
    requires room { vec_len rows.old + vec_len changes ≤ vec_capacity rows.old }
    ensures map { map_of rows.new.items ≡ applied (map_of rows.old.items) (reverse changes.items) }
    ensures rise { KeysRise rows.new.items }
{
    while let Some(change) = changes.pop() {
        match change {
            Op::Put(key, body) => put(rows, key, body),
            Op::Delete(key) => delete(rows, key),
        }
    }
}

/// A keeper over memory that fails at the calls that its plan lists, loads and commits alike. A commit that is to fail
/// stores first where `stores` is true, for which memory may run out, and else stores nothing.
#[derive(Drop)]
pub struct FaultyKeeper {
    keeper: MemoryKeeper,
    stores: bool,
    plan: Plan,
}

impl Model for FaultyKeeper {
    ghost use Rattle.test_doubles.specs.Plans.{PlannedKeeper};

    ghost Value = { PlannedKeeper };

    ghost view = { λ k. record { records = k.keeper; stores = k.stores; plan = k.plan } };
}

impl FaultyKeeper {
    /// A keeper with the records of the other one.
    pub fn new(keeper: MemoryKeeper, stores: bool, plan: Plan) -> Self
        ensures { result ≡ record { records = keeper; stores = stores; plan = plan } }
    {
        FaultyKeeper {
            keeper,
            stores,
            plan,
        }
    }
}

impl Keeper for FaultyKeeper {
    ghost use Rattle.std.specs.Prelude.{⊤, ◌≡◌, ◌⊎◌, ◌↔◌, IsTrue, OnOk, OnErr, Err, false};
    ghost use Rattle.std.proofs.Common.{sym, ◌∙◌};
    ghost use Rattle.fpl_base.specs.Keeping.{Map, map_of, KeysRise, HasKeeperCause, applied};
    ghost use Rattle.test_doubles.specs.Plans.{after_call, fails_next};
    ghost use Rattle.fpl_base.specs.declared.outside.KeeperFault.TheVariants as fault;

    ghost tells = { λ _. ⊤ };

    ghost serves = { λ _. ⊤ };

    ghost holds = { λ k m. m ≡ map_of k.records };

    ghost passes = { λ k m. m ≡ map_of k.records };

    ghost faults = { λ k. k.plan.faults };

    ghost one_map = { λ _ _ _ p q. p ∙ sym q };

    fn load(&mut self, alloc: Global) -> Result<Vec<(RecordKey, Bytes)>, KeeperFault>
        ensures rise { IfOk result (λ pairs. KeysRise pairs.items) }
        ensures gave { IfOk result
            (λ pairs. ⊤ → (m : Map) → m ≡ map_of self.old.records → m ≡ map_of pairs.items) }
        ensures alone { OnOk result
            (⊤ → (m : Map) → m ≡ map_of self.old.records → (x : Map) → x ≡ map_of self.new.records
            → x ≡ m) }
        ensures done { OnOk result
            (⊤ → (m : Map) → m ≡ map_of self.old.records → m ≡ map_of self.new.records) }
        ensures kept { OnErr result
            (⊤ → ⊤ → (m : Map) → m ≡ map_of self.old.records → m ≡ map_of self.new.records) }
        ensures stops { ⊤ → (m : Map) → m ≡ map_of self.old.records → (x : Map)
            → x ≡ map_of self.new.records → x ≡ map_of self.old.records }
        ensures told { ⊤ → ⊤ }
        ensures served { ⊤ → ⊤ → ⊤ }
        ensures serves { OnOk result (⊤ → ⊤) }
        ensures cause { HasKeeperCause self.old.plan.faults self.new.plan.faults result }
        ensures plan { self.new.plan ≡ after_call self.old.plan }
        ensures fails { (result ≡ Err fault.Failed) ↔ IsTrue (fails_next self.old.plan) }
        ensures stores { self.new.stores ≡ self.old.stores }
    {
        if self.plan.next_fails() {
            return Err(KeeperFault::Failed);
        }
        self.keeper.load(alloc)
    }

    fn commit(&mut self, alloc: Global, ops: &[Op]) -> Result<(), KeeperFault>
        ensures done { OnOk result
            (⊤ → (m : Map) → m ≡ map_of self.old.records
            → applied m ops.now ≡ map_of self.new.records) }
        ensures alone { OnOk result
            (⊤ → (m : Map) → m ≡ map_of self.old.records → (x : Map) → x ≡ map_of self.new.records
            → x ≡ applied m ops.now) }
        ensures failed { OnErr result
            (⊤ → ⊤ → (m : Map) → m ≡ map_of self.old.records
            → (m ≡ map_of self.new.records) ⊎ (applied m ops.now ≡ map_of self.new.records)) }
        ensures kept { result ≡ Err fault.Memory → ⊤ → ⊤ → (m : Map) → m ≡ map_of self.old.records
            → m ≡ map_of self.new.records }
        ensures stops { ⊤ → (m : Map) → m ≡ map_of self.old.records → (x : Map)
            → x ≡ map_of self.new.records
            → (x ≡ map_of self.old.records) ⊎ (x ≡ applied m ops.now) }
        ensures told { ⊤ → ⊤ }
        ensures served { ⊤ → ⊤ → ⊤ }
        ensures serves { OnOk result (⊤ → ⊤) }
        ensures cause { HasKeeperCause self.old.plan.faults self.new.plan.faults result }
        ensures plan { self.new.plan ≡ after_call self.old.plan }
        ensures fails { (result ≡ Err fault.Failed) ↔ IsTrue (fails_next self.old.plan) }
        ensures unstored { IsTrue (fails_next self.old.plan) → self.old.stores ≡ false
            → self.new.records ≡ self.old.records }
        ensures stores { self.new.stores ≡ self.old.stores }
    {
        if self.plan.next_fails() {
            if self.stores {
                let _ = self.keeper.commit(alloc, ops);
            }
            return Err(KeeperFault::Failed);
        }
        self.keeper.commit(alloc, ops)
    }
}
