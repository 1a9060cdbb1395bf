ghost use Rattle.std.specs.Prelude.{◌≡◌, ◌+◌, not, [], IfOk, OnOk, OnErr, IsSome, None};
ghost use Rattle.std.specs.Option.{option_copied, option_map};
ghost use Rattle.std.specs.Map.{keys_of};
ghost use Rattle.rescore_graph.specs.States.{look, values_in, is_dirty, Puts, planted, raise, stored};

use fpl_base::{Memory, ReadCount};
use std::alloc::Global;
use std::collections::HashMap;
use std::hash::Hash;
use std::marker::Model;
use std::sync::ledger::Ledger;

/// What is kept of a live node.
#[derive(Drop)]
pub struct Slot<V> {
    /// Its value; `None` until it was evaluated.
    pub value: Option<V>,
    /// How often it was evaluated. It stays at its greatest value once it is there.
    pub count: u64,
    /// Whether it has to be evaluated.
    pub dirty: bool,
}

/// One cell for each live node, with its value, the count of its evaluations, and whether it is dirty. A contract sees the
/// nodes with their cells as a list, whose order is left open.
#[derive(Drop)]
pub struct Cells<N: Copy + Ord + Hash, V: Drop> {
    pub(crate) alloc: Global,
    pub(crate) slots: HashMap<N, Slot<V>>,
    // Each dirty node, and maybe nodes that no longer are. Settling empties it.
    pub(crate) pending: Vec<N>,
}

impl<N: Copy + Ord + Hash, V: Drop> Model for Cells<N, V> {
    ghost use Rattle.std.specs.Prelude.{List};
    ghost use Rattle.rescore_graph.specs.declared.cells.Slot.{Slot};
    ghost use Rattle.rescore_graph.specs.Listed.{IsListed};

    ghost Value = { List (N × Slot V) };

    ghost view = { λ c. c.slots.entries };

    ghost invariant = { λ c. IsListed N.cmp c.slots.entries c.pending.items };
}

impl<N: Copy + Ord + Hash, V: Drop> Cells<N, V> {
    /// No cells.
    pub fn new(alloc: Global) -> Self
        ensures { result ≡ [] }
    {
        Cells {
            alloc,
            slots: HashMap::new(alloc),
            pending: Vec::new(alloc),
        }
    }

    /// Makes a node live and dirty, without a value.
    pub fn plant(&mut self, n: N) -> Result<(), Memory>
        requires { look N.cmp self.old n ≡ None }
        ensures ok { OnOk result
            (Puts N.cmp (look N.cmp self.old) (look N.cmp self.new) n planted) }
        ensures err { OnErr result (self.new ≡ self.old) }
    {
        self.pending.push(n)?;
        plant_slot(&mut self.slots, n)?;
        Ok(())
    }

    /// Makes a live node neither live nor dirty.
    pub fn uproot(&mut self, n: N)
        requires { IsSome (look N.cmp self.old n) }
        ensures { Puts N.cmp (look N.cmp self.old) (look N.cmp self.new) n None }
    {
        uproot_slot(&mut self.slots, n);
    }

    /// Makes a live node dirty, and keeps its value and its count.
    pub fn mark(&mut self, n: N) -> Result<(), Memory>
        requires { IsSome (look N.cmp self.old n) }
        ensures ok { OnOk result
            (Puts N.cmp (look N.cmp self.old) (look N.cmp self.new) n
            (raise (look N.cmp self.old n))) }
        ensures err { OnErr result (self.new ≡ self.old) }
        ensures keys { keys_of self.new ≡ keys_of self.old }
    {
        let _ = self.raise(n)?;
        Ok(())
    }

    // Makes a live node dirty, and tells whether it was clean.
    pub(crate) fn raise(&mut self, n: N) -> Result<bool, Memory>
        requires { IsSome (look N.cmp self.old n) }
        ensures ok { OnOk result
            (Puts N.cmp (look N.cmp self.old) (look N.cmp self.new) n
            (raise (look N.cmp self.old n))) }
        ensures clean { IfOk result (λ clean. clean ≡ not (is_dirty (look N.cmp self.old n))) }
        ensures err { OnErr result (self.new ≡ self.old) }
        ensures keys { keys_of self.new ≡ keys_of self.old }
    {
        self.pending.push(n)?;
        if raise_slot(&mut self.slots, n) {
            return Ok(true);
        }
        let _ = self.pending.pop();
        Ok(false)
    }

    /// How often a node was evaluated since it was planted; `None` where it is not live.
    pub fn evaluations(&self, n: N) -> Option<u64>
        ensures { result ≡ option_map (λ s. s.count) (look N.cmp self.now n) }
    {
        match slot_of(&self.slots, n) {
            Some(slot) => Some(slot.count),
            None => None,
        }
    }

    /// The value of a node, by a counted read; `None` where it is not live or was not evaluated yet.
    #[inline(always)]
    pub fn get<L: Ledger>(&self, n: N, steps: &mut ReadCount<L>) -> Option<&V>
        ensures value { option_copied result ≡ values_in (look N.cmp self.now) n }
        ensures cost { steps.new ≡ steps.old + 1 }
    {
        steps.tick();
        match slot_of(&self.slots, n) {
            Some(slot) => slot.value.as_ref(),
            None => None,
        }
    }

    pub(crate) fn is_dirty(&self, n: N) -> bool
        ensures { result ≡ is_dirty (look N.cmp self.now n) }
    {
        match slot_of(&self.slots, n) {
            Some(slot) => slot.dirty,
            None => false,
        }
    }

    // Gives a live node its new value.
    pub(crate) fn store(&mut self, n: N, value: V)
        requires { IsSome (look N.cmp self.old n) }
        ensures puts { Puts N.cmp (look N.cmp self.old) (look N.cmp self.new) n
            (stored value (look N.cmp self.old n)) }
    {
        store_slot(&mut self.slots, n, value);
    }
}

// The cells stand in a map by hash, so that finding one takes about the same time however many there are. The map finds a
// node by `==`; what these calls do is said by `cmp`, as the rules tell nodes apart.

#[inline(always)]
pub(crate) fn slot_of<N: Copy + Ord + Hash, V: Drop>(
    slots: &HashMap<N, Slot<V>>,
    n: N,
) -> Option<&Slot<V>>
    ensures { option_copied result ≡ look N.cmp slots.now.entries n }
{
    slots.get(&n)
}

fn plant_slot<N: Copy + Ord + Hash, V: Drop>(
    slots: &mut HashMap<N, Slot<V>>,
    n: N,
) -> Result<(), Memory>
    ensures ok { OnOk result
        (Puts N.cmp (look N.cmp slots.old.entries) (look N.cmp slots.new.entries) n planted) }
    ensures err { OnErr result (slots.new.entries ≡ slots.old.entries) }
{
    let fresh = Slot {
        value: None,
        count: 0,
        dirty: true,
    };
    slots.insert(n, fresh)?;
    Ok(())
}

fn uproot_slot<N: Copy + Ord + Hash, V: Drop>(slots: &mut HashMap<N, Slot<V>>, n: N)
    ensures { Puts N.cmp (look N.cmp slots.old.entries) (look N.cmp slots.new.entries) n None }
{
    let _ = slots.remove(&n);
}

// Makes a live node dirty, and tells whether it was clean.
fn raise_slot<N: Copy + Ord + Hash, V: Drop>(slots: &mut HashMap<N, Slot<V>>, n: N) -> bool
    requires { IsSome (look N.cmp slots.old.entries n) }
    ensures puts { Puts N.cmp (look N.cmp slots.old.entries) (look N.cmp slots.new.entries) n
        (raise (look N.cmp slots.old.entries n)) }
    ensures clean { result ≡ not (is_dirty (look N.cmp slots.old.entries n)) }
    ensures keys { keys_of slots.new.entries ≡ keys_of slots.old.entries }
{
    match slots.get_mut(&n) {
        Some(slot) => {
            let clean = !slot.dirty;
            slot.dirty = true;
            clean
        }
        None => true,
    }
}

fn store_slot<N: Copy + Ord + Hash, V: Drop>(slots: &mut HashMap<N, Slot<V>>, n: N, value: V)
    requires { IsSome (look N.cmp slots.old.entries n) }
    ensures puts { Puts N.cmp (look N.cmp slots.old.entries) (look N.cmp slots.new.entries) n
        (stored value (look N.cmp slots.old.entries n)) }
{
    if let Some(slot) = slots.get_mut(&n) {
        slot.count = slot.count.saturating_add(1);
        slot.value = Some(value);
        slot.dirty = false;
    }
}
