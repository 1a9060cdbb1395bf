ghost use Rattle.std.specs.Prelude.{◌≡◌, ◌≢◌, ◌<◌, ◌≤◌, ◌+◌, ◌⊎◌, Some, IsSome, IfOk, OnOk, OnErr};
ghost use Rattle.std.specs.List.{sum_by};
ghost use Rattle.std.specs.Option.{option_copied};
ghost use Rattle.rescore_graph.specs.Graph.{Among, DependsOn};
ghost use Rattle.rescore_graph.specs.States.{look, values_in, State, IsDirty, Raised};
ghost use Rattle.rescore_graph.specs.Settling.{Sound, Progress, Evaluates, IsCalm, Settles, Remains};
ghost use Rattle.rescore_graph.specs.Work.{AreAll, IsFront};

use crate::cells::{Cells, slot_of};
use crate::levels::{LEVELS, level_from};
use crate::nodes::Nodes;
use crate::rules::Rules;
use fpl_base::{Memory, ReadCount};
use std::hash::Hash;
use std::sync::ledger::Ledger;

/// What settling did.
#[derive(Drop)]
pub struct Report<N: Copy> {
    /// The nodes that were evaluated, each once, by levels.
    pub evaluated: Nodes<N>,
}

impl<N: Copy + Ord + Hash, V: Drop> Cells<N, V> {
    /// Brings every live cell to its replay value, and evaluates only what depends on what changed. After want of
    /// memory some of it is done, what is left to do is dirty or depends on what is dirty, and a further call goes on.
    pub fn settle<R: Rules<Node = N, Value = V>, L: Ledger>(
        &mut self,
        rules: &R,
        steps: &mut ReadCount<L>,
    ) -> Result<Report<N>, Memory>
        requires order { R.in_order rules.now }
        requires sound { Sound (R.graph rules.now) (look N.cmp self.old) }
        ensures settles { IfOk result
            (λ report. Settles (R.graph rules.now) (look N.cmp self.old)
            (look N.cmp self.new) report.evaluated) }
        ensures cost { IfOk result
            (λ report. steps.new ≤ steps.old + sum_by (R.graph rules.now).weight report.evaluated) }

        // after want of memory too
        ensures remains { Remains (R.graph rules.now) (look N.cmp self.old) (look N.cmp self.new) }
    {
        let mut evaluated = Nodes::new(self.alloc);
        let mut work = Nodes::from_slice(self.alloc, self.pending.as_slice())?;
        let mut level = level_from(rules, work.as_slice(), 0);
        'levels: while level < LEVELS {
            self.settle_level(rules, level, &mut work, &mut evaluated, steps)?;
            level = level_from(rules, work.as_slice(), level + 1);
        }
        self.pending.clear();
        Ok(Report { evaluated })
    }

    // Evaluates the dirty nodes of one level, where none is of a lower one.
    fn settle_level<R: Rules<Node = N, Value = V>, L: Ledger>(
        &mut self,
        rules: &R,
        level: u16,
        work: &mut Nodes<N>,
        evaluated: &mut Nodes<N>,
        steps: &mut ReadCount<L>,
    ) -> Result<(), Memory>
        requires order { R.in_order rules.now }
        requires sound { Sound (R.graph rules.now) (look N.cmp self.old) }
        requires least { (d : N) → IsDirty (look N.cmp self.old) d
            → level ≤ (R.graph rules.now).level d }
        requires all { AreAll (look N.cmp self.old) work.old }
        ensures on { OnOk result ((s : State N V)
            → Progress (R.graph rules.now) s (look N.cmp self.old) evaluated.old
            → Progress (R.graph rules.now) s (look N.cmp self.new) evaluated.new) }
        ensures past { OnOk result ((d : N) → IsDirty (look N.cmp self.new) d
            → level < (R.graph rules.now).level d) }
        ensures all { OnOk result (AreAll (look N.cmp self.new) work.new) }
        ensures cost { steps.new + sum_by (R.graph rules.now).weight evaluated.old
            ≤ steps.old + sum_by (R.graph rules.now).weight evaluated.new }
        ensures remains { OnErr result ((s : State N V)
            → Progress (R.graph rules.now) s (look N.cmp self.old) evaluated.old
            → Remains (R.graph rules.now) s (look N.cmp self.new)) }
    {
        let end = work.as_slice().len();
        'places: for place in 0..end {
            let n = work.as_slice()[place];
            self.settle_node(rules, level, n, work, evaluated, steps)?;
        }
        Ok(())
    }

    // Evaluates a node where it is dirty and of this level, where no dirty node is of a lower one.
    fn settle_node<R: Rules<Node = N, Value = V>, L: Ledger>(
        &mut self,
        rules: &R,
        level: u16,
        n: N,
        work: &mut Nodes<N>,
        evaluated: &mut Nodes<N>,
        steps: &mut ReadCount<L>,
    ) -> Result<(), Memory>
        requires order { R.in_order rules.now }
        requires sound { Sound (R.graph rules.now) (look N.cmp self.old) }
        requires least { (d : N) → IsDirty (look N.cmp self.old) d
            → level ≤ (R.graph rules.now).level d }
        requires all { AreAll (look N.cmp self.old) work.old }
        ensures on { OnOk result ((s : State N V)
            → Progress (R.graph rules.now) s (look N.cmp self.old) evaluated.old
            → Progress (R.graph rules.now) s (look N.cmp self.new) evaluated.new) }
        ensures sound { OnOk result (Sound (R.graph rules.now) (look N.cmp self.new)) }
        ensures left { OnOk result ((d : N) → IsDirty (look N.cmp self.new) d
            → (level < (R.graph rules.now).level d)
            ⊎ ((level ≡ (R.graph rules.now).level d) × (n ≢ d) × IsDirty (look N.cmp self.old) d)) }
        ensures all { OnOk result (AreAll (look N.cmp self.new) work.new) }
        ensures front { IsFront work.old work.new }
        ensures cost { steps.new + sum_by (R.graph rules.now).weight evaluated.old
            ≤ steps.old + sum_by (R.graph rules.now).weight evaluated.new }
        ensures remains { OnErr result ((s : State N V)
            → Progress (R.graph rules.now) s (look N.cmp self.old) evaluated.old
            → Remains (R.graph rules.now) s (look N.cmp self.new)) }
    {
        if u16::from(rules.level(n)) == level && self.is_dirty(n) {
            evaluated.push(n)?;
            self.evaluate(rules, n, work, steps)?;
        }
        Ok(())
    }

    // Evaluates a dirty node of the least level. The node stays dirty until its dependents are marked, so that nothing is
    // lost where memory runs out.
    fn evaluate<R: Rules<Node = N, Value = V>, L: Ledger>(
        &mut self,
        rules: &R,
        n: N,
        work: &mut Nodes<N>,
        steps: &mut ReadCount<L>,
    ) -> Result<(), Memory>
        requires order { R.in_order rules.now }
        requires sound { Sound (R.graph rules.now) (look N.cmp self.old) }
        requires dirty { IsDirty (look N.cmp self.old) n }
        requires least { (d : N) → IsDirty (look N.cmp self.old) d
            → (R.graph rules.now).level n ≤ (R.graph rules.now).level d }
        requires all { AreAll (look N.cmp self.old) work.old }
        ensures ok { OnOk result
            ((v : V) × (u : State N V)
            × Evaluates (R.graph rules.now) n v (look N.cmp self.old) u (look N.cmp self.new)) }
        ensures work { OnOk result (AreAll (look N.cmp self.new) work.new) }
        ensures front { IsFront work.old work.new }
        ensures cost { steps.new ≤ steps.old + (R.graph rules.now).weight n }
        ensures err { OnErr result
            (Raised (DependsOn (R.graph rules.now) n) (look N.cmp self.old) (look N.cmp self.new)) }
    {
        let value = rules.eval(self.alloc, n, self, steps)?;
        self.spread(rules, n, &value, work)?;
        self.store(n, value);
        Ok(())
    }

    // Makes those dependents of n dirty to whom it matters that it has this value now.
    fn spread<R: Rules<Node = N, Value = V>>(
        &mut self,
        rules: &R,
        n: N,
        value: &V,
        work: &mut Nodes<N>,
    ) -> Result<(), Memory>
        requires order { R.in_order rules.now }
        requires sound { Sound (R.graph rules.now) (look N.cmp self.old) }
        requires live { (R.graph rules.now).live n }
        requires all { AreAll (look N.cmp self.old) work.old }
        ensures raised { Raised (DependsOn (R.graph rules.now) n) (look N.cmp self.old)
            (look N.cmp self.new) }
        ensures change { OnOk result
            ((values_in (look N.cmp self.old) n ≡ Some value.now)
            ⊎ ((values_in (look N.cmp self.old) n ≢ Some value.now)
            × ((q : N) → DependsOn (R.graph rules.now) n q
            → IsDirty (look N.cmp self.new) q
            ⊎ IsCalm (R.graph rules.now) (look N.cmp self.old) n value.now q))) }
        ensures calm { values_in (look N.cmp self.old) n ≡ Some value.now → (q : N)
            → look N.cmp self.new q ≡ look N.cmp self.old q }
        ensures work { OnOk result (AreAll (look N.cmp self.new) work.new) }
        ensures front { IsFront work.old work.new }
    {
        let affected = match self.value_at(n) {
            // What depends on a node without a value has to be evaluated already.
            None => return Ok(()),
            Some(old) => {
                if R::same(old, value) {
                    return Ok(());
                }
                rules.affected(self.alloc, n, old, value)?
            }
        };
        self.mark_all::<R>(&affected, work)
    }

    // The value of a node, which is no read of an evaluation; `None` where it was not evaluated yet.
    fn value_at(&self, n: N) -> Option<&V>
        ensures { option_copied result ≡ values_in (look N.cmp self.now) n }
    {
        match slot_of(&self.slots, n) {
            Some(slot) => slot.value.as_ref(),
            None => None,
        }
    }

    // Makes live nodes dirty.
    fn mark_all<R: Rules<Node = N, Value = V>>(
        &mut self,
        nodes: &[N],
        work: &mut Nodes<N>,
    ) -> Result<(), Memory>
        requires there { (q : N) → Among nodes.now q → IsSome (look N.cmp self.old q) }
        requires all { AreAll (look N.cmp self.old) work.old }
        ensures raised { Raised (Among nodes.now) (look N.cmp self.old) (look N.cmp self.new) }
        ensures dirty { OnOk result ((q : N) → Among nodes.now q → IsDirty (look N.cmp self.new) q) }
        ensures work { OnOk result (AreAll (look N.cmp self.new) work.new) }
        ensures front { IsFront work.old work.new }
    {
        for n in nodes {
            self.mark_one::<R>(*n, work)?;
        }
        Ok(())
    }

    // Makes a live node dirty, and puts it on the work list where it was clean.
    fn mark_one<R: Rules<Node = N, Value = V>>(
        &mut self,
        n: N,
        work: &mut Nodes<N>,
    ) -> Result<(), Memory>
        requires there { IsSome (look N.cmp self.old n) }
        requires all { AreAll (look N.cmp self.old) work.old }
        ensures raised { Raised (λ q. n ≡ q) (look N.cmp self.old) (look N.cmp self.new) }
        ensures dirty { OnOk result (IsDirty (look N.cmp self.new) n) }
        ensures work { OnOk result (AreAll (look N.cmp self.new) work.new) }
        ensures front { IsFront work.old work.new }
    {
        if self.raise(n)? {
            work.push(n)?;
        }
        Ok(())
    }
}
