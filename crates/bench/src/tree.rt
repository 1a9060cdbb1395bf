ghost use Rattle.std.specs.Prelude.{◌≡◌, ◌+◌, ◌*◌, ◌^◌, ◌<◌, ◌≤◌, [], ◌∷◌, ◌++◌, length, OnOk};
ghost use Rattle.std.specs.Ordering.{nat_cmp};
ghost use Rattle.rescore_graph.specs.States.{look, values_in};
ghost use Rattle.bench.specs.Tree.{tree_graph, part};
ghost use Rattle.bench.specs.TreeLaws.{tree_lawful, number_exact};

use fpl_base::{Memory, ReadCount};
use rescore_graph::{Cells, Rules};
use std::alloc::Global;
use std::sync::ledger::Ledger;

/// Numbers in a tree: node h, from 1, has the nodes 2h and 2h + 1 below it, where they are there. A node's value is the
/// greatest of its number and of the values of the nodes below it.
#[derive(Drop)]
pub struct Tree {
    /// The numbers of the nodes, from node 1 on.
    pub numbers: Vec<u32>,
    ghost few: { length numbers.items < 2 ^ 31 },
}

impl Tree {
    /// No nodes.
    pub fn new(alloc: Global) -> Self
        ensures { result.numbers.items ≡ [] }
    {
        Tree {
            numbers: Vec::new(alloc),
        }
    }

    /// Adds a node with this number.
    pub fn push(&mut self, number: u32) -> Result<(), Memory>
        requires { length self.old.numbers.items + 1 < 2 ^ 31 }
        ensures { OnOk result (self.new.numbers.items ≡ self.old.numbers.items ++ number ∷ []) }
    {
        self.numbers.push(number)?;
        Ok(())
    }

    // The value of a node, and 0 of one that is not there.
    fn part<L: Ledger>(&self, m: u32, cells: &Cells<u32, u32>, steps: &mut ReadCount<L>) -> u32
        ensures value { result
            ≡ part (length self.now.numbers.items) (values_in (look nat_cmp cells.now)) m }
        ensures cost { steps.new ≤ steps.old + 1 }
    {
        if m as usize <= self.numbers.len() {
            cells.get(m, steps).copied().unwrap_or(0)
        } else {
            0
        }
    }
}

impl Rules for Tree {
    type Node = u32;

    type Value = u32;

    ghost in_order = { λ t. Unit {0} };

    ghost graph = { λ t. tree_graph (length t.numbers.items) t.numbers.items };

    fn level(&self, n: u32) -> u8 {
        n.leading_zeros() as u8
    }

    fn dependents(&self, alloc: Global, n: u32) -> Result<Vec<u32>, Memory> {
        let mut above = Vec::new(alloc);
        if n > 1 {
            above.push(n / 2)?;
        }
        Ok(above)
    }

    // To each node above it may matter.
    fn affected(&self, alloc: Global, n: u32, _old: &u32, _new: &u32) -> Result<Vec<u32>, Memory> {
        Ok(self.dependents(alloc, n)?)
    }

    fn eval<L: Ledger>(
        &self,
        _alloc: Global,
        n: u32,
        cells: &Cells<u32, u32>,
        steps: &mut ReadCount<L>,
    ) -> Result<u32, Memory> {
        let number = self.numbers[n as usize - 1];
        let first = self.part(2 * n, cells, steps);
        let second = self.part(2 * n + 1, cells, steps);
        Ok(number.max(first).max(second))
    }

    fn same(a: &u32, b: &u32) -> bool {
        *a == *b
    }

    ghost lawful = { λ t _. tree_lawful (length t.numbers.items) t.numbers.items t.few };

    ghost exact = { number_exact };
}
