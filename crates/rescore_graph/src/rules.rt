ghost use Rattle.std.specs.Prelude.{◌≡◌, ◌+◌, ◌≤◌, ◌↔◌, IfOk, IsTrue};
ghost use Rattle.std.proofs.lemmas.Map.Lookups.{CmpEqualImpliesEq};
ghost use Rattle.rescore_graph.specs.Graph.{Graph, IsGraph, IsDependents, AreAffected, Among, replay};
ghost use Rattle.rescore_graph.specs.States.{look, values_in};

use crate::cells::Cells;
use fpl_base::{Memory, ReadCount};
use std::alloc::Global;
use std::hash::Hash;
use std::sync::ledger::Ledger;

/// The rules by which nodes have values. Only live nodes have one. A node's value is its own function of the values of
/// its inputs, which are live nodes of lower levels.
pub trait Rules {
    /// Names a node.
    type Node: Copy + Ord + Hash;

    /// What is kept of a node.
    type Value: Drop;

    /// Whether the rules are in order. What the methods and the laws promise, they promise where this holds.
    ghost in_order: { Self → Type 0 };

    /// The live nodes, and of each its inputs, its level, its weight and its own function.
    ghost graph: { Self → Graph Self.Node Self.Value };

    /// The node's level, which is above those of its inputs. Settling goes up the levels.
    fn level(&self, n: Self::Node) -> u8
        ensures { in_order self.now → (graph self.now).live n → result ≡ (graph self.now).level n };

    /// The nodes of which this node is an input.
    fn dependents(&self, alloc: Global, n: Self::Node) -> Result<Vec<Self::Node>, Memory>
        requires { in_order self.now }
        ensures { (graph self.now).live n
            → IfOk result (λ ns. IsDependents (graph self.now) n ns.items) };

    /// Some of them: all to whom it matters that the node's value was the old one and is the new one. Settling evaluates
    /// these.
    fn affected(
        &self,
        alloc: Global,
        n: Self::Node,
        old: &Self::Value,
        new: &Self::Value,
    ) -> Result<Vec<Self::Node>, Memory>
        requires { in_order self.now }
        ensures { (graph self.now).live n
            → IfOk result (λ ns. AreAffected (graph self.now) n old.now new.now ns.items) };

    /// The node's own function of the values that its inputs' cells hold. It makes at most as many counted reads as the
    /// node's weight.
    fn eval<L: Ledger>(
        &self,
        alloc: Global,
        n: Self::Node,
        cells: &Cells<Self::Node, Self::Value>,
        steps: &mut ReadCount<L>,
    ) -> Result<Self::Value, Memory>
        requires order { in_order self.now }
        requires live { (graph self.now).live n }
        requires inputs { (m : Self.Node) → Among ((graph self.now).inputs n) m
            → values_in (look Self.Node.cmp cells.now) m ≡ replay (graph self.now) m }
        ensures value { IfOk result
            (λ v. v ≡ (graph self.now).own n (values_in (look Self.Node.cmp cells.now))) }
        ensures cost { steps.new ≤ steps.old + (graph self.now).weight n };

    /// Whether two values are equal.
    fn same(a: &Self::Value, b: &Self::Value) -> bool
        ensures { IsTrue result ↔ (a.now ≡ b.now) };

    /// Inputs are live and of lower levels, and the own functions read nothing else.
    ghost lawful: { (r : Self) → in_order r → IsGraph (graph r) };

    /// The order tells all nodes apart.
    ghost exact: { CmpEqualImpliesEq Self.Node.cmp };
}
