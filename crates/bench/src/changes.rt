ghost use Rattle.std.specs.Prelude.{◌≡◌, ◌+◌, ◌^◌, ◌<◌, ◌≤◌, ◌-◌, length, slice_set, IfOk, OnOk};
ghost use Rattle.std.specs.Ordering.{nat_cmp};
ghost use Rattle.rescore_graph.specs.States.{look};
ghost use Rattle.rescore_graph.specs.Settling.{Sound};
ghost use Rattle.bench.specs.Tree.{tree_graph};

use crate::tree::Tree;
use fpl_base::Memory;
use rescore_graph::Cells;
use std::alloc::Global;

/// A tree of this many nodes. A node with others below it has the greater number, so that a change of a leaf goes no
/// further than to the node above it.
pub fn make_tree(alloc: Global, size: u32) -> Result<Tree, Memory>
    requires { size < 2 ^ 31 }
    ensures { IfOk result (λ tree. length tree.numbers.items ≡ size) }
{
    let mut tree = Tree::new(alloc);
    for i in 0..size {
        let number = if i < size / 2 { 1_000_000 } else { 1 };
        tree.push(number)?;
    }
    Ok(tree)
}

/// A dirty cell for each node of the tree.
pub fn plant_all(alloc: Global, tree: &Tree) -> Result<Cells<u32, u32>, Memory>
    ensures { IfOk result
        (λ cells. Sound (tree_graph (length tree.now.numbers.items) tree.now.numbers.items)
        (look nat_cmp cells)) }
{
    let mut cells = Cells::new(alloc);
    let size = tree.numbers.len() as u32;
    for i in 0..size {
        cells.plant(i + 1)?;
    }
    Ok(cells)
}

/// Gives a node another number, and makes it dirty.
pub fn change(
    tree: &mut Tree,
    cells: &mut Cells<u32, u32>,
    node: u32,
    number: u32,
) -> Result<(), Memory>
    requires low { 1 ≤ node }
    requires high { node ≤ length tree.old.numbers.items }
    requires sound { Sound (tree_graph (length tree.old.numbers.items) tree.old.numbers.items)
        (look nat_cmp cells.old) }
    ensures ok { OnOk result
        (Sound (tree_graph (length tree.new.numbers.items) tree.new.numbers.items)
        (look nat_cmp cells.new)) }
    ensures size { length tree.new.numbers.items ≡ length tree.old.numbers.items }
    ensures number { OnOk result
        (tree.new.numbers.items ≡ slice_set tree.old.numbers.items (node - 1) number) }
{
    cells.mark(node)?;
    tree.numbers[node as usize - 1] = number;
    Ok(())
}

/// Gives so many leaves, spread over the tree, another number.
pub fn change_leaves(tree: &mut Tree, cells: &mut Cells<u32, u32>, count: u32) -> Result<(), Memory>
    requires some { 0 < count }
    requires sound { Sound (tree_graph (length tree.old.numbers.items) tree.old.numbers.items)
        (look nat_cmp cells.old) }
    ensures { OnOk result
        (Sound (tree_graph (length tree.new.numbers.items) tree.new.numbers.items)
        (look nat_cmp cells.new)) }
{
    let mut node = tree.numbers.len() as u32;
    let stride = node / 2 / count;
    for _ in 0..count {
        if stride < node {
            change(tree, cells, node, 2)?;
            node -= stride;
        }
    }
    Ok(())
}
