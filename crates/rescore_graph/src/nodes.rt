ghost use Rattle.std.specs.Prelude.{◌≡◌, ◌++◌, [], ◌∷◌, IfOk, OnOk, OnErr};

use fpl_base::Memory;
use std::alloc::Global;
use std::marker::Model;

/// A list of nodes.
#[derive(Drop)]
pub struct Nodes<N: Copy> {
    nodes: Vec<N>,
}

impl<N: Copy> Model for Nodes<N> {
    ghost use Rattle.std.specs.Prelude.{List};

    ghost Value = { List N };

    ghost view = { λ l. l.nodes.items };
}

impl<N: Copy> Nodes<N> {
    /// No nodes.
    pub fn new(alloc: Global) -> Self
        ensures { result ≡ [] }
    {
        Nodes {
            nodes: Vec::new(alloc),
        }
    }

    // These nodes.
    pub(crate) fn from_slice(alloc: Global, nodes: &[N]) -> Result<Self, Memory>
        ensures { IfOk result (λ l. l ≡ nodes.now) }
    {
        let mut list = Nodes::new(alloc);
        for n in nodes {
            list.push(*n)?;
        }
        Ok(list)
    }

    /// The list with this node at its end; unchanged after want of memory.
    pub fn push(&mut self, item: N) -> Result<(), Memory>
        ensures ok { OnOk result (self.new ≡ self.old ++ item ∷ []) }
        ensures err { OnErr result (self.new ≡ self.old) }
    {
        match self.nodes.push(item) {
            Ok(()) => Ok(()),
            Err(_) => Err(Memory),
        }
    }

    /// The nodes themselves.
    pub fn as_slice(&self) -> &[N]
        ensures { result.now ≡ self.now }
    {
        self.nodes.as_slice()
    }
}
