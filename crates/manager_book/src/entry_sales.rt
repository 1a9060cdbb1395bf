// The transfers of one entry.
ghost use Rattle.std.specs.Prelude.{◌≡◌, ◌++◌, ℕ, [], length, take, IfOk, OnOk, OnErr};
ghost use Rattle.manager_book.specs.Calls.{with_gameweek};
ghost use Rattle.manager_book.specs.Managers.{sales_name};

use fpl_base::{Gw, Memory, PlayerId};
use rule_book::Sale;
use std::alloc::Global;
use std::marker::Model;

/// All transfers of an entry with their gameweeks, in the order of making. One takes 20 bytes, and no more room is asked
/// for than the transfers that are there need.
#[derive(Drop)]
pub struct EntrySales {
    made: Vec<(Gw, Sale)>,
}

impl Model for EntrySales {
    ghost use Rattle.std.specs.Prelude.{List, ℕ};
    ghost use Rattle.rule_book.specs.declared.transfers.Sale.{Sale};

    ghost Value = { List (ℕ × Sale) };

    ghost view = { λ s. s.made.items };
}

impl EntrySales {
    /// No transfers. It takes no memory.
    pub fn new(alloc: Global) -> Self
        ensures { result ≡ [] }
    {
        EntrySales {
            made: Vec::new(alloc),
        }
    }

    /// These transfers.
    pub fn of(alloc: Global, sales: &[(Gw, Sale)]) -> Result<Self, Memory>
        ensures { IfOk result (λ made. made ≡ sales.now) }
    {
        Ok(EntrySales {
            made: Vec::from_slice(alloc, sales)?,
        })
    }

    /// The transfers.
    pub fn as_slice(&self) -> &[(Gw, Sale)]
        ensures { result.now ≡ self.now }
    {
        self.made.as_slice()
    }

    /// How many there are.
    pub fn count(&self) -> usize
        ensures { result ≡ length self.now }
    {
        self.made.len()
    }

    /// Whether one of them names a player.
    pub fn names(&self, player: PlayerId) -> bool
        ensures { result ≡ sales_name self.now player }
    {
        self.made
            .iter()
            .any(|made| made.1.out == player || made.1.into == player)
    }

    /// Adds those of a batch behind the others; unchanged where memory is wanting.
    pub fn append(&mut self, g: Gw, sales: &[Sale]) -> Result<(), Memory>
        ensures ok { OnOk result (self.new ≡ self.old ++ with_gameweek g sales.now) }
        ensures err { OnErr result (self.new ≡ self.old) }
    {
        append(&mut self.made, g, sales)
    }

    /// Leaves the first so many. It takes no memory.
    pub fn cut(&mut self, count: usize)
        ensures { self.new ≡ take count self.old }
    {
        self.made.truncate(count);
    }
}

// Adds the transfers of a gameweek behind the others. Room for all of them is there before the first is written.
fn append(made: &mut Vec<(Gw, Sale)>, g: Gw, sales: &[Sale]) -> Result<(), Memory>
    ensures ok { OnOk result (made.new.items ≡ made.old.items ++ with_gameweek g sales.now) }
    ensures err { OnErr result (made.new.items ≡ made.old.items) }
{
    if made.reserve_exact(sales.len()).is_err() {
        return Err(Memory);
    }
    'sales: for sale in sales {
        if made.push((g, *sale)).is_err() {
            unreachable!();
        }
    }
    Ok(())
}
