// The sales of a batch.
ghost use Rattle.std.specs.Prelude.{◌≡◌, ◌<◌, [], ◌∷◌, ◌++◌, length};

use rule_book::Sale;
use std::marker::Model;

/// The sales of a batch, in the order of its swaps: the first `len` of the rows, at most fifteen.
#[derive(Debug, Drop)]
pub struct Sales {
    pub rows: [Sale; 15],
    pub len: usize,
}

impl Model for Sales {
    ghost use Rattle.std.specs.Prelude.{List, take, ◌≤◌};
    ghost use Rattle.rule_book.specs.declared.transfers.Sale.{Sale};

    ghost Value = { List Sale };

    ghost view = { λ s. take s.len s.rows };

    ghost invariant = { λ s. s.len ≤ 15 };
}

impl Sales {
    // No sales. The rows have to hold some sale, and do not count.
    pub(crate) fn none(filler: Sale) -> Self
        ensures { result ≡ [] }
    {
        Sales {
            rows: [filler; 15],
            len: 0,
        }
    }

    // Adds a sale behind the others.
    pub(crate) fn push(&mut self, sale: Sale)
        requires { length self.old < 15 }
        ensures { self.new ≡ self.old ++ sale ∷ [] }
    {
        self.rows[self.len] = sale;
        self.len += 1;
    }

    /// The sales that count.
    pub fn as_slice(&self) -> &[Sale]
        ensures { result.now ≡ self.now }
    {
        &self.rows[..self.len]
    }
}
