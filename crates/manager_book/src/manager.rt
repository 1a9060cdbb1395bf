ghost use Rattle.std.specs.Prelude.{◌≡◌};
ghost use Rattle.manager_book.specs.Managers.{manager_had};

use crate::entry_sales::EntrySales;
use fpl_base::{Key, Name, PlayerId};
use season_ledger::Entry;

/// An entry: its key, its manager's name, what it did, and all transfers that it made.
#[derive(Drop)]
pub struct Manager {
    pub key: Key,
    pub name: Name,
    pub season: Entry,
    pub sales: EntrySales,
}

impl Manager {
    /// Whether a player stands in a team of this entry, or one of its transfers names him.
    pub fn has_had(&self, player: PlayerId) -> bool
        ensures { result ≡ manager_had self.now player }
    {
        self.season.has_had(player) || self.sales.names(player)
    }
}
