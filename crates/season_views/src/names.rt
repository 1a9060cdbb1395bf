// The names of entries.
ghost use Rattle.std.specs.Prelude.{◌≡◌, ◌≤◌, IfOk, length};
ghost use Rattle.season_book.specs.LeagueViews.{name_of};
ghost use Rattle.season_views.specs.Entries.{OfEachNames};

use crate::seen::Seen;
use fpl_base::{EntryId, Memory, Name};
use std::sync::ledger::Ledger;

/// The name of an entry that was issued.
pub fn name_of<L: Ledger>(seen: &Seen<L>, entry: EntryId) -> Result<Name, Memory>
    requires { entry ≤ length seen.now.managers.managers }
    ensures { IfOk result
        (λ name. OfEachNames seen.now.managers (λ entries. name ≡ name_of entries entry)) }
{
    match seen.name(entry) {
        Some(name) => name.copy(),
        None => unreachable!(),
    }
}
