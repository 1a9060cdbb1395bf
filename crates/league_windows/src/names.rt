// The names of entries.
ghost use Rattle.std.specs.Prelude.{◌≡◌};
ghost use Rattle.season_book.specs.LeagueViews.{name_of};
ghost use Rattle.season_views.specs.Seen.{OfEachSeen};

use fpl_base::EntryId;
use json_members::text_of;
use season_views::Seen;
use std::sync::ledger::Ledger;

/// The name of an entry; nothing where it was not issued.
pub fn name_text<'a, L: Ledger>(seen: &'a Seen<L>, entry: EntryId) -> &'a str
    ensures { OfEachSeen seen.now (λ entries. result.now ≡ name_of entries entry) }
{
    match seen.name(entry) {
        Some(name) => text_of(name),
        None => "",
    }
}
