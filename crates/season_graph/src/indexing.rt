// Who holds whom in the gameweeks that are locked.
ghost use Rattle.std.specs.Prelude.{◌<◌, ◌≤◌, ◌+◌, OnOk};
ghost use Rattle.rule_book.specs.Entries.{most_entries};
ghost use Rattle.season_graph.specs.Indexed.{EntryIndexed, LocksIndexed, PicksIndexed, TeamIndexed};
ghost use Rattle.season_nodes.specs.BookFacts.{facts_of};

use fpl_base::{EntryId, Gw, Memory};
use rule_book::Pick;
use season_nodes::{Books, Index};

// Puts into the index who holds whom in the locked gameweeks behind the first ones.
pub(crate) fn index_gameweeks(index: &mut Index, books: &Books, first: u8) -> Result<(), Memory>
    ensures { OnOk result (LocksIndexed (facts_of books.now) first index.old index.new) }
{
    for number in 0..books.managers.entries() {
        index_issued(index, books, number, first)?;
    }
    Ok(())
}

// Puts into the index whom the entry of a number from 0 holds in the locked gameweeks behind the first ones.
fn index_issued(index: &mut Index, books: &Books, number: u32, first: u8) -> Result<(), Memory>
    requires { number < most_entries }
    ensures { OnOk result
        (EntryIndexed (facts_of books.now) (number + 1) first index.old index.new) }
{
    let Some(entry) = EntryId::new(number + 1) else {
        unreachable!()
    };
    index_entry(index, books, entry, first)?;
    Ok(())
}

// Puts into the index whom an entry holds in the locked gameweeks behind the first ones.
fn index_entry(index: &mut Index, books: &Books, entry: EntryId, first: u8) -> Result<(), Memory>
    ensures { OnOk result (EntryIndexed (facts_of books.now) entry first index.old index.new) }
{
    for number in 0..books.calendar.locked().saturating_sub(first) {
        index_numbered(index, books, entry, first + number)?;
    }
    Ok(())
}

// Puts into the index whom an entry holds in the locked gameweek of a number from 0.
fn index_numbered(
    index: &mut Index,
    books: &Books,
    entry: EntryId,
    number: u8,
) -> Result<(), Memory>
    requires few { number < 38 }
    requires locked { number < books.now.calendar.now.locked }
    ensures { OnOk result
        (TeamIndexed (facts_of books.now) entry (number + 1) index.old index.new) }
{
    let Some(gameweek) = Gw::new(number + 1) else {
        unreachable!()
    };
    index_team(index, books, entry, gameweek)?;
    Ok(())
}

// Puts into the index whom an entry holds in a locked gameweek.
fn index_team(index: &mut Index, books: &Books, entry: EntryId, gameweek: Gw) -> Result<(), Memory>
    requires { gameweek ≤ books.now.calendar.now.locked }
    ensures { OnOk result (TeamIndexed (facts_of books.now) entry gameweek index.old index.new) }
{
    if let Some(team) = books.team(entry, gameweek) {
        index_picks(index, &team.picks, gameweek, entry)?;
    }
    Ok(())
}

// Puts into the index that an entry holds these players in a gameweek.
fn index_picks(
    index: &mut Index,
    picks: &[Pick],
    gameweek: Gw,
    entry: EntryId,
) -> Result<(), Memory>
    ensures { OnOk result (PicksIndexed entry gameweek picks.now index.old index.new) }
{
    for pick in picks {
        index.hold(pick.player, gameweek, entry)?;
    }
    Ok(())
}
