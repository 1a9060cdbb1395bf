// What the end of a gameweek does to the cells.
ghost use Rattle.std.specs.Prelude.{◌≡◌, OnOk};
ghost use Rattle.season_graph.specs.Followed.{MarkRefreshed, Refreshes};
ghost use Rattle.season_graph.specs.Touched.{ending_in, ending_nodes, moved_endings, others_finished};
ghost use Rattle.season_nodes.specs.BookFacts.{facts_of};

use crate::parts::{Part, refresh};
use crate::refreshing::refresh_bonus;
use fpl_base::{FixtureId, Gw, Memory};
use season_nodes::Books;
use season_rules::SeasonCells;

// Brings up to date what the mark of a fixture touches.
pub(crate) fn refresh_mark(
    cells: &mut SeasonCells,
    books: &Books,
    fixture: FixtureId,
) -> Result<(), Memory>
    ensures { OnOk result (MarkRefreshed books.now fixture cells.old cells.new) }
{
    refresh_bonus(cells, books, fixture)?;
    refresh_ending(cells, books, fixture, &books.calendar.stands_in(fixture))?;
    Ok(())
}

// Brings up to date what a fixture touches that is not finished, in two gameweeks of which one ends without it and the
// other no longer with it.
pub(crate) fn refresh_endings(
    cells: &mut SeasonCells,
    books: &Books,
    fixture: FixtureId,
    from: &Option<Gw>,
    to: &Option<Gw>,
) -> Result<(), Memory>
    ensures { OnOk result
        (Refreshes books.now
        (moved_endings (facts_of books.now) fixture from.now to.now) cells.old cells.new) }
{
    if books.matches.finished(fixture) {
        return Ok(());
    }
    refresh_ending(cells, books, fixture, from)?;
    refresh_ending(cells, books, fixture, to)?;
    Ok(())
}

// Brings the gameweek of each entry up to date in a place, where it is a locked gameweek in which all fixtures but this
// one are finished.
fn refresh_ending(
    cells: &mut SeasonCells,
    books: &Books,
    fixture: FixtureId,
    place: &Option<Gw>,
) -> Result<(), Memory>
    ensures { OnOk result
        (Refreshes books.now
        (ending_nodes (facts_of books.now) fixture place.now) cells.old cells.new) }
{
    if let Some(gameweek) = place {
        refresh_ending_in(cells, books, fixture, *gameweek)?;
    }
    Ok(())
}

// The same in a gameweek.
fn refresh_ending_in(
    cells: &mut SeasonCells,
    books: &Books,
    fixture: FixtureId,
    gameweek: Gw,
) -> Result<(), Memory>
    ensures { OnOk result
        (Refreshes books.now
        (ending_in (facts_of books.now) fixture gameweek) cells.old cells.new) }
{
    if gameweek.get() <= books.calendar.locked() && others_finished(books, fixture, gameweek) {
        refresh(cells, books, &Part::Teams(gameweek), true)?;
    }
    Ok(())
}

// Whether each fixture that stands in a gameweek is finished, but for one that is left out.
fn others_finished(books: &Books, fixture: FixtureId, gameweek: Gw) -> bool
    ensures { result ≡ others_finished (facts_of books.now) fixture gameweek }
{
    let fixtures = books.calendar.standing(gameweek);
    fixtures.iter().all(|other| *other == fixture || books.matches.finished(*other))
}
