// What changes of the books do to the cells.
ghost use Rattle.std.specs.Prelude.{[], OnOk, if◌then◌else◌};
ghost use Rattle.season_graph.specs.Followed.{Refreshes, PresenceRefreshed, LineRefreshed, LineFollowed, LineMarked, LinesRefreshed, SheetRefreshed, SheetFollowed, SheetMarked, MarkRefreshed, MarkFollowed, MarkMarked, MoveRefreshed, MoveFollowed, MoveMarked, PlayerRefreshed, PlayerFollowed, PlayerMarked, LocksRefreshed, LocksFollowed, LocksMarked, LeagueRefreshed, LeagueFollowed, LeagueMarked};
ghost use Rattle.season_graph.specs.Indexed.{IndexFollowed, IndexKept};
ghost use Rattle.season_graph.specs.Touched.{gameweek_beside, mark_nodes, moved_players};
ghost use Rattle.season_nodes.specs.BookFacts.{facts_of};
ghost use Rattle.season_nodes.specs.IndexFacts.{holders_in};

use crate::endings::{refresh_endings, refresh_mark};
use crate::holding::refresh_holding;
use crate::indexing::index_gameweeks;
use crate::parts::{Part, refresh};
use crate::refreshing::{refresh_bonus, refresh_line, refresh_one};
use fpl_base::{FixtureId, Gw, LeagueId, Memory, PlayerId};
use season_nodes::{Books, Index, Node};
use season_rules::SeasonCells;

/// A player's line in a fixture was put in, replaced by another, or taken away. After want of memory the cells follow
/// neither the old books nor these, and have to be made anew.
pub fn fact_changed(
    cells: &mut SeasonCells,
    books: &Books,
    fixture: FixtureId,
    player: PlayerId,
) -> Result<(), Memory>
    ensures nodes { OnOk result (LineRefreshed books.now fixture player cells.old cells.new) }
    ensures sound { OnOk result (LineFollowed books.now fixture player cells.old cells.new) }
    ensures exact { OnOk result (LineMarked books.now fixture player cells.old cells.new) }
{
    refresh_fact(cells, books, fixture, player)?;
    Ok(())
}

/// The lines of these players in a fixture were put in, replaced by others, or taken away, and, where it is marked so,
/// its finished mark is another. So a sheet in the place of another names whoever has a line in one of them that is not
/// the same in both. Want of memory is as for one line.
pub fn sheet_changed(
    cells: &mut SeasonCells,
    books: &Books,
    fixture: FixtureId,
    players: &[PlayerId],
    marked: bool,
) -> Result<(), Memory>
    ensures nodes { OnOk result
        (SheetRefreshed books.now fixture players.now marked cells.old cells.new) }
    ensures sound { OnOk result
        (SheetFollowed books.now fixture players.now marked cells.old cells.new) }
    ensures exact { OnOk result
        (SheetMarked books.now fixture players.now marked cells.old cells.new) }
{
    refresh_sheet(cells, books, fixture, players, marked)?;
    Ok(())
}

/// A fixture was marked as finished, or the mark was taken away. Where all other fixtures of its gameweek are finished,
/// the gameweek ends by it, or goes on again. Want of memory is as for one line.
pub fn mark_changed(
    cells: &mut SeasonCells,
    books: &Books,
    fixture: FixtureId,
) -> Result<(), Memory>
    ensures nodes { OnOk result (MarkRefreshed books.now fixture cells.old cells.new) }
    ensures sound { OnOk result (MarkFollowed books.now fixture cells.old cells.new) }
    ensures exact { OnOk result (MarkMarked books.now fixture cells.old cells.new) }
{
    refresh_mark(cells, books, fixture)?;
    Ok(())
}

/// A fixture stands in another gameweek than before, or in none. An added fixture moved from none. Want of memory is as
/// for one line.
pub fn fixture_moved(
    cells: &mut SeasonCells,
    books: &Books,
    fixture: FixtureId,
    from: Option<Gw>,
    to: Option<Gw>,
) -> Result<(), Memory>
    ensures nodes { OnOk result (MoveRefreshed books.now fixture from to cells.old cells.new) }
    ensures sound { OnOk result (MoveFollowed books.now fixture from to cells.old cells.new) }
    ensures exact { OnOk result (MoveMarked books.now fixture from to cells.old cells.new) }
{
    refresh_moved(cells, books, fixture, &from, &to)?;
    Ok(())
}

/// A player came, who was not there before. A team of a locked gameweek that holds him scores with him from now on; the
/// index tells of such teams. Want of memory is as for one line.
pub fn player_added(
    index: &Index,
    cells: &mut SeasonCells,
    books: &Books,
    player: PlayerId,
) -> Result<(), Memory>
    ensures nodes { OnOk result
        (PlayerRefreshed books.now (holders_in index.now) player cells.old cells.new) }
    ensures sound { OnOk result
        (PlayerFollowed books.now (holders_in index.now) player cells.old cells.new) }
    ensures exact { OnOk result
        (PlayerMarked books.now (holders_in index.now) player cells.old cells.new) }
{
    refresh(cells, books, &Part::Player(player, 0), true)?;
    refresh_holding(index, cells, books, player)?;
    Ok(())
}

/// Gameweeks were locked. `first` is how many were locked before. Each total then counts more gameweeks, each head-to-head
/// league that was drawn and has started has its matches in them, and its Average where that plays, and counts them in
/// its rows. The index has also who holds whom in these gameweeks. After want of memory the cells and the index have to
/// be made anew.
pub fn gameweeks_locked(
    index: &mut Index,
    cells: &mut SeasonCells,
    books: &Books,
    first: u8,
) -> Result<(), Memory>
    ensures nodes { OnOk result (LocksRefreshed books.now first cells.old cells.new) }
    ensures sound { OnOk result (LocksFollowed books.now first cells.old cells.new) }
    ensures exact { OnOk result (LocksMarked books.now first cells.old cells.new) }
    ensures index { OnOk result (IndexFollowed (facts_of books.now) first index.old index.new) }
    ensures earlier { OnOk result (IndexKept first index.old index.new) }
{
    index_gameweeks(index, books, first)?;
    refresh(cells, books, &Part::Locked(first), true)?;
    Ok(())
}

/// A league was made, joined or drawn. Who is in a classic one has a total from its first gameweek on, once that is
/// locked. Who is in the order of a drawn one has a row, and from its start on it has matches. Want of memory is as for
/// one line.
pub fn league_changed(
    cells: &mut SeasonCells,
    books: &Books,
    league: LeagueId,
) -> Result<(), Memory>
    ensures nodes { OnOk result (LeagueRefreshed books.now league cells.old cells.new) }
    ensures sound { OnOk result (LeagueFollowed books.now league cells.old cells.new) }
    ensures exact { OnOk result (LeagueMarked books.now league cells.old cells.new) }
{
    refresh(cells, books, &Part::Changed(league), false)?;
    Ok(())
}

// Brings the gameweek of a player up to date in which a fixture stands, if it stands in one.
fn refresh_gameweek(
    cells: &mut SeasonCells,
    books: &Books,
    player: PlayerId,
    place: &Option<Gw>,
) -> Result<(), Memory>
    ensures { OnOk result
        (Refreshes books.now (gameweek_beside player place.now) cells.old cells.new) }
{
    if let Some(gameweek) = place {
        refresh_one(cells, books, &Node::PlayerGw(player, *gameweek))?;
    }
    Ok(())
}

// Brings up to date what counts whether a player has a line in a fixture.
fn refresh_presence(
    cells: &mut SeasonCells,
    books: &Books,
    fixture: FixtureId,
    player: PlayerId,
) -> Result<(), Memory>
    ensures { OnOk result (PresenceRefreshed books.now fixture player cells.old cells.new) }
{
    refresh_bonus(cells, books, fixture)?;
    refresh_gameweek(cells, books, player, &books.calendar.stands_in(fixture))?;
    Ok(())
}

// Brings up to date what a player's line in a fixture touches.
fn refresh_fact(
    cells: &mut SeasonCells,
    books: &Books,
    fixture: FixtureId,
    player: PlayerId,
) -> Result<(), Memory>
    ensures { OnOk result (LineRefreshed books.now fixture player cells.old cells.new) }
{
    let had_line = cells.evaluations(Node::Line(fixture, player)).is_some();
    refresh_line(cells, books, fixture, player)?;
    if had_line != books.has_line(player, fixture) {
        refresh_presence(cells, books, fixture, player)?;
    }
    Ok(())
}

// Brings up to date what these lines of a fixture touch, and what its mark does if it is marked so.
fn refresh_sheet(
    cells: &mut SeasonCells,
    books: &Books,
    fixture: FixtureId,
    players: &[PlayerId],
    marked: bool,
) -> Result<(), Memory>
    ensures { OnOk result
        (SheetRefreshed books.now fixture players.now marked cells.old cells.new) }
{
    refresh_lines(cells, books, fixture, players)?;
    refresh_mark_if(cells, books, fixture, marked)?;
    Ok(())
}

// Brings up to date what these lines of a fixture touch.
fn refresh_lines(
    cells: &mut SeasonCells,
    books: &Books,
    fixture: FixtureId,
    players: &[PlayerId],
) -> Result<(), Memory>
    ensures { OnOk result (LinesRefreshed books.now fixture players.now cells.old cells.new) }
{
    for player in players {
        refresh_fact(cells, books, fixture, *player)?;
    }
    Ok(())
}

// Brings up to date what the mark of a fixture touches if it is marked so.
fn refresh_mark_if(
    cells: &mut SeasonCells,
    books: &Books,
    fixture: FixtureId,
    marked: bool,
) -> Result<(), Memory>
    ensures { OnOk result
        (Refreshes books.now
        (if marked then mark_nodes (facts_of books.now) fixture else []) cells.old cells.new) }
{
    if marked {
        refresh_mark(cells, books, fixture)?;
    }
    Ok(())
}

// Brings up to date what counts a fixture in one of two gameweeks.
fn refresh_moved(
    cells: &mut SeasonCells,
    books: &Books,
    fixture: FixtureId,
    from: &Option<Gw>,
    to: &Option<Gw>,
) -> Result<(), Memory>
    ensures { OnOk result (MoveRefreshed books.now fixture from.now to.now cells.old cells.new) }
{
    refresh_moved_players(cells, books, fixture, from, to)?;
    refresh_endings(cells, books, fixture, from, to)?;
    Ok(())
}

// Brings up to date what counts the lines of a fixture in one of two gameweeks.
fn refresh_moved_players(
    cells: &mut SeasonCells,
    books: &Books,
    fixture: FixtureId,
    from: &Option<Gw>,
    to: &Option<Gw>,
) -> Result<(), Memory>
    ensures { OnOk result
        (Refreshes books.now
        (moved_players (facts_of books.now) fixture from.now to.now) cells.old cells.new) }
{
    for player in books.matches.players_of(fixture) {
        refresh_gameweek(cells, books, *player, from)?;
        refresh_gameweek(cells, books, *player, to)?;
    }
    Ok(())
}
