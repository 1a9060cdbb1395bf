// Single nodes that are brought up to date.
ghost use Rattle.std.specs.Prelude.{[], ◌∷◌, OnOk};
ghost use Rattle.season_graph.specs.Followed.{ChosenRefreshed, OthersRefreshed, Refreshes, RefreshesOne};
ghost use Rattle.season_nodes.specs.declared.nodes.Node.{Node};

use fpl_base::{FixtureId, Memory, PlayerId};
use season_nodes::{Books, Node};
use season_rules::SeasonCells;

// Brings one node up to date: it is made dirty where it is live, planted if it has no cell, and taken out where it is
// not live.
fn refresh(cells: &mut SeasonCells, books: &Books, n: &Node) -> Result<(), Memory>
    ensures { OnOk result (RefreshesOne books.now n.now cells.old cells.new) }
{
    let has_cell = cells.evaluations(*n).is_some();
    if !books.is_live(n) {
        if has_cell {
            cells.uproot(*n);
        }
        return Ok(());
    }
    if has_cell {
        cells.mark(*n)?;
    } else {
        cells.plant(*n)?;
    }
    Ok(())
}

// Brings a node up to date.
pub(crate) fn refresh_one(cells: &mut SeasonCells, books: &Books, n: &Node) -> Result<(), Memory>
    ensures { OnOk result (Refreshes books.now (n.now ∷ []) cells.old cells.new) }
{
    refresh(cells, books, n)?;
    Ok(())
}

// Brings the line of a player in a fixture up to date.
pub(crate) fn refresh_line(
    cells: &mut SeasonCells,
    books: &Books,
    fixture: FixtureId,
    player: PlayerId,
) -> Result<(), Memory>
    ensures { OnOk result
        (Refreshes books.now (Node.Line fixture player ∷ []) cells.old cells.new) }
{
    refresh_one(cells, books, &Node::Line(fixture, player))?;
    Ok(())
}

// Brings the bonus of a fixture up to date.
pub(crate) fn refresh_bonus(
    cells: &mut SeasonCells,
    books: &Books,
    fixture: FixtureId,
) -> Result<(), Memory>
    ensures { OnOk result (Refreshes books.now (Node.Bonus fixture ∷ []) cells.old cells.new) }
{
    refresh_one(cells, books, &Node::Bonus(fixture))?;
    Ok(())
}

// Brings a node up to date if it came or went.
fn refresh_if_other(cells: &mut SeasonCells, books: &Books, n: &Node) -> Result<(), Memory>
    ensures { OnOk result (OthersRefreshed books.now (n.now ∷ []) cells.old cells.new) }
{
    let has_cell = cells.evaluations(*n).is_some();
    if has_cell != books.is_live(n) {
        refresh_one(cells, books, n)?;
    }
    Ok(())
}

// Brings a node up to date; or, where not all are to be, if it came or went.
pub(crate) fn refresh_chosen(
    cells: &mut SeasonCells,
    books: &Books,
    n: &Node,
    all: bool,
) -> Result<(), Memory>
    ensures { OnOk result
        (ChosenRefreshed books.now all (n.now ∷ []) cells.old cells.new) }
{
    if all {
        refresh_one(cells, books, n)?;
    } else {
        refresh_if_other(cells, books, n)?;
    }
    Ok(())
}
