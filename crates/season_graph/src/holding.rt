// What a new player does to the teams that hold him.
ghost use Rattle.std.specs.Prelude.{◌<◌, ◌+◌, OnOk};
ghost use Rattle.season_graph.specs.Followed.{Refreshes};
ghost use Rattle.season_graph.specs.Touched.{holding_nodes};
ghost use Rattle.season_nodes.specs.Dependents.{gameweek_dependents};
ghost use Rattle.season_nodes.specs.IndexFacts.{holders_in};

use crate::refreshing::refresh_one;
use fpl_base::{Gw, Memory, PlayerId};
use season_nodes::{Books, Index, Node};
use season_rules::SeasonCells;

// Brings the gameweeks of the entries up to date that hold a player in a locked one.
pub(crate) fn refresh_holding(
    index: &Index,
    cells: &mut SeasonCells,
    books: &Books,
    player: PlayerId,
) -> Result<(), Memory>
    ensures { OnOk result
        (Refreshes books.now
        (holding_nodes (holders_in index.now) player books.now.calendar.now.locked) cells.old
        cells.new) }
{
    for number in 0..books.calendar.locked() {
        refresh_holders_numbered(index, cells, books, player, number)?;
    }
    Ok(())
}

// Brings the gameweek of a number from 0 of each entry up to date that holds a player in it.
fn refresh_holders_numbered(
    index: &Index,
    cells: &mut SeasonCells,
    books: &Books,
    player: PlayerId,
    number: u8,
) -> Result<(), Memory>
    requires { number < 38 }
    ensures { OnOk result
        (Refreshes books.now
        (gameweek_dependents (holders_in index.now player (number + 1)) (number + 1)) cells.old
        cells.new) }
{
    let Some(gameweek) = Gw::new(number + 1) else {
        unreachable!()
    };
    refresh_holders(index, cells, books, player, gameweek)?;
    Ok(())
}

// Brings a gameweek of each entry up to date that holds a player in it.
fn refresh_holders(
    index: &Index,
    cells: &mut SeasonCells,
    books: &Books,
    player: PlayerId,
    gameweek: Gw,
) -> Result<(), Memory>
    ensures { OnOk result
        (Refreshes books.now
        (gameweek_dependents (holders_in index.now player gameweek) gameweek) cells.old
        cells.new) }
{
    for entry in index.holders(player, gameweek) {
        refresh_one(cells, books, &Node::TeamGw(*entry, gameweek))?;
    }
    Ok(())
}
