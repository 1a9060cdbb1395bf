// What each player did in a gameweek, and what his points are made of.
ghost use Rattle.std.specs.Prelude.{◌≡◌, ◌≤◌, ◌+◌, Some};
ghost use Rattle.json_members.specs.Tokens.{Appends, tokens_of};
ghost use Rattle.season_views.specs.Seen.{IsKept, ShowsEach, WritesShown};
ghost use Rattle.season_book.specs.LiveWindow.{live_data, live_window};
ghost use Rattle.season_views.specs.LiveWindowReads.{live_reads};
ghost use Rattle.live_windows.specs.Gathered.{no_elements};
ghost use Rattle.live_windows.specs.LiveLaws.{PointsAreExplained, PointsAreHis};

use crate::gathering::gather;
use crate::players::write_players;
use crate::rows::{has_gameweek, rows_of};
use crate::team::team_of;
use fpl_base::{Gw, Memory, ReadCount};
use json::Writer;
use season_views::{Seen, SeenCells, locked_gameweek};
use std::alloc::{AllocError, Global};
use std::sync::ledger::Ledger;

/// Writes what each player did in a gameweek, if the season has it, and answers whether it has; nobody while it is open. A
/// counted read are each player's gameweek, the bonus of each fixture that stands in it, and each line of these.
pub fn write_live<L: Ledger>(
    out: &mut Writer,
    alloc: Global,
    seen: &Seen<L>,
    cells: &SeenCells<L>,
    gameweek: u32,
    steps: &mut ReadCount<L>,
) -> Result<bool, Memory>
    requires kept { IsKept seen.now cells.now }
    ensures value { ShowsEach seen.now (λ entries. live_window seen.now.facts gameweek) result out.old
        out.new }
    ensures cost { steps.new ≤ steps.old + live_reads seen.now.facts gameweek }
{
    if !has_gameweek(seen, gameweek) {
        return Ok(false);
    }
    write_there(out, alloc, seen, cells, gameweek, steps)
}

// Writes what each player did in a gameweek that the season has.
fn write_there<L: Ledger>(
    out: &mut Writer,
    alloc: Global,
    seen: &Seen<L>,
    cells: &SeenCells<L>,
    number: u32,
    steps: &mut ReadCount<L>,
) -> Result<bool, Memory>
    requires kept { IsKept seen.now cells.now }
    requires from_1 { 1 ≤ number }
    ensures value { WritesShown (Some (live_data seen.now.facts number)) result out.old out.new }
    ensures cost { steps.new ≤ steps.old + live_reads seen.now.facts number }
{
    match locked_gameweek(seen, number) {
        Some(gameweek) => write_locked(out, alloc, seen, cells, gameweek, steps),
        None => {
            write_nobody(out)?;
            Ok(true)
        }
    }
}

fn write_nobody(out: &mut Writer) -> Result<(), AllocError>
    ensures { Appends result out.old out.new (tokens_of no_elements) }
{
    out.begin_object()?;
    out.key("elements")?;
    out.begin_array()?;
    out.end_array()?;
    out.end_object()
}

// Writes what each player did in a gameweek that is locked.
fn write_locked<L: Ledger>(
    out: &mut Writer,
    alloc: Global,
    seen: &Seen<L>,
    cells: &SeenCells<L>,
    gameweek: Gw,
    steps: &mut ReadCount<L>,
) -> Result<bool, Memory>
    requires kept { IsKept seen.now cells.now }
    requires from_1 { 1 ≤ gameweek }
    requires locked { gameweek ≤ seen.now.facts.calendar.locked }
    ensures value { WritesShown (Some (live_data seen.now.facts gameweek)) result out.old out.new }
    ensures cost { steps.new ≤ steps.old + live_reads seen.now.facts gameweek }
{
    // The law that the ids of players rise, for the prover.
    let _count = seen.players().len();
    let rows = rows_of(alloc, seen, cells, gameweek, steps)?;
    let team = team_of(alloc, &rows)?;
    let lines = gather(alloc, seen, cells, gameweek, steps)?;
    write_players(out, alloc, seen, &lines, &team)?;
    Ok(true)
}

/// A law: what explains a player's points of a gameweek sums to them, and they are what he has in it.
pub fn points_are_explained()
    ensures explained { PointsAreExplained }
    ensures his { PointsAreHis }
{}
