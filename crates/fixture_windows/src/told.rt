// The figures by which a match is told, each with those who have some of it.
ghost use Rattle.std.specs.Prelude.{◌≡◌, ◌≢◌, ◌<◌, AllPairs, IfOk, map};
ghost use Rattle.json_members.specs.Tokens.{Appends, tokens_of};
ghost use Rattle.fixture_windows.specs.Appeared.{has_some, pair_of, some_told, stat_told, stats_told, value_at, values_told};
ghost use Rattle.season_book.specs.Windows.{listed};
ghost use Rattle.season_book.specs.FixturesWindow.{greatest_first, value_row};

use crate::appeared::{Appeared, STATS};
use crate::sides::{Side, is_side};
use fpl_base::PlayerId;
use json::Writer;
use json_members::{write_count, write_integer, write_text};
use std::alloc::{AllocError, Global};
use std::cmp::Reverse;

// How much a player has of a figure. In order the greatest comes first, and those who have as much by player.
#[derive(Clone, Copy, Debug, PartialEq, Eq, PartialOrd, Ord)]
struct Told {
    value: Reverse<i32>,
    player: PlayerId,
}

// Writes all figures of a match.
pub(crate) fn write_stats(
    out: &mut Writer,
    alloc: Global,
    rows: &[Appeared],
) -> Result<(), AllocError>
    requires { AllPairs (λ row other. row.player ≢ other.player) rows.now }
    ensures { Appends result out.old out.new (tokens_of (stats_told rows.now)) }
{
    out.begin_array()?;
    write_stat(out, alloc, rows, "goals_scored", 0)?;
    write_stat(out, alloc, rows, "assists", 1)?;
    write_stat(out, alloc, rows, "own_goals", 2)?;
    write_stat(out, alloc, rows, "penalties_saved", 3)?;
    write_stat(out, alloc, rows, "penalties_missed", 4)?;
    write_stat(out, alloc, rows, "yellow_cards", 5)?;
    write_stat(out, alloc, rows, "red_cards", 6)?;
    write_stat(out, alloc, rows, "saves", 7)?;
    write_stat(out, alloc, rows, "bonus", 8)?;
    write_stat(out, alloc, rows, "bps", 9)?;
    out.end_array()
}

// Writes a figure of a match, by its name and its place.
fn write_stat(
    out: &mut Writer,
    alloc: Global,
    rows: &[Appeared],
    name: &str,
    stat: usize,
) -> Result<(), AllocError>
    requires differ { AllPairs (λ row other. row.player ≢ other.player) rows.now }
    requires stat { stat < STATS }
    ensures { Appends result out.old out.new (tokens_of (stat_told rows.now name.now stat)) }
{
    out.begin_object()?;
    out.key("a")?;
    write_values(out, alloc, rows, Side::Away, stat)?;
    out.key("h")?;
    write_values(out, alloc, rows, Side::Home, stat)?;
    write_text(out, "identifier", name)?;
    out.end_object()
}

// Writes those of a side who have some of a figure.
fn write_values(
    out: &mut Writer,
    alloc: Global,
    rows: &[Appeared],
    side: Side,
    stat: usize,
) -> Result<(), AllocError>
    requires differ { AllPairs (λ row other. row.player ≢ other.player) rows.now }
    requires stat { stat < STATS }
    ensures { Appends result out.old out.new (tokens_of (values_told side stat rows.now)) }
{
    let told = greatest(alloc, rows, side, stat)?;
    write_told(out, &told)
}

fn write_told(out: &mut Writer, told: &[Told]) -> Result<(), AllocError>
    ensures { Appends result out.old out.new
        (tokens_of (listed value_row (map pair_of told.now))) }
{
    out.begin_array()?;
    for one in told {
        write_value(out, one)?;
    }
    out.end_array()
}

fn write_value(out: &mut Writer, told: &Told) -> Result<(), AllocError>
    ensures { Appends result out.old out.new (tokens_of (value_row (pair_of told.now))) }
{
    out.begin_object()?;
    write_count(out, "element", u64::from(told.player.get()))?;
    write_integer(out, "value", told.value.0)?;
    out.end_object()
}

// Those of a side who have some of a figure, greatest first. It takes memory, and time for one sort.
fn greatest(
    alloc: Global,
    rows: &[Appeared],
    side: Side,
    stat: usize,
) -> Result<Vec<Told>, AllocError>
    requires differ { AllPairs (λ row other. row.player ≢ other.player) rows.now }
    requires stat { stat < STATS }
    ensures { IfOk result
        (λ told. map pair_of told.items ≡ greatest_first (some_told side stat rows.now)) }
{
    let mut told = some_of(alloc, rows, side, stat)?;
    told.sort_unstable();
    Ok(told)
}

// The same in the order of the players.
fn some_of(
    alloc: Global,
    rows: &[Appeared],
    side: Side,
    stat: usize,
) -> Result<Vec<Told>, AllocError>
    requires { stat < STATS }
    ensures { IfOk result (λ told. map pair_of told.items ≡ some_told side stat rows.now) }
{
    let mut told = Vec::new(alloc);
    for row in rows {
        if has_some(row, side, stat) {
            told.push(told_of(row, stat))?;
        }
    }
    Ok(told)
}

// How much a player has of a figure.
fn told_of(row: &Appeared, stat: usize) -> Told
    requires { stat < STATS }
    ensures { pair_of result ≡ (row.now.player, value_at stat row.now) }
{
    Told {
        value: Reverse(row.values[stat]),
        player: row.player,
    }
}

// Whether a player is of a side and has some of a figure.
fn has_some(row: &Appeared, side: Side, stat: usize) -> bool
    requires { stat < STATS }
    ensures { result ≡ has_some side stat row.now }
{
    is_side(side, row.side) && row.values[stat] != 0
}
