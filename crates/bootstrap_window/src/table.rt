// What each player has of his lines, by one pass over the fixtures.
ghost use Rattle.std.specs.Prelude.{◌≡◌, ◌≤◌, ◌<◌, ◌+◌, ◌==◌, ◌++◌, ℕ, pos, ◌+ℤ◌, IfOk, List, OnOk, false, length};
ghost use Rattle.std.specs.List.{zip};
ghost use Rattle.std.specs.Option.{unwrap_or};
ghost use Rattle.rescore_graph.specs.Graph.{Among};
ghost use Rattle.rule_book.specs.declared.line.Line.{Line};
ghost use Rattle.rule_book.specs.ById.{at_id};
ghost use Rattle.rule_book.specs.MatchFacts.{lines_of, players_in};
ghost use Rattle.season_nodes.specs.Season.{Rising};
ghost use Rattle.rule_book.specs.BonusPoints.{bps_of};
ghost use Rattle.rule_book.specs.FigureRange.{IsWithin};
ghost use Rattle.rule_book.specs.Figures.{IsLine};
ghost use Rattle.rule_book.specs.PlayerFigures.{bonus_at, line_beside, position_in};
ghost use Rattle.rule_book.specs.Points.{points_of};
ghost use Rattle.season_views.specs.Seen.{IsKept};
ghost use Rattle.season_views.specs.BootstrapReads.{fixture_reads, lines_reads};
ghost use Rattle.season_book.specs.LineSums.{all_lines};
ghost use Rattle.bootstrap_window.specs.Tables.{AllSmall, AreSmall, Sums, told, totals_in, with_line};

use crate::totals::{Totals, no_totals, with_line};
use fpl_base::{FixtureId, PlayerId, Position, Profile, ReadCount};
use rule_book::{Fixture, Line};
use scoring::{bps, line_points};
use season_graph::lines_are_told;
use season_rules::bonus_among;
use season_views::{Seen, SeenCells, bonuses_held};
use std::alloc::{AllocError, Global};
use std::collections::HashMap;
use std::sync::ledger::Ledger;

/// What each player has of his lines, by his number; of one who has no line nothing stands there.
pub(crate) type Table = HashMap<u32, Totals>;

/// The table of a season. Each line is read once.
pub(crate) fn table_of<L: Ledger>(
    alloc: Global,
    seen: &Seen<L>,
    cells: &SeenCells<L>,
    steps: &mut ReadCount<L>,
) -> Result<Table, AllocError>
    requires { IsKept seen.now cells.now }
    ensures value { IfOk result (λ table. Sums seen.now.facts table (all_lines seen.now.facts)) }
    ensures cost { steps.new ≤ steps.old + lines_reads seen.now.facts }
{
    // The law that there are at most 380 fixtures, for the prover.
    let _count = seen.calendar().gameweeks();
    let mut table = HashMap::new(alloc);
    for fixture in seen.calendar().fixtures() {
        add_fixture(&mut table, seen, cells, fixture, steps)?;
    }
    Ok(table)
}

// The table with the lines of one fixture more.
fn add_fixture<L: Ledger>(
    table: &mut Table,
    seen: &Seen<L>,
    cells: &SeenCells<L>,
    fixture: &Fixture,
    steps: &mut ReadCount<L>,
) -> Result<(), AllocError>
    requires kept { IsKept seen.now cells.now }
    requires small { AllSmall table.old }
    requires few { (p : ℕ) → (totals_in table.old p).lines < 400 }
    ensures value { (before : ℕ → List (ℕ × Line)) → Sums seen.now.facts table.old before
        → OnOk result (Sums seen.now.facts table.new
        (λ p. before p ++ line_beside seen.now.facts.matches p fixture.now.id)) }
    ensures small { OnOk result (AllSmall table.new) }
    ensures cost { steps.new ≤ steps.old + fixture_reads seen.now.facts fixture.now }
{
    // The law on what is told of lines, for the prover.
    lines_are_told();
    let bonuses = bonuses_held(cells, fixture.id, steps);
    let (players, lines) = seen.rows(fixture.id, steps);
    add_rows(table, seen, fixture.id, bonuses, players, lines)
}

// The table with the lines of these players in a fixture more, of which these have a bonus.
fn add_rows<L: Ledger>(
    table: &mut Table,
    seen: &Seen<L>,
    fixture: FixtureId,
    bonuses: &[(PlayerId, u8)],
    players: &[PlayerId],
    lines: &[Line],
) -> Result<(), AllocError>
    requires paired { length lines.now ≡ length players.now }
    requires rows { zip players.now lines.now ≡ lines_of seen.now.facts.matches fixture }
    requires ascending { Rising (players_in (lines_of seen.now.facts.matches fixture)) }
    requires told { (row : ℕ × Line) → Among (lines_of seen.now.facts.matches fixture) row
        → IsLine row.1 × (unwrap_or (at_id bonuses.now row.0) 0
        ≡ bonus_at seen.now.facts.players seen.now.facts.matches fixture row) }
    requires small { AllSmall table.old }
    requires few { (p : ℕ) → (totals_in table.old p).lines < 400 }
    ensures value { (before : ℕ → List (ℕ × Line)) → Sums seen.now.facts table.old before
        → OnOk result (Sums seen.now.facts table.new
        (λ p. before p ++ line_beside seen.now.facts.matches p fixture)) }
    ensures small { OnOk result (AllSmall table.new) }
{
    for (place, player) in players.iter().enumerate() {
        let bonus = bonus_among(bonuses, *player);
        add_row(table, seen, *player, &lines[place], bonus)?;
    }
    Ok(())
}

// The table with one line of a player more, which has this bonus.
fn add_row<L: Ledger>(
    table: &mut Table,
    seen: &Seen<L>,
    player: PlayerId,
    line: &Line,
    bonus: u8,
) -> Result<(), AllocError>
    requires line { IsLine line.now }
    requires small { AllSmall table.old }
    requires few { (totals_in table.old player).lines < 400 }
    ensures own { OnOk result (told (totals_in table.new player)
        ≡ with_line (told (totals_in table.old player)) line.now
        (points_of seen.now.facts.profile (position_in seen.now.facts.players player) line.now
        +ℤ pos bonus) (bps_of (position_in seen.now.facts.players player) line.now) bonus) }
    ensures others { OnOk result
        ((p : ℕ) → (player == p) ≡ false → totals_in table.new p ≡ totals_in table.old p) }
    ensures small { OnOk result (AllSmall table.new) }
{
    let position = position_in(seen, player);
    let points = points_with(seen.profile(), position, line, bonus);
    add_line(table, player, line, points, bps(position, line), bonus)?;
    Ok(())
}

// The points of a line with this bonus.
fn points_with(profile: Profile, position: Position, line: &Line, bonus: u8) -> i32
    requires { IsLine line.now }
    ensures value { result ≡ points_of profile position line.now +ℤ pos bonus }
    ensures near { IsWithin 10255 result }
{
    line_points(profile, position, line) + i32::from(bonus)
}

// The table with one line of a player more, of these points, this number in the bonus points system and this bonus.
fn add_line(
    table: &mut Table,
    player: PlayerId,
    line: &Line,
    points: i32,
    bps: i32,
    bonus: u8,
) -> Result<(), AllocError>
    requires points { IsWithin 10255 points }
    requires bps { IsWithin 10000 bps }
    requires small { AllSmall table.old }
    requires few { (totals_in table.old player).lines < 400 }
    ensures own { OnOk result (told (totals_in table.new player)
        ≡ with_line (told (totals_in table.old player)) line.now points bps bonus) }
    ensures others { OnOk result
        ((p : ℕ) → (player == p) ≡ false → totals_in table.new p ≡ totals_in table.old p) }
    ensures small { OnOk result (AllSmall table.new) }
{
    let before = totals_in(table, player);
    let after = with_line(&before, line, points, bps, bonus);
    table.insert(player.get(), after)?;
    Ok(())
}

/// What a player has of his lines.
pub(crate) fn totals_in(table: &Table, player: PlayerId) -> Totals
    ensures { result ≡ totals_in table.now player }
{
    match table.get(&player.get()) {
        Some(totals) => *totals,
        None => no_totals(),
    }
}

// Where a player plays.
fn position_in<L: Ledger>(seen: &Seen<L>, player: PlayerId) -> Position
    ensures { result ≡ position_in seen.now.facts.players player }
{
    match seen.players().get(player) {
        Some(there) => there.position,
        None => Position::Keeper,
    }
}
