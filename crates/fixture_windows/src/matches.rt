// What windows read of a match.
ghost use Rattle.std.specs.Prelude.{◌≤◌, ◌+◌};
ghost use Rattle.season_views.specs.Seen.{IsKept};
ghost use Rattle.season_views.specs.FixturesReads.{match_reads};
ghost use Rattle.fixture_windows.specs.MatchRows.{IsMatch};

use fpl_base::{FixtureId, PlayerId, ReadCount};
use rule_book::Line;
use season_graph::lines_are_told;
use season_views::{Seen, SeenCells, bonuses_held};
use std::sync::ledger::Ledger;

// The players who have a line in a match, ascending, beside each his line, and the bonuses that they have.
#[derive(Clone, Copy, Drop)]
pub(crate) struct Match<'a> {
    pub players: &'a [PlayerId],
    pub lines: &'a [Line],
    pub bonuses: &'a [(PlayerId, u8)],
}

// Reads a match: each line of it is one counted read, and the bonuses are one.
pub(crate) fn read_match<'a, L: Ledger>(
    seen: &'a Seen<L>,
    cells: &'a SeenCells<L>,
    fixture: FixtureId,
    steps: &mut ReadCount<L>,
) -> Match<'a>
    requires { IsKept seen.now cells.now }
    ensures rows { IsMatch seen.now.facts fixture result.players.now result.lines.now
        result.bonuses.now }
    ensures cost { steps.new ≤ steps.old + match_reads seen.now.facts fixture }
{
    // The law by which the lines of a match are those that are found by their players, for the prover.
    lines_are_told();
    let (players, lines) = seen.rows(fixture, steps);
    let bonuses = bonuses_held(cells, fixture, steps);
    Match {
        players,
        lines,
        bonuses,
    }
}
