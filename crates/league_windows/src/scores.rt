// The last locked gameweek, and what entries scored in it.
ghost use Rattle.std.specs.Prelude.{◌≡◌, ◌≤◌, ◌+◌, ◌&&◌, pos, Some, None, if◌then◌else◌, nat_le, nat_lt};
ghost use Rattle.std.specs.Option.{option_map_or};
ghost use Rattle.rule_book.specs.HistoryTeam.{is_begun};
ghost use Rattle.season_book.specs.EntryViews.{score_by};
ghost use Rattle.season_book.specs.LeagueViews.{history_of, net_in};
ghost use Rattle.season_views.specs.Seen.{IsKept, OfEachSeen};
ghost use Rattle.season_book.specs.ClassicStandings.{last_points};

use fpl_base::{EntryId, Gw, ReadCount};
use rule_book::TeamScore;
use season_ledger::rows_tell;
use season_views::{Seen, SeenCells, score_held};
use std::sync::ledger::Ledger;

/// The gameweek that was locked last; `None` where none is.
pub fn last_gameweek<L: Ledger>(seen: &Seen<L>) -> Option<Gw>
    ensures { result
        ≡ (if nat_le 1 seen.now.facts.calendar.locked then Some seen.now.facts.calendar.locked
        else None) }
{
    let locked = seen.calendar().locked();
    if locked >= 1 { Gw::new(locked) } else { None }
}

// The same, where a league with this start had begun before it.
pub(crate) fn last_behind<L: Ledger>(seen: &Seen<L>, start: Gw) -> Option<Gw>
    ensures { result
        ≡ (if nat_lt start seen.now.facts.calendar.locked then Some seen.now.facts.calendar.locked
        else None) }
{
    let locked = seen.calendar().locked();
    if start.get() < locked {
        Gw::new(locked)
    } else {
        None
    }
}

/// What an entry's team scored in a locked gameweek; `None` before its first one. It is a counted read.
pub fn score<L: Ledger>(
    seen: &Seen<L>,
    cells: &SeenCells<L>,
    entry: EntryId,
    gameweek: Gw,
    steps: &mut ReadCount<L>,
) -> Option<TeamScore>
    requires kept { IsKept seen.now cells.now }
    requires locked { gameweek ≤ seen.now.facts.calendar.locked }
    ensures value { OfEachSeen seen.now
        (λ entries. result
        ≡ (if is_begun (history_of entries entry) gameweek
        then Some (score_by seen.now.facts (history_of entries entry) gameweek) else None)) }
    ensures cost { steps.new ≡ steps.old + 1 }
{
    // The law that rows tell what their histories do, and that the ids of players rise, for the prover.
    rows_tell();
    let _count = seen.players().len();
    score_held(cells, entry, gameweek, steps)
}

// An entry's points after deductions in a locked gameweek; 0 before its first one. It is a counted read.
pub(crate) fn net<L: Ledger>(
    seen: &Seen<L>,
    cells: &SeenCells<L>,
    entry: EntryId,
    gameweek: Gw,
    steps: &mut ReadCount<L>,
) -> i32
    requires kept { IsKept seen.now cells.now }
    requires locked { gameweek ≤ seen.now.facts.calendar.locked }
    ensures value { OfEachSeen seen.now
        (λ entries. result ≡ net_in seen.now.facts entries entry gameweek) }
    ensures cost { steps.new ≡ steps.old + 1 }
{
    match score(seen, cells, entry, gameweek, steps) {
        Some(score) => score.net,
        None => 0,
    }
}

// An entry's points of the last gameweek, before deductions; 0 where it is not in it. It is a counted read.
pub(crate) fn last_points<L: Ledger>(
    seen: &Seen<L>,
    cells: &SeenCells<L>,
    entry: EntryId,
    steps: &mut ReadCount<L>,
) -> i32
    requires kept { IsKept seen.now cells.now }
    ensures value { OfEachSeen seen.now
        (λ entries. result ≡ last_points seen.now.facts entries entry) }
    ensures cost { steps.new ≤ steps.old + 1 }
{
    let Some(last) = last_gameweek(seen) else {
        return 0;
    };
    match score(seen, cells, entry, last, steps) {
        Some(score) => score.gross,
        None => 0,
    }
}
