// An entry's gameweek, read.
ghost use Rattle.std.specs.Prelude.{◌≡◌, ◌≤◌, ◌+◌, Some, None, if◌then◌else◌, not, pos};
ghost use Rattle.rule_book.specs.Entries.{entry_in};
ghost use Rattle.rule_book.specs.FigureRange.{IsWithin};
ghost use Rattle.rule_book.specs.HistoryTeam.{is_begun};
ghost use Rattle.rule_book.specs.HistoryTransfers.{is_past_first};
ghost use Rattle.rule_book.specs.TeamScores.{points_at, points_of_slots};
ghost use Rattle.rule_book.specs.Teams.{InTeam};
ghost use Rattle.season_book.specs.Book.{EntryFacts};
ghost use Rattle.season_views.specs.Entries.{OfEachHistory};
ghost use Rattle.season_views.specs.Seen.{IsKept, OfEachSeen};
ghost use Rattle.season_book.specs.EntryRows.{benched, does_count, entry_row_of, transfers_in};
ghost use Rattle.entry_windows.specs.Races.{IsRace};
ghost use Rattle.entry_windows.specs.Told.{figures_in, played_by, told_row};

use crate::shapes::{GameweekRow, Played, Race, does_count};
use fpl_base::{EntryId, Gw, ReadCount};
use season_ledger::rows_tell;
use season_views::{Seen, SeenCells, gameweek_held, score_held};
use std::sync::ledger::Ledger;

/// What an entry's team of a locked gameweek is, and what it scored; `None` before its first.
pub fn played<L: Ledger>(
    seen: &Seen<L>,
    cells: &SeenCells<L>,
    entry: EntryId,
    gameweek: Gw,
    steps: &mut ReadCount<L>,
) -> Option<Played>
    requires kept { IsKept seen.now cells.now }
    requires locked { gameweek ≤ seen.now.facts.calendar.locked }
    ensures value { OfEachHistory seen.now.facts seen.now.managers entry
        (λ h. result
        ≡ (if is_begun h gameweek then Some (played_by seen.now.facts h gameweek) else None)) }
    ensures cost { steps.new ≤ steps.old + 2 }
{
    // The law that rows tell what their histories do, for the prover.
    rows_tell();
    let team = seen.team_at(entry, gameweek, steps)?;
    let score = score_held(cells, entry, gameweek, steps)?;
    Some(Played { team, score })
}

/// The row of a gameweek through which the entry's race is known.
pub fn row_of<L: Ledger>(
    seen: &Seen<L>,
    cells: &SeenCells<L>,
    entry: EntryId,
    gameweek: Gw,
    played: &Played,
    race: &Race,
    steps: &mut ReadCount<L>,
) -> GameweekRow
    requires kept { IsKept seen.now cells.now }
    requires locked { gameweek ≤ seen.now.facts.calendar.locked }
    ensures value { OfEachSeen seen.now
        (λ entries. (row : EntryFacts) → entry_in entries entry ≡ Some row
        → played.now ≡ played_by seen.now.facts row.history gameweek
        → IsRace seen.now.facts entries (entry, row) gameweek race.now
        → told_row result ≡ entry_row_of seen.now.facts entries (entry, row) gameweek) }
    ensures event { result.event ≡ gameweek }
    ensures cost { steps.new ≤ steps.old + 16 }
{
    // That the ids of players rise, for the prover.
    let _count = seen.players().len();
    let place = usize::from(gameweek.get()) - 1;
    GameweekRow {
        bank: played.team.bank,
        event: gameweek,
        transfers: transfers_in(seen, entry, gameweek, steps),
        cost: played.score.cost,
        rank: race.ranks[place],
        points: played.score.gross,
        bench: bench_points(seen, cells, gameweek, played, steps),
        total: race.course.totals[place],
    }
}

// How many transfers an entry has in a gameweek; none are told of its first.
fn transfers_in<L: Ledger>(
    seen: &Seen<L>,
    entry: EntryId,
    gameweek: Gw,
    steps: &mut ReadCount<L>,
) -> u16
    ensures value { OfEachHistory seen.now.facts seen.now.managers entry
        (λ h. result ≡ transfers_in h gameweek) }
    ensures cost { steps.new ≤ steps.old + 1 }
{
    if is_past(seen, entry, gameweek) {
        seen.made(entry, gameweek, steps)
    } else {
        0
    }
}

// Whether a gameweek is behind the first of an entry.
fn is_past<L: Ledger>(seen: &Seen<L>, entry: EntryId, gameweek: Gw) -> bool
    ensures { OfEachHistory seen.now.facts seen.now.managers entry
        (λ h. result ≡ is_past_first h gameweek) }
{
    match seen.first(entry) {
        Some(first) => first.get() < gameweek.get(),
        None => false,
    }
}

// The points of the slots of a team that do not count.
fn bench_points<L: Ledger>(
    seen: &Seen<L>,
    cells: &SeenCells<L>,
    gameweek: Gw,
    played: &Played,
    steps: &mut ReadCount<L>,
) -> i32
    requires kept { IsKept seen.now cells.now }
    requires locked { gameweek ≤ seen.now.facts.calendar.locked }
    ensures value { result
        ≡ points_of_slots (figures_in seen.now.facts played.now.team gameweek)
        (benched played.now.team played.now.score.eleven.slots) }
    ensures cost { steps.new ≤ steps.old + 15 }
{
    let mut points = 0;
    for place in 0..15u8 {
        points += bench_at(seen, cells, gameweek, played, place + 1, steps);
    }
    points
}

// The points of the player of a slot, if they do not count; else 0.
fn bench_at<L: Ledger>(
    seen: &Seen<L>,
    cells: &SeenCells<L>,
    gameweek: Gw,
    played: &Played,
    slot: u8,
    steps: &mut ReadCount<L>,
) -> i32
    requires kept { IsKept seen.now cells.now }
    requires locked { gameweek ≤ seen.now.facts.calendar.locked }
    requires slot { InTeam slot }
    ensures value { result
        ≡ (if not (does_count played.now.team played.now.score.eleven.slots slot)
        then points_at (figures_in seen.now.facts played.now.team gameweek) slot else pos 0) }
    ensures near { IsWithin 1000000 result }
    ensures cost { steps.new ≤ steps.old + 1 }
{
    if does_count(played, slot) {
        0
    } else {
        slot_points(seen, cells, gameweek, played, slot, steps)
    }
}

// The points of the player of a slot in a locked gameweek.
fn slot_points<L: Ledger>(
    seen: &Seen<L>,
    cells: &SeenCells<L>,
    gameweek: Gw,
    played: &Played,
    slot: u8,
    steps: &mut ReadCount<L>,
) -> i32
    requires kept { IsKept seen.now cells.now }
    requires locked { gameweek ≤ seen.now.facts.calendar.locked }
    requires slot { InTeam slot }
    ensures value { result ≡ points_at (figures_in seen.now.facts played.now.team gameweek) slot }
    ensures near { IsWithin 1000000 result }
    ensures cost { steps.new ≡ steps.old + 1 }
{
    let place = usize::from(slot) - 1;
    let player = played.team.picks[place].player;
    gameweek_held(cells, player, gameweek, steps).points
}
