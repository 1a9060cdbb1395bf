// The gameweeks of fixtures, and their deadlines.
ghost use Rattle.std.specs.Prelude.{◌≡◌, ◌≤◌, ◌<◌, ◌+◌, ◌-◌, ℕ, All, IfOk, IfSome, MatchOption, length, min, option_map, unwrap_or, slice_index_or, None};
ghost use Rattle.fpl_reports.specs.Folder.{AreDeadlines, EndsEarly, first_kickoff, gameweeks_of};
ghost use Rattle.fpl_reports.specs.declared.files.FixtureRow.{FixtureRow};

use crate::files::{BEFORE_KICKOFF, FixtureRow};
use fpl_base::{Memory, Moment};
use season_book::Moments;
use std::alloc::Global;

/// A season has at most so many gameweeks.
const MAX_GAMEWEEKS: usize = 38;

// The deadlines of the gameweeks, where there is one, each has a fixture, and the split is one of them or 0.
pub(crate) fn deadlines_of(
    alloc: Global,
    rows: &[FixtureRow],
    split: u8,
) -> Result<Option<Moments>, Memory>
    requires { All (λ (row : FixtureRow). 5400 ≤ row.kickoff) rows.now }
    ensures { IfOk result (λ found.
        MatchOption found (EndsEarly split rows.now) (AreDeadlines split rows.now)) }
{
    let gameweeks = gameweeks_of(rows);
    if rows.is_empty() || split > gameweeks {
        return Ok(None);
    }
    let first = first_kickoffs(rows);
    let mut deadlines = Moments::with_room(alloc, usize::from(gameweeks))?;
    for place in 0..usize::from(gameweeks) {
        let Some(kickoff) = first[place] else {
            return Ok(None);
        };
        deadlines.push(deadline_before(kickoff))?;
    }
    Ok(Some(deadlines))
}

// How many gameweeks there are.
fn gameweeks_of(rows: &[FixtureRow]) -> u8
    ensures value { result ≡ gameweeks_of rows.now }
    ensures range { result ≤ 38 }
    ensures some { 1 ≤ length rows.now → 1 ≤ result }
{
    let mut greatest = 0u8;
    for row in rows {
        greatest = greatest.max(row.gameweek.get());
    }
    greatest
}

// The first kick-off of each gameweek.
fn first_kickoffs(rows: &[FixtureRow]) -> [Option<u64>; MAX_GAMEWEEKS]
    requires { All (λ (row : FixtureRow). 5400 ≤ row.kickoff) rows.now }
    ensures first { (k : ℕ) → k < 38
        → slice_index_or result k None ≡ first_kickoff rows.now (k + 1) }
    ensures range { (k : ℕ) → k < 38
        → IfSome (slice_index_or result k None) (λ t. (5400 ≤ t) × (t ≤ 253402300799)) }
{
    let mut first: [Option<u64>; MAX_GAMEWEEKS] = [None; MAX_GAMEWEEKS];
    for row in rows {
        let place = usize::from(row.gameweek.get() - 1);
        first[place] = Some(earlier(first[place], row.kickoff.get()));
    }
    first
}

fn earlier(first: Option<u64>, kickoff: u64) -> u64
    ensures { result ≡ unwrap_or (option_map (λ t. min t kickoff) first) kickoff }
{
    match first {
        Some(t) => t.min(kickoff),
        None => kickoff,
    }
}

fn deadline_before(kickoff: u64) -> Moment
    requires late { 5400 ≤ kickoff }
    requires range { kickoff ≤ 253402300799 }
    ensures { result + 5400 ≡ kickoff }
{
    match Moment::new(kickoff - BEFORE_KICKOFF) {
        Some(deadline) => deadline,
        None => unreachable!(),
    }
}
