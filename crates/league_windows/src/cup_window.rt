// A cup with its rounds and ties, written as it is read.
ghost use Rattle.std.specs.Prelude.{◌≡◌, ◌≤◌, ◌<◌, ◌+◌, ◌*◌, ◌/◌, ◌^◌, if◌then◌else◌, length};
ghost use Rattle.std.specs.List.{range_with_len};
ghost use Rattle.std.specs.Option.{option_map_or};
ghost use Rattle.rule_book.specs.Calendar.{is_locked};
ghost use Rattle.rule_book.specs.CupRounds.{rounds_of, rounds_shown};
ghost use Rattle.leagues_and_cups.specs.Shapes.{HasShape};
ghost use Rattle.season_book.specs.LeagueViews.{cup_shown, net_in, side_in};
ghost use Rattle.season_book.specs.Windows.{listed};
ghost use Rattle.season_views.specs.Reads.{ties_of};
ghost use Rattle.season_views.specs.Seen.{IsKept, OfEachSeen, ShowsEach, WritesEach};
ghost use Rattle.season_book.specs.CupWindow.{cup_data, cup_window, gone_on, points_of_comer, round_row, tie_row};
ghost use Rattle.season_views.specs.CupWindowReads.{cup_window_reads};

use crate::shown::is_shown;
use crate::ties::{comer_at, write_tie};
use fpl_base::{CupId, EntryId, Gw, Memory, ReadCount};
use json::Writer;
use json_members::write_count;
use leagues_and_cups::{rounds, rounds_follow};
use rule_book::{Bracket, Slots};
use season_ledger::rows_tell;
use season_views::{Seen, SeenCells, cup, locked_gameweek, score_held, ties};
use std::alloc::{AllocError, Global};
use std::sync::ledger::Ledger;

/// Writes the cup of a number; `false` where there is none. Who goes on from each tie of a locked round is a counted read,
/// and so is what each of its two entries has in the round's gameweek.
pub fn write_cup_window<L: Ledger>(
    out: &mut Writer,
    alloc: Global,
    seen: &Seen<L>,
    cells: &SeenCells<L>,
    number: u32,
    steps: &mut ReadCount<L>,
) -> Result<bool, Memory>
    requires kept { IsKept seen.now cells.now }
    ensures value { ShowsEach seen.now
        (λ entries. cup_window seen.now.facts entries seen.now.cups number) result out.old out.new }
    ensures cost { OfEachSeen seen.now
        (λ entries. steps.new
        ≤ steps.old + cup_window_reads seen.now.facts entries seen.now.cups number) }
{
    match CupId::new(number) {
        Some(id) => write_if_there(out, alloc, seen, cells, id, steps),
        None => Ok(false),
    }
}

// The same of a number that a cup can have.
fn write_if_there<L: Ledger>(
    out: &mut Writer,
    alloc: Global,
    seen: &Seen<L>,
    cells: &SeenCells<L>,
    id: CupId,
    steps: &mut ReadCount<L>,
) -> Result<bool, Memory>
    requires kept { IsKept seen.now cells.now }
    ensures value { ShowsEach seen.now (λ entries. cup_window seen.now.facts entries seen.now.cups id)
        result out.old out.new }
    ensures cost { OfEachSeen seen.now
        (λ entries. steps.new ≤ steps.old + cup_window_reads seen.now.facts entries seen.now.cups id) }
{
    match seen.cups().get(id) {
        Some(bracket) => match cup(alloc, seen, cells, id, bracket, steps) {
            Ok(shown) => {
                let through = shown.rounds.as_slice();
                is_shown(write_cup(out, seen, cells, id, bracket, through, steps))
            }
            Err(memory) => Err(memory),
        },
        None => Ok(false),
    }
}

// Writes a cup, from whose rounds these go on.
fn write_cup<L: Ledger>(
    out: &mut Writer,
    seen: &Seen<L>,
    cells: &SeenCells<L>,
    id: CupId,
    bracket: &Bracket,
    through: &[Option<Slots>],
    steps: &mut ReadCount<L>,
) -> Result<(), AllocError>
    requires kept { IsKept seen.now cells.now }
    requires shape { HasShape bracket.now }
    requires shown { OfEachSeen seen.now (λ entries. through.now
        ≡ rounds_shown bracket.now (side_in seen.now.facts entries) seen.now.facts.calendar.locked) }
    ensures value { WritesEach seen.now (λ entries. cup_data seen.now.facts entries bracket.now id) result
        out.old out.new }
    ensures cost { OfEachSeen seen.now
        (λ entries. steps.new
        ≤ steps.old + 2 * ties_of (cup_shown seen.now.facts entries bracket.now).rounds) }
{
    out.begin_object()?;
    write_count(out, "id", u64::from(id.get()))?;
    out.key("rounds")?;
    write_rounds(out, seen, cells, bracket, through, steps)?;
    write_count(out, "start_event", u64::from(bracket.start.get()))?;
    out.end_object()
}

fn write_rounds<L: Ledger>(
    out: &mut Writer,
    seen: &Seen<L>,
    cells: &SeenCells<L>,
    bracket: &Bracket,
    through: &[Option<Slots>],
    steps: &mut ReadCount<L>,
) -> Result<(), AllocError>
    requires kept { IsKept seen.now cells.now }
    requires shape { HasShape bracket.now }
    requires shown { OfEachSeen seen.now (λ entries. through.now
        ≡ rounds_shown bracket.now (side_in seen.now.facts entries) seen.now.facts.calendar.locked) }
    ensures value { WritesEach seen.now
        (λ entries. listed (round_row seen.now.facts entries bracket.now)
        (range_with_len 0 (rounds_of bracket.now))) result out.old out.new }
    ensures cost { OfEachSeen seen.now
        (λ entries. steps.new
        ≤ steps.old + 2 * ties_of (cup_shown seen.now.facts entries bracket.now).rounds) }
{
    out.begin_array()?;
    for round in 0..rounds(bracket) {
        write_round(out, seen, cells, bracket, through, round, steps)?;
    }
    out.end_array()
}

// Writes the round after so many rounds.
fn write_round<L: Ledger>(
    out: &mut Writer,
    seen: &Seen<L>,
    cells: &SeenCells<L>,
    bracket: &Bracket,
    through: &[Option<Slots>],
    before: u8,
    steps: &mut ReadCount<L>,
) -> Result<(), AllocError>
    requires kept { IsKept seen.now cells.now }
    requires shape { HasShape bracket.now }
    requires shown { OfEachSeen seen.now (λ entries. through.now
        ≡ rounds_shown bracket.now (side_in seen.now.facts entries) seen.now.facts.calendar.locked) }
    requires there { before < rounds_of bracket.now }
    requires most { before < 10 }
    ensures value { WritesEach seen.now
        (λ entries. round_row seen.now.facts entries bracket.now before) result out.old out.new }
    ensures cost { OfEachSeen seen.now
        (λ entries. steps.new
        ≤ steps.old
        + 2 * option_map_or length (gone_on seen.now.facts entries bracket.now (before + 1)) 0) }
{
    out.begin_object()?;
    write_count(out, "event", u64::from(bracket.start.get() + before))?;
    out.key("ties")?;
    write_ties(out, seen, cells, bracket, through, before, steps)?;
    out.end_object()
}

// Writes the ties of the round after so many rounds.
fn write_ties<L: Ledger>(
    out: &mut Writer,
    seen: &Seen<L>,
    cells: &SeenCells<L>,
    bracket: &Bracket,
    through: &[Option<Slots>],
    before: u8,
    steps: &mut ReadCount<L>,
) -> Result<(), AllocError>
    requires kept { IsKept seen.now cells.now }
    requires shape { HasShape bracket.now }
    requires shown { OfEachSeen seen.now (λ entries. through.now
        ≡ rounds_shown bracket.now (side_in seen.now.facts entries) seen.now.facts.calendar.locked) }
    requires there { before < rounds_of bracket.now }
    requires most { before < 10 }
    ensures value { WritesEach seen.now
        (λ entries. listed (tie_row seen.now.facts entries bracket.now before)
        (range_with_len 0 (length bracket.now.slots / 2 ^ (before + 1)))) result out.old out.new }
    ensures cost { OfEachSeen seen.now
        (λ entries. steps.new
        ≤ steps.old
        + 2 * option_map_or length (gone_on seen.now.facts entries bracket.now (before + 1)) 0) }
{
    // The law on how many go on from a round, for the prover.
    rounds_follow();
    out.begin_array()?;
    for tie in 0..ties(bracket, before) {
        write_tie_at(out, seen, cells, bracket, through, (before, tie), steps)?;
    }
    out.end_array()
}

// Writes the tie at a place of the round after so many rounds.
fn write_tie_at<L: Ledger>(
    out: &mut Writer,
    seen: &Seen<L>,
    cells: &SeenCells<L>,
    bracket: &Bracket,
    through: &[Option<Slots>],
    at: (u8, u16),
    steps: &mut ReadCount<L>,
) -> Result<(), AllocError>
    requires kept { IsKept seen.now cells.now }
    requires shown { OfEachSeen seen.now (λ entries. through.now
        ≡ rounds_shown bracket.now (side_in seen.now.facts entries) seen.now.facts.calendar.locked) }
    requires there { at.0 < rounds_of bracket.now }
    requires most { at.0 < 10 }
    ensures value { WritesEach seen.now
        (λ entries. tie_row seen.now.facts entries bracket.now at.0 at.1) result out.old out.new }
    ensures cost { steps.new
        ≤ steps.old + (if is_locked seen.now.facts.calendar (bracket.now.start + at.0) then 2 else 0) }
{
    let (before, tie) = at;
    let gameweek = bracket.start.get() + before;
    let place = 2 * usize::from(tie);
    let one = comer_at(bracket, through, before, place);
    let other = comer_at(bracket, through, before, place + 1);
    let its_points = points_of(seen, cells, gameweek, &one, steps);
    let other_points = points_of(seen, cells, gameweek, &other, steps);
    let winner = comer_at(bracket, through, before + 1, usize::from(tie));
    write_tie(out, &one, its_points, &other, other_points, &winner)
}

// The points after deductions of one who plays in a gameweek; `None` while it is open.
fn points_of<L: Ledger>(
    seen: &Seen<L>,
    cells: &SeenCells<L>,
    gameweek: u8,
    comer: &Option<EntryId>,
    steps: &mut ReadCount<L>,
) -> Option<i32>
    requires kept { IsKept seen.now cells.now }
    requires one { 1 ≤ gameweek }
    ensures value { OfEachSeen seen.now
        (λ entries. result ≡ points_of_comer seen.now.facts entries gameweek comer.now) }
    ensures cost { steps.new
        ≤ steps.old + (if is_locked seen.now.facts.calendar gameweek then 1 else 0) }
{
    let locked = locked_gameweek(seen, u32::from(gameweek))?;
    match comer {
        Some(entry) => Some(net_of(seen, cells, *entry, locked, steps)),
        None => None,
    }
}

// The points after deductions of an entry in a locked gameweek; 0 where it has not begun.
fn net_of<L: Ledger>(
    seen: &Seen<L>,
    cells: &SeenCells<L>,
    entry: EntryId,
    gameweek: Gw,
    steps: &mut ReadCount<L>,
) -> i32
    requires kept { IsKept seen.now cells.now }
    requires locked { gameweek ≤ seen.now.facts.calendar.locked }
    ensures value { OfEachSeen seen.now
        (λ entries. result ≡ net_in seen.now.facts entries entry gameweek) }
    ensures cost { steps.new ≡ steps.old + 1 }
{
    // The law that rows tell what their histories do, and that the ids of players rise, for the prover.
    rows_tell();
    let _count = seen.players().len();
    match score_held(cells, entry, gameweek, steps) {
        Some(score) => score.net,
        None => 0,
    }
}
