// The points of a gameweek, by one pass over the entries.
ghost use Rattle.std.specs.Prelude.{◌≡◌, ◌≤◌, ◌<◌, ◌+◌, ◌*◌, ◌^◌, ◌++◌, ◌∷◌, ◌-◌, [], Some, None, length, pos, if◌then◌else◌};
ghost use Rattle.std.specs.Option.{option_map};
ghost use Rattle.rule_book.specs.Calendar.{is_locked};
ghost use Rattle.rule_book.specs.Entries.{entry_in};
ghost use Rattle.rule_book.specs.FigureRange.{IsWithin};
ghost use Rattle.season_book.specs.Book.{EntryFacts};
ghost use Rattle.season_views.specs.Seen.{IsKept, OfEachSeen};
ghost use Rattle.season_book.specs.EntryTotals.{gross_by, is_in};
ghost use Rattle.season_book.specs.Events.{Scores, scores_in};
ghost use Rattle.bootstrap_window.specs.Told.{AreTold, better_of};

use fpl_base::{EntryId, Gw, ReadCount};
use rule_book::TeamScore;
use season_entries::entries_are_issued;
use season_ledger::rows_tell;
use season_views::{Seen, SeenCells, score_held};
use std::sync::ledger::Ledger;

/// The greatest points of a gameweek before deductions, and the first entry that has them.
#[derive(Clone, Copy)]
pub(crate) struct Best {
    pub(crate) entry: EntryId,
    pub(crate) gross: i32,
}

/// How many entries are in a gameweek, what they have in it together, and the greatest of it.
#[derive(Clone, Copy)]
pub(crate) struct EventScores {
    pub(crate) many: u32,
    pub(crate) total: i64,
    pub(crate) best: Option<Best>,
}

/// What the entries in a gameweek have in it; nothing while it is open.
pub(crate) fn event_scores<L: Ledger>(
    seen: &Seen<L>,
    cells: &SeenCells<L>,
    gameweek: Gw,
    steps: &mut ReadCount<L>,
) -> EventScores
    requires { IsKept seen.now cells.now }
    ensures value { OfEachSeen seen.now
        (λ entries. AreTold (scores_in seen.now.facts entries gameweek) result) }
    ensures cost { steps.new
        ≤ steps.old + (if is_locked seen.now.facts.calendar gameweek
        then length seen.now.managers.managers else 0) }
{
    if gameweek.get() > seen.calendar().locked() {
        return no_scores();
    }
    // The law on which entries are there, for the prover.
    entries_are_issued();
    let mut scores = no_scores();
    for place in 0..seen.entries() {
        let entry = EntryId::new(place + 1).unwrap();
        scores = with_entry(seen, cells, scores, entry, gameweek, steps);
    }
    scores
}

// With an entry more, if it is in the gameweek.
fn with_entry<L: Ledger>(
    seen: &Seen<L>,
    cells: &SeenCells<L>,
    scores: EventScores,
    entry: EntryId,
    gameweek: Gw,
    steps: &mut ReadCount<L>,
) -> EventScores
    requires kept { IsKept seen.now cells.now }
    requires locked { gameweek ≤ seen.now.facts.calendar.locked }
    requires few { scores.many < 2 ^ 32 - 1 }
    requires near { IsWithin (2 ^ 31 * scores.many) scores.total }
    ensures value { OfEachSeen seen.now
        (λ entries. (row : EntryFacts) → entry_in entries entry ≡ Some row
        → (before : Scores) → AreTold before scores
        → AreTold (before ++ (if is_in row gameweek
        then (entry, gross_by seen.now.facts row.history gameweek) ∷ [] else [])) result) }
    ensures few { result.many ≤ scores.many + 1 }
    ensures near { IsWithin (2 ^ 31 * result.many) result.total }
    ensures cost { steps.new ≡ steps.old + 1 }
{
    match gross_held(seen, cells, entry, gameweek, steps) {
        Some(gross) => with_score(scores, entry, gross),
        None => scores,
    }
}

fn no_scores() -> EventScores
    ensures told { AreTold [] result }
    ensures none { result ≡ record { many = 0; total = pos 0; best = None } }
{
    EventScores {
        many: 0,
        total: 0,
        best: None,
    }
}

// With one entry more, which has these points.
fn with_score(scores: EventScores, entry: EntryId, gross: i32) -> EventScores
    requires few { scores.many < 2 ^ 32 - 1 }
    requires near { IsWithin (2 ^ 31 * scores.many) scores.total }
    ensures told { (before : Scores) → AreTold before scores
        → AreTold (before ++ (entry, gross) ∷ []) result }
    ensures many { result.many ≡ scores.many + 1 }
    ensures near { IsWithin (2 ^ 31 * result.many) result.total }
{
    EventScores {
        many: scores.many + 1,
        total: scores.total + i64::from(gross),
        best: better(scores.best, entry, gross),
    }
}

// The better of the best so far and of an entry; the earlier where they have the same.
fn better(best: Option<Best>, entry: EntryId, gross: i32) -> Option<Best>
    ensures { result ≡ better_of best entry gross }
{
    match best {
        Some(before) => {
            if gross > before.gross {
                Some(Best { entry, gross })
            } else {
                Some(before)
            }
        }
        None => Some(Best { entry, gross }),
    }
}

// The points of an entry in a locked gameweek before deductions; `None` before its first.
fn gross_held<L: Ledger>(
    seen: &Seen<L>,
    cells: &SeenCells<L>,
    entry: EntryId,
    gameweek: Gw,
    steps: &mut ReadCount<L>,
) -> Option<i32>
    requires kept { IsKept seen.now cells.now }
    requires locked { gameweek ≤ seen.now.facts.calendar.locked }
    ensures value { OfEachSeen seen.now
        (λ entries. (row : EntryFacts) → entry_in entries entry ≡ Some row
        → result ≡ (if is_in row gameweek then Some (gross_by seen.now.facts row.history gameweek)
        else None)) }
    ensures cost { steps.new ≡ steps.old + 1 }
{
    // The laws that rows tell what their histories do, and that the ids of players rise, for the prover.
    rows_tell();
    let _count = seen.players().len();
    gross_of(score_held(cells, entry, gameweek, steps))
}

fn gross_of(score: Option<TeamScore>) -> Option<i32>
    ensures { result ≡ option_map (λ s. s.gross) score }
{
    match score {
        Some(score) => Some(score.gross),
        None => None,
    }
}
