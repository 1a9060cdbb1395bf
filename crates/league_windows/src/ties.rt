// Who comes to a tie of a cup, and what is written of it.
ghost use Rattle.std.specs.Prelude.{◌≡◌, ◌≤◌, ◌==◌, ℕ, Some, if◌then◌else◌, slice_index};
ghost use Rattle.json_members.specs.Tokens.{Appends, tokens_of};
ghost use Rattle.rule_book.specs.declared.cup.Side.{Side};
ghost use Rattle.rule_book.specs.CupRounds.{locked_winners, rounds_of, rounds_shown};
ghost use Rattle.season_book.specs.CupWindow.{comer_at, entry_of, tie_data};

use crate::sides::number_of;
use fpl_base::EntryId;
use json::Writer;
use json_members::{write_count_or_null, write_integer_or_null};
use rule_book::{Bracket, Slots};
use std::alloc::AllocError;

// The entry that comes to a place of the round after so many rounds; `None` for a bye, and while it is open who comes.
pub fn comer_at(
    bracket: &Bracket,
    through: &[Option<Slots>],
    before: u8,
    place: usize,
) -> Option<EntryId>
    requires { before ≤ rounds_of bracket.now }
    ensures { (side : ℕ → ℕ → Side) (locked : ℕ) → through.now ≡ rounds_shown bracket.now side locked
        → result
        ≡ comer_at
        (if before == 0 then Some bracket.now.slots else locked_winners bracket.now side locked before)
        place }
{
    if before == 0 {
        return entry_at(bracket.slots.as_slice(), place);
    }
    if usize::from(before) > through.len() {
        return None;
    }
    winner_at(&through[usize::from(before) - 1], place)
}

fn winner_at(winners: &Option<Slots>, place: usize) -> Option<EntryId>
    ensures { result ≡ comer_at winners.now place }
{
    match winners {
        Some(winners) => entry_at(winners.as_slice(), place),
        None => None,
    }
}

fn entry_at(entries: &[u32], place: usize) -> Option<EntryId>
    ensures { result ≡ entry_of (slice_index entries.now place) }
{
    match entries.get(place) {
        Some(number) => EntryId::new(*number),
        None => None,
    }
}

// Writes a tie of two entries, each with its points, and who goes on.
pub fn write_tie(
    out: &mut Writer,
    one: &Option<EntryId>,
    its_points: Option<i32>,
    other: &Option<EntryId>,
    other_points: Option<i32>,
    winner: &Option<EntryId>,
) -> Result<(), AllocError>
    ensures { Appends result out.old out.new
        (tokens_of (tie_data one.now its_points other.now other_points winner.now)) }
{
    out.begin_object()?;
    write_count_or_null(out, "entry_1", number_of(one))?;
    write_integer_or_null(out, "entry_1_points", its_points)?;
    write_count_or_null(out, "entry_2", number_of(other))?;
    write_integer_or_null(out, "entry_2_points", other_points)?;
    write_count_or_null(out, "winner", number_of(winner))?;
    out.end_object()
}
