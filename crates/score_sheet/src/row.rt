// One row of a match, from the fields of a record.
ghost use Rattle.std.specs.Prelude.{List, ◌≡◌, ◌≢◌, ◌<◌, ◌≤◌, ℕ, Some, None, length, IfSome, MatchOption};
ghost use Rattle.std.specs.Fmt.{decimal};
ghost use Rattle.csv.specs.Records.{fields_of, field_at};
ghost use Rattle.rule_book.specs.Figures.{IsLine, line_range};
ghost use Rattle.rule_book.specs.declared.line.Appearance.{Appearance};
ghost use Rattle.score_sheet.specs.Rows.{Spells, SpellsFigures};

use csv::ByteRecord;
use fpl_base::{PlayerId, Position, read_number};
use match_facts::line_ok;
use rule_book::{Appearance, Line};

// The row that the fields of a record spell, where no figure is above its greatest value.
pub(crate) fn row_of(record_read: &ByteRecord) -> Option<Appearance>
    ensures row { MatchOption result
        ((row : Appearance) → Spells (fields_of record_read.now) row → line_range row.line ≡ None
        → ⊥) (λ row. Spells (fields_of record_read.now) row × (line_range row.line ≡ None)) }
    ensures in_range { IfSome result (λ row. IsLine row.line) }
{
    if record_read.len() != 30 {
        return None;
    }
    let player = player_of(field_of(record_read, 0))?;
    let position = Position::from_letter(field_of(record_read, 1))?;
    let figures = figures_of(record_read)?;
    let line = Line { figures };
    match line_ok(&line) {
        Ok(()) => Some(Appearance {
            player,
            position,
            line,
        }),
        Err(_) => None,
    }
}

fn field_of(record_read: &ByteRecord, place: usize) -> &[u8]
    requires { place < length (fields_of record_read.now) }
    ensures { field_at (fields_of record_read.now) place ≡ Some result.now }
{
    match record_read.get(place) {
        Some(field) => field,
        None => unreachable!(),
    }
}

fn player_of(field: &[u8]) -> Option<PlayerId>
    ensures { MatchOption result ((n : ℕ) → 1 ≤ n → n ≤ 999999 → field.now ≢ decimal n)
        (λ n. (1 ≤ n) × (n ≤ 999999) × (field.now ≡ decimal n)) }
{
    let value = read_number(field, 999_999)?;
    match PlayerId::new(value as u32) {
        Some(player) => Some(player),
        None => None,
    }
}

// The figures behind the first two of thirty fields.
fn figures_of(record_read: &ByteRecord) -> Option<[u16; 28]>
    requires { length (fields_of record_read.now) ≡ 30 }
    ensures { MatchOption result
        ((figures : List ℕ) → SpellsFigures (fields_of record_read.now) figures 28 → ⊥)
        (λ figures. (length figures ≡ 28) × SpellsFigures (fields_of record_read.now) figures 28) }
{
    let mut figures = [0; 28];
    for k in 0..28usize {
        let figure = read_number(field_of(record_read, k + 2), 65_535)?;
        figures[k] = figure as u16;
    }
    Some(figures)
}
