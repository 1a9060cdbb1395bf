ghost use Rattle.std.specs.Prelude.{◌≡◌, nat_lt, position, OnOk};
ghost use Rattle.std.specs.List.{zip};
ghost use Rattle.rule_book.specs.Figures.{greatest_figures, IsLine, line_range};
ghost use Rattle.rule_book.specs.Refusals.{IsJudged};

use fpl_base::Rule;
use rule_book::Line;

/// Whether each figure is in its range, which docs/RULES.md gives under "Figures". The least field that is not is
/// named: fields are numbered from 1.
pub fn line_ok(line: &Line) -> Result<(), Rule>
    ensures judged { IsJudged (line_range line.now) result }
    ensures ranges { OnOk result (IsLine line.now) }
{
    match first_above(&line.figures, &greatest_of(line)) {
        Some(place) => Err(Rule::LineRange {
            field: place as u8 + 1,
        }),
        None => Ok(()),
    }
}

// The greatest value of each figure.
fn greatest_of(line: &Line) -> [u16; 28]
    ensures { result ≡ greatest_figures line.now }
{
    let attempted = line.figures[18];
    [
        120, 99, 99, 99, 99, 99, 99, 1, 1, 99, 99, 99, 99, 99, 99, 99, 99, 1, 400, attempted, 99,
        99, 99, 99, 99, 99, 99, 99,
    ]
}

// The first place at which a number is above its bound.
fn first_above(numbers: &[u16], bounds: &[u16]) -> Option<usize>
    ensures { result ≡ position (λ pair. nat_lt pair.1 pair.0) (zip numbers.now bounds.now) }
{
    numbers
        .iter()
        .zip(bounds)
        .position(|(number, bound)| number > bound)
}
