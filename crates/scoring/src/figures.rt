// The figures of a line that is in range, and what both columns make of them.
ghost use Rattle.std.specs.Prelude.{◌≡◌, ◌≤◌, ◌-◌, pos, negsuc, ◌-ℤ◌, ◌≤ℤ◌, slice_index};
ghost use Rattle.rule_book.specs.Figures.{figure, greatest_figures, IsLine};
ghost use Rattle.rule_book.specs.Points.{is_clean_sheet, counted_yellow};

use rule_book::Line;

// The figure of a field, from 1.
pub(crate) fn figure_of(line: &Line, field: u8) -> u32
    requires line { IsLine line.now }
    requires first { 1 ≤ field }
    requires last { field ≤ 28 }
    ensures value { result ≡ figure line.now field }
    ensures bound { result ≤ slice_index (greatest_figures line.now) (field - 1) }
{
    u32::from(line.figures[field as usize - 1])
}

// Whether at least an hour was played and no goal conceded.
pub(crate) fn has_clean_sheet(line: &Line) -> bool
    requires { IsLine line.now }
    ensures { result ≡ is_clean_sheet line.now }
{
    figure_of(line, 1) >= 60 && figure_of(line, 4) == 0
}

// The yellow cards that count: none beside a red one.
pub(crate) fn counted_yellow_of(line: &Line) -> u32
    requires { IsLine line.now }
    ensures value { result ≡ counted_yellow line.now }
    ensures bound { result ≤ 1 }
{
    let cards = figure_of(line, 8);
    if figure_of(line, 9) == 1 { 0 } else { cards }
}

pub(crate) fn balance(gains: u32, losses: u32) -> i32
    requires gains { gains ≤ 10000 }
    requires losses { losses ≤ 10000 }
    ensures value { result ≡ pos gains -ℤ pos losses }
    ensures low { negsuc 9999 ≤ℤ result }
    ensures high { result ≤ℤ pos 10000 }
{
    gains as i32 - losses as i32
}
