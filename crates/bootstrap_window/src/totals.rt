// What a player has of his lines, one more line at a time.
ghost use Rattle.std.specs.Prelude.{◌≡◌, ◌<◌, ◌≤◌, ◌-◌, ◌==◌, nat_le, slice_index, if◌then◌else◌};
ghost use Rattle.rule_book.specs.FigureRange.{IsWithin};
ghost use Rattle.rule_book.specs.Figures.{figure};
ghost use Rattle.season_book.specs.LineSums.{clean_sheets_of, minutes_of, yellow_cards_of};
ghost use Rattle.bootstrap_window.specs.Tables.{AreSmall, no_totals, told, with_line};

use rule_book::Line;

/// What a player has of some of his lines: how many there are, in how many of them he has a minute, and what they sum to.
#[derive(Clone, Copy)]
pub(crate) struct Totals {
    pub(crate) lines: u32,
    pub(crate) played: u32,
    pub(crate) assists: u32,
    pub(crate) bonus: u32,
    pub(crate) bps: i32,
    pub(crate) clean_sheets: u32,
    pub(crate) conceded: u32,
    pub(crate) goals: u32,
    pub(crate) minutes: u32,
    pub(crate) own_goals: u32,
    pub(crate) penalties_missed: u32,
    pub(crate) penalties_saved: u32,
    pub(crate) points: i32,
    pub(crate) red_cards: u32,
    pub(crate) saves: u32,
    pub(crate) yellow_cards: u32,
}

// Those of no line.
pub(crate) fn no_totals() -> Totals
    ensures { result ≡ no_totals }
{
    Totals {
        lines: 0,
        played: 0,
        assists: 0,
        bonus: 0,
        bps: 0,
        clean_sheets: 0,
        conceded: 0,
        goals: 0,
        minutes: 0,
        own_goals: 0,
        penalties_missed: 0,
        penalties_saved: 0,
        points: 0,
        red_cards: 0,
        saves: 0,
        yellow_cards: 0,
    }
}

// Those with one line more, of these points, this number in the bonus points system and this bonus.
pub(crate) fn with_line(t: &Totals, line: &Line, points: i32, bps: i32, bonus: u8) -> Totals
    requires small { AreSmall t.now }
    requires few { t.now.lines < 400 }
    requires points { IsWithin 10255 points }
    requires bps { IsWithin 10000 bps }
    ensures told { told result ≡ with_line (told t.now) line.now points bps bonus }
    ensures small { AreSmall result }
{
    Totals {
        lines: t.lines + 1,
        played: t.played + plays(line),
        assists: t.assists + figure_of(line, 3),
        bonus: t.bonus + u32::from(bonus),
        bps: t.bps + bps,
        clean_sheets: t.clean_sheets + clean_sheets_of(line),
        conceded: t.conceded + figure_of(line, 4),
        goals: t.goals + figure_of(line, 2),
        minutes: t.minutes + figure_of(line, 1),
        own_goals: t.own_goals + figure_of(line, 10),
        penalties_missed: t.penalties_missed + figure_of(line, 7),
        penalties_saved: t.penalties_saved + figure_of(line, 6),
        points: t.points + points,
        red_cards: t.red_cards + figure_of(line, 9),
        saves: t.saves + figure_of(line, 5),
        yellow_cards: t.yellow_cards + yellow_cards_of(line),
    }
}

// The figure of a field, from 1.
fn figure_of(line: &Line, field: u8) -> u32
    requires first { 1 ≤ field }
    requires last { field ≤ 28 }
    ensures value { result ≡ figure line.now field }
    ensures bound { result ≤ 65535 }
{
    u32::from(line.figures[usize::from(field) - 1])
}

// 1 where there is a minute.
fn plays(line: &Line) -> u32
    ensures value { result ≡ (if nat_le 1 (minutes_of line.now) then 1 else 0) }
    ensures bound { result ≤ 1 }
{
    if figure_of(line, 1) >= 1 { 1 } else { 0 }
}

// 1 where there is a clean sheet, whatever the position.
fn clean_sheets_of(line: &Line) -> u32
    ensures value { result ≡ clean_sheets_of line.now }
    ensures bound { result ≤ 1 }
{
    if figure_of(line, 1) >= 60 && figure_of(line, 4) == 0 {
        1
    } else {
        0
    }
}

// The yellow cards that count: none beside a red one.
fn yellow_cards_of(line: &Line) -> u32
    ensures value { result ≡ yellow_cards_of line.now }
    ensures bound { result ≤ 65535 }
{
    if figure_of(line, 9) == 1 {
        0
    } else {
        figure_of(line, 8)
    }
}
