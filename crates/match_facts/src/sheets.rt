// The sheets of the fixtures that have facts, and what is changed in them.
ghost use Rattle.std.specs.Prelude.{◌≡◌, ◌≤◌, length, OnOk, OnErr};
ghost use Rattle.rule_book.specs.MatchFacts.{with_sheet, lines_of, with_line};
ghost use Rattle.rule_book.specs.MatchCalls.{put_line, drop_line, set_finished};
ghost use Rattle.rule_book.specs.ById.{AreSorted};

use crate::sheet::Sheet;
use crate::table::Table;
use fpl_base::{FixtureId, Memory, PlayerId};
use rule_book::Line;
use std::alloc::Global;

/// Puts a sheet in the place of a fixture's.
pub fn put_sheet_in(sheets: &mut Table, fixture: FixtureId, sheet: Sheet) -> Result<(), Memory>
    requires { AreSorted sheets.old }
    ensures ok { OnOk result (sheets.new ≡ with_sheet sheets.old fixture sheet) }
    ensures err { OnErr result (sheets.new ≡ sheets.old) }
    ensures sorted { AreSorted sheets.new }
{
    if sheet.tells_facts() {
        sheets.insert(fixture, sheet)?;
    } else {
        sheets.remove(fixture);
    }
    Ok(())
}

/// Adds or replaces a line of a fixture.
pub fn put_line_in(
    sheets: &mut Table,
    alloc: Global,
    fixture: FixtureId,
    player: PlayerId,
    line: &Line,
) -> Result<(), Memory>
    requires sorted { AreSorted sheets.old }
    requires room { length (with_line (lines_of sheets.old fixture) player line.now) ≤ 64 }
    ensures ok { OnOk result (sheets.new ≡ put_line sheets.old fixture player line.now) }
    ensures err { OnErr result (sheets.new ≡ sheets.old) }
    ensures sorted { AreSorted sheets.new }
{
    if let Some(sheet) = sheets.get_mut(fixture) {
        return sheet.put(player, line);
    }
    let mut sheet = Sheet::new(alloc, 1, false)?;
    sheet.put(player, line)?;
    sheets.insert(fixture, sheet)?;
    Ok(())
}

/// Takes a line of a fixture away, if it is there.
pub fn drop_line_in(sheets: &mut Table, fixture: FixtureId, player: PlayerId)
    requires { AreSorted sheets.old }
    ensures line { sheets.new ≡ drop_line sheets.old fixture player }
    ensures sorted { AreSorted sheets.new }
{
    if let Some(sheet) = sheets.get_mut(fixture) {
        sheet.remove(player);
        if !sheet.tells_facts() {
            sheets.remove(fixture);
        }
    }
}

/// Sets the mark of a fixture, or takes it away.
pub fn set_finished_in(
    sheets: &mut Table,
    alloc: Global,
    fixture: FixtureId,
    finished: bool,
) -> Result<(), Memory>
    requires { AreSorted sheets.old }
    ensures ok { OnOk result (sheets.new ≡ set_finished sheets.old fixture finished) }
    ensures err { OnErr result (sheets.new ≡ sheets.old) }
    ensures sorted { AreSorted sheets.new }
{
    if let Some(sheet) = sheets.get_mut(fixture) {
        sheet.set_finished(finished);
        if !sheet.tells_facts() {
            sheets.remove(fixture);
        }
        return Ok(());
    }
    if finished {
        sheets.insert(fixture, Sheet::new(alloc, 0, true)?)?;
    }
    Ok(())
}
