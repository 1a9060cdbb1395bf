ghost use Rattle.std.specs.Prelude.{◌≡◌, ◌≤◌, ◌+◌, [], length, OnOk, OnErr, IsTrue, ◌↔◌, is_some, option_copied};
ghost use Rattle.std.specs.List.{zip};
ghost use Rattle.std.specs.Map.{keys_of};
ghost use Rattle.std.specs.List.Sorted.{IsStrictlyIncreasing};
ghost use Rattle.rule_book.specs.MatchFacts.{line_of, lines_of, with_line, players_in, is_finished, has_facts};
ghost use Rattle.rule_book.specs.declared.line.Line.{Line};
ghost use Rattle.rule_book.specs.MatchCalls.{not_locked, sheet_refusal, put_sheet, line_refusal, put_line, drop_line, set_finished};
ghost use Rattle.rule_book.specs.Refusals.{IsJudged, IsJudgedOrOut};

use crate::judge::{judge_lock, judge_sheet};
use crate::line_ok;
use crate::reads::count_reads;
use crate::sheet::Sheet;
use crate::sheets::{drop_line_in, put_line_in, put_sheet_in, set_finished_in};
use crate::table::Table;
use fpl_base::{FixtureId, PlayerId, ReadCount, Refused, Rule};
use rule_book::Line;
use std::alloc::Global;
use std::marker::Model;
use std::sync::ledger::Ledger;

/// The lines of the season's fixtures, and which fixtures are finished.
#[derive(Drop)]
pub struct MatchFacts {
    alloc: Global,
    sheets: Table,
}

impl Model for MatchFacts {
    ghost use Rattle.rule_book.specs.MatchFacts as facts;
    ghost use Rattle.rule_book.specs.ById.{AreSorted};

    ghost Value = { facts.MatchFacts };

    ghost view = { λ m. m.sheets };

    ghost invariant = { λ m. AreSorted m.sheets };
}

impl MatchFacts {
    /// No facts.
    pub fn new(alloc: Global) -> Self
        ensures { result ≡ [] }
    {
        MatchFacts {
            alloc,
            sheets: Table::new(alloc),
        }
    }

    /// Replaces all lines of a fixture and its mark. `locked` says whether it stands in a locked gameweek.
    pub fn put_sheet(
        &mut self,
        fixture: FixtureId,
        locked: bool,
        lines: &[(PlayerId, Line)],
        finished: bool,
    ) -> Result<(), Refused>
        ensures judged { IsJudgedOrOut (sheet_refusal fixture locked lines.now) result }
        ensures done { OnOk result (self.new ≡ put_sheet self.old fixture lines.now finished) }
        ensures kept { OnErr result (self.new ≡ self.old) }
    {
        judge_sheet(fixture, locked, lines)?;
        let sheet = Sheet::of(self.alloc, lines, finished)?;
        put_sheet_in(&mut self.sheets, fixture, sheet)?;
        Ok(())
    }

    /// Adds a line, or replaces that of the player. `locked` says whether the fixture stands in a locked gameweek.
    pub fn put_line(
        &mut self,
        fixture: FixtureId,
        locked: bool,
        player: PlayerId,
        line: &Line,
    ) -> Result<(), Refused>
        ensures judged { IsJudgedOrOut
            (line_refusal self.old fixture locked player line.now) result }
        ensures done { OnOk result (self.new ≡ put_line self.old fixture player line.now) }
        ensures kept { OnErr result (self.new ≡ self.old) }
    {
        self.judge_line(fixture, locked, player, line)?;
        put_line_in(&mut self.sheets, self.alloc, fixture, player, line)?;
        Ok(())
    }

    /// Whether a line may be put in. `locked` says whether the fixture stands in a locked gameweek.
    pub fn judge_line(
        &self,
        fixture: FixtureId,
        locked: bool,
        player: PlayerId,
        line: &Line,
    ) -> Result<(), Rule>
        ensures judged { IsJudged (line_refusal self.now fixture locked player line.now) result }
        ensures room { OnOk result
            (length (with_line (lines_of self.now fixture) player line.now) ≤ 64) }
    {
        judge_lock(fixture, locked)?;
        if !self.has_room(fixture, player) {
            return Err(Rule::LinesFull);
        }
        line_ok(line)
    }

    // Whether at most 64 lines stand in a fixture with one of this player.
    fn has_room(&self, fixture: FixtureId, player: PlayerId) -> bool
        ensures { (line : Line) → IsTrue result
            ↔ (length (with_line (lines_of self.now fixture) player line) ≤ 64) }
    {
        match self.sheets.get(fixture) {
            Some(sheet) => sheet.has_room(player),
            None => true,
        }
    }

    /// Takes the line of a player in a fixture away, if it is there.
    pub fn drop_line(&mut self, fixture: FixtureId, player: PlayerId)
        ensures { self.new ≡ drop_line self.old fixture player }
    {
        drop_line_in(&mut self.sheets, fixture, player);
    }

    /// Marks a fixture as finished, or takes the mark away. `locked` says whether it stands in a locked gameweek.
    pub fn set_finished(
        &mut self,
        fixture: FixtureId,
        locked: bool,
        finished: bool,
    ) -> Result<(), Refused>
        ensures judged { IsJudgedOrOut (not_locked fixture locked) result }
        ensures done { OnOk result (self.new ≡ set_finished self.old fixture finished) }
        ensures kept { OnErr result (self.new ≡ self.old) }
    {
        judge_lock(fixture, locked)?;
        set_finished_in(&mut self.sheets, self.alloc, fixture, finished)?;
        Ok(())
    }

    /// The line of a player in a fixture. It is one counted read.
    pub fn line<L: Ledger>(
        &self,
        fixture: FixtureId,
        player: PlayerId,
        steps: &mut ReadCount<L>,
    ) -> Option<&Line>
        ensures line { option_copied result ≡ line_of self.now fixture player }
        ensures counted { steps.new ≡ steps.old + 1 }
    {
        steps.tick();
        match self.sheets.get(fixture) {
            Some(sheet) => sheet.line(player),
            None => None,
        }
    }

    /// The line of a player in a fixture, to be kept elsewhere. It is no counted read.
    pub fn kept_line(&self, fixture: FixtureId, player: PlayerId) -> Option<&Line>
        ensures { option_copied result ≡ line_of self.now fixture player }
    {
        match self.sheets.get(fixture) {
            Some(sheet) => sheet.line(player),
            None => None,
        }
    }

    /// The players who have a line in a fixture, ascending, and beside them the line of each. Each line is one counted
    /// read.
    pub fn rows<L: Ledger>(
        &self,
        fixture: FixtureId,
        steps: &mut ReadCount<L>,
    ) -> (&[PlayerId], &[Line])
        ensures rows { zip result.0.now result.1.now ≡ lines_of self.now fixture }
        ensures paired { length result.1.now ≡ length result.0.now }
        ensures ascending { IsStrictlyIncreasing result.0.now }
        ensures few { length result.0.now ≤ 64 }
        ensures counted { steps.new ≡ steps.old + length result.0.now }
    {
        match self.sheets.get(fixture) {
            Some(sheet) => {
                let columns = sheet.columns();
                count_reads(columns.0.len(), steps);
                columns
            }
            None => (&[], &[]),
        }
    }

    /// The players who have a line in a fixture, ascending.
    pub fn players_of(&self, fixture: FixtureId) -> &[PlayerId]
        ensures players { result.now ≡ players_in (lines_of self.now fixture) }
        ensures ascending { IsStrictlyIncreasing result.now }
        ensures few { length result.now ≤ 64 }
    {
        match self.sheets.get(fixture) {
            Some(sheet) => sheet.players(),
            None => &[],
        }
    }

    /// Whether a player has a line in a fixture. It is no counted read.
    pub fn has_line(&self, fixture: FixtureId, player: PlayerId) -> bool
        ensures { result ≡ is_some (line_of self.now fixture player) }
    {
        match self.sheets.get(fixture) {
            Some(sheet) => sheet.line(player).is_some(),
            None => false,
        }
    }

    /// The fixtures that have a line or the finished mark, ascending.
    pub fn fixtures(&self) -> &[FixtureId]
        ensures { result.now ≡ keys_of self.now }
    {
        self.sheets.fixtures()
    }

    /// Whether a fixture is finished.
    pub fn finished(&self, fixture: FixtureId) -> bool
        ensures { result ≡ is_finished self.now fixture }
    {
        match self.sheets.get(fixture) {
            Some(sheet) => sheet.finished(),
            None => false,
        }
    }

    /// Whether a fixture has a line or the finished mark.
    pub fn has_facts(&self, fixture: FixtureId) -> bool
        ensures { result ≡ has_facts self.now fixture }
    {
        match self.sheets.get(fixture) {
            Some(sheet) => sheet.tells_facts(),
            None => false,
        }
    }
}
