// The commands that change the figures of the matches. Each was judged before.
ghost use Rattle.std.specs.Prelude.{◌≡◌, None, OnOk, OnErr, true};
ghost use Rattle.std.specs.List.{list_all};
ghost use Rattle.rule_book.specs.MatchCalls.{drop_line, line_refusal, not_locked, put_line, put_sheet, set_finished, sheet_refusal};
ghost use Rattle.season_book.specs.Commands.{has_fixture, has_player, is_in_locked};

use crate::Season;
use fpl_base::{Memory, PlayerId, Refused};
use match_facts::facts_are_maps;
use rule_book::Line;

// In each of them the law `facts_are_maps` tells the prover which lines stand behind the change, all in their ranges and
// each of a player who is there.
impl Season {
    pub(crate) fn put_sheet(
        &mut self,
        number: u32,
        lines: &[(PlayerId, Line)],
        finished: bool,
    ) -> Result<(), Memory>
        requires there { has_fixture self.old number ≡ true }
        requires players { list_all (λ row. has_player self.old row.0) lines.now ≡ true }
        requires unbroken { sheet_refusal number (is_in_locked self.old number) lines.now ≡ None }
        ensures ok { OnOk result
            (self.new
            ≡ record self.old { matches = put_sheet self.old.matches number lines.now finished }) }
        ensures err { OnErr result (self.new ≡ self.old) }
    {
        let fixture = self.the_fixture(number);
        let locked = self.is_in_locked(fixture);
        // The law that no fixture and no player has two lines, for the prover.
        facts_are_maps();
        match self.matches.put_sheet(fixture, locked, lines, finished) {
            Ok(()) => Ok(()),
            Err(Refused::Memory) => Err(Memory),
            Err(Refused::Rule(_)) => unreachable!(),
        }
    }

    pub(crate) fn put_line(
        &mut self,
        number: u32,
        player: PlayerId,
        line: &Line,
    ) -> Result<(), Memory>
        requires there { has_fixture self.old number ≡ true }
        requires player { has_player self.old player ≡ true }
        requires unbroken { line_refusal self.old.matches number
            (is_in_locked self.old number) player line.now ≡ None }
        ensures ok { OnOk result
            (self.new
            ≡ record self.old { matches = put_line self.old.matches number player line.now }) }
        ensures err { OnErr result (self.new ≡ self.old) }
    {
        let fixture = self.the_fixture(number);
        let locked = self.is_in_locked(fixture);
        // The law that no fixture and no player has two lines, for the prover.
        facts_are_maps();
        match self.matches.put_line(fixture, locked, player, line) {
            Ok(()) => Ok(()),
            Err(Refused::Memory) => Err(Memory),
            Err(Refused::Rule(_)) => unreachable!(),
        }
    }

    pub(crate) fn drop_line(&mut self, number: u32, player: PlayerId)
        requires there { has_fixture self.old number ≡ true }
        ensures { self.new
            ≡ record self.old { matches = drop_line self.old.matches number player } }
    {
        let fixture = self.the_fixture(number);
        // The law that no fixture and no player has two lines, for the prover.
        facts_are_maps();
        self.matches.drop_line(fixture, player);
    }

    pub(crate) fn set_finished(&mut self, number: u32, finished: bool) -> Result<(), Memory>
        requires there { has_fixture self.old number ≡ true }
        requires unbroken { not_locked number (is_in_locked self.old number) ≡ None }
        ensures ok { OnOk result
            (self.new
            ≡ record self.old { matches = set_finished self.old.matches number finished }) }
        ensures err { OnErr result (self.new ≡ self.old) }
    {
        let fixture = self.the_fixture(number);
        let locked = self.is_in_locked(fixture);
        // The law that no fixture and no player has two lines, for the prover.
        facts_are_maps();
        match self.matches.set_finished(fixture, locked, finished) {
            Ok(()) => Ok(()),
            Err(Refused::Memory) => Err(Memory),
            Err(Refused::Rule(_)) => unreachable!(),
        }
    }
}
