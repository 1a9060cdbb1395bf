// What holds of each season.
ghost use Rattle.std.specs.Prelude.{◌≡◌, ℕ, Some, is_some, true};
ghost use Rattle.rule_book.specs.declared.line.Line.{Line};
ghost use Rattle.rule_book.specs.Calendar.{IsCalendar};
ghost use Rattle.rule_book.specs.Figures.{IsLine};
ghost use Rattle.rule_book.specs.MatchFacts.{line_of};
ghost use Rattle.rule_book.specs.Players.{player_of};

use crate::Season;

impl Season {
    /// A law: the calendar is lawful, and each line is one that a player who is there can have.
    pub fn keeps_facts(&self)
        ensures calendar { IsCalendar self.now.calendar }
        ensures ranges { (f p : ℕ) (line : Line) → line_of self.now.matches f p ≡ Some line
            → IsLine line }
        ensures there { (f p : ℕ) → is_some (line_of self.now.matches f p) ≡ true
            → is_some (player_of self.now.players p) ≡ true }
    {
        // For the prover, which learns by it that the calendar is lawful.
        let _ = self.calendar.gameweeks();
    }
}
