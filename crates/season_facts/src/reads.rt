// What is read of a season.
ghost use Rattle.std.specs.Prelude.{◌≡◌, ◌+◌, All, IfOk, IfSome, length, option_copied};
ghost use Rattle.std.specs.List.{zip};
ghost use Rattle.rule_book.specs.Calendar.{fixture_of};
ghost use Rattle.rule_book.specs.Figures.{IsLine};
ghost use Rattle.rule_book.specs.MatchFacts.{line_of, lines_of, is_finished};
ghost use Rattle.rule_book.specs.Players.{player_of};
ghost use Rattle.rule_book.specs.Uses.{has_lines};

use crate::Season;
use fpl_base::{FixtureId, Memory, PlayerId, Profile, ReadCount};
use match_facts::MatchFacts;
use player_market::Players;
use rule_book::{Fixture, Line, Player};
use season_book::SharedClubs;
use season_calendar::Calendar;
use std::sync::ledger::Ledger;

impl Season {
    /// By which rules the season is played.
    pub fn profile(&self) -> Profile
        ensures { result ≡ self.now.profile }
    {
        self.profile
    }

    /// Its calendar.
    pub fn calendar(&self) -> &Calendar
        ensures { result.now ≡ self.now.calendar }
    {
        &self.calendar
    }

    /// Its players.
    pub fn players(&self) -> &Players
        ensures { result.now ≡ self.now.players }
    {
        &self.players
    }

    /// The lines of its matches, and which are finished.
    pub fn matches(&self) -> &MatchFacts
        ensures { result.now ≡ self.now.matches }
    {
        &self.matches
    }

    /// Its clubs, by ascending id. They are shared, and no name is copied.
    pub fn clubs(&self) -> Result<SharedClubs, Memory>
        ensures { IfOk result (λ clubs. clubs ≡ self.now.clubs) }
    {
        self.clubs.share()
    }

    /// The player of this number, if he is there.
    pub fn player(&self, number: u32) -> Option<&Player>
        ensures { option_copied result ≡ player_of self.now.players number }
    {
        match PlayerId::new(number) {
            Some(id) => self.players.get(id),
            None => None,
        }
    }

    /// Whether a player has a line in a fixture.
    pub fn has_lines(&self, player: PlayerId) -> bool
        ensures { result ≡ has_lines self.now.matches player }
    {
        let matches = &self.matches;
        matches
            .fixtures()
            .iter()
            .any(|fixture| matches.has_line(*fixture, player))
    }

    /// The fixture of this number, if it is there.
    pub fn fixture(&self, number: u32) -> Option<Fixture>
        ensures { result ≡ fixture_of self.now.calendar number }
    {
        match FixtureId::new(number) {
            Some(id) => self.calendar.fixture(id),
            None => None,
        }
    }

    /// Whether a fixture is finished.
    pub fn is_finished(&self, fixture: FixtureId) -> bool
        ensures { result ≡ is_finished self.now.matches fixture }
    {
        self.matches.finished(fixture)
    }

    /// A player's line in a fixture, whose figures are in their ranges. It is one counted read.
    pub fn line<L: Ledger>(
        &self,
        fixture: FixtureId,
        player: PlayerId,
        steps: &mut ReadCount<L>,
    ) -> Option<&Line>
        ensures line { option_copied result ≡ line_of self.now.matches fixture player }
        ensures in_range { IfSome result (λ line. IsLine line.now) }
        ensures counted { steps.new ≡ steps.old + 1 }
    {
        self.matches.line(fixture, player, steps)
    }

    /// The players who have a line in a fixture, ascending, and beside them the line of each, whose figures are in their
    /// ranges. Each line is one counted read.
    pub fn rows<L: Ledger>(
        &self,
        fixture: FixtureId,
        steps: &mut ReadCount<L>,
    ) -> (&[PlayerId], &[Line])
        ensures rows { zip result.0.now result.1.now ≡ lines_of self.now.matches fixture }
        ensures paired { length result.1.now ≡ length result.0.now }
        ensures in_range { All IsLine result.1.now }
        ensures counted { steps.new ≡ steps.old + length result.0.now }
    {
        self.matches.rows(fixture, steps)
    }
}
