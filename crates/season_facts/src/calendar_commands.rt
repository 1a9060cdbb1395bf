// The commands that change the calendar. Each was judged before.
ghost use Rattle.std.specs.Prelude.{◌≡◌, None, OnOk, OnErr, true};
ghost use Rattle.rule_book.specs.Calendar.{with_deadline, with_fixture, with_move, with_opponents};
ghost use Rattle.rule_book.specs.CalendarCalls.{deadline_refusal, fixture_refusal, move_refusal};
ghost use Rattle.rule_book.specs.MatchFacts.{has_facts};
ghost use Rattle.season_book.specs.Commands.{has_fixture, has_gameweek, has_place};
ghost use Rattle.season_book.specs.Verdict.{locked_at};

use crate::Season;
use fpl_base::{ClubId, Gw, Memory, Moment, Refused};
use rule_book::Fixture;

impl Season {
    /// Locks the gameweeks whose deadlines have passed at this moment, and opens none.
    pub fn pass(&mut self, now: Moment)
        ensures { self.new ≡ locked_at now self.old }
    {
        self.calendar.pass(now);
    }

    pub(crate) fn set_deadline(&mut self, now: Moment, gameweek: Gw, deadline: Moment)
        requires there { has_gameweek self.old gameweek ≡ true }
        requires unbroken { deadline_refusal self.old.calendar gameweek deadline now ≡ None }
        ensures { self.new
            ≡ record self.old { calendar = with_deadline self.old.calendar gameweek deadline } }
    {
        match self.calendar.set_deadline(gameweek, deadline, now) {
            Ok(()) => {}
            Err(_) => unreachable!(),
        }
    }

    pub(crate) fn add_fixture(&mut self, fixture: Fixture) -> Result<(), Memory>
        requires there { has_place self.old fixture.gw ≡ true }
        requires unbroken { fixture_refusal self.old.calendar fixture ≡ None }
        ensures ok { OnOk result
            (self.new ≡ record self.old { calendar = with_fixture self.old.calendar fixture }) }
        ensures err { OnErr result (self.new ≡ self.old) }
    {
        // For the prover, which learns by it that the id is one.
        let _ = fixture.id.get();
        match self.calendar.add_fixture(fixture) {
            Ok(()) => Ok(()),
            Err(Refused::Memory) => Err(Memory),
            Err(Refused::Rule(_)) => unreachable!(),
        }
    }

    pub(crate) fn move_fixture(&mut self, number: u32, gameweek: Option<Gw>, kickoff: Moment)
        requires there { has_fixture self.old number ≡ true }
        requires place { has_place self.old gameweek ≡ true }
        requires unbroken { move_refusal self.old.calendar number gameweek kickoff
            (has_facts self.old.matches number) ≡ None }
        ensures { self.new
            ≡ record self.old { calendar = with_move self.old.calendar number gameweek kickoff } }
    {
        let fixture = self.the_fixture(number);
        let has_facts = self.matches.has_facts(fixture);
        match self
            .calendar
            .move_fixture(fixture, gameweek, kickoff, has_facts)
        {
            Ok(()) => {}
            Err(_) => unreachable!(),
        }
    }

    pub(crate) fn set_opponents(&mut self, number: u32, home: ClubId, away: ClubId)
        requires there { has_fixture self.old number ≡ true }
        ensures { self.new
            ≡ record self.old { calendar = with_opponents self.old.calendar number home away } }
    {
        let fixture = self.the_fixture(number);
        self.calendar.set_opponents(fixture, home, away);
    }
}
