// What refuses a command on a season.
ghost use Rattle.std.specs.Prelude.{◌≤◌, ◌+◌, ℕ, List};
ghost use Rattle.fpl_base.specs.declared.kinds.Position.{Position};
ghost use Rattle.season_book.specs.Doing.{IsWeighed};
ghost use Rattle.season_book.specs.declared.command.Command.TheVariants as command;
ghost use Rattle.season_facts.specs.Judged.{CountsJudged};

use crate::Season;
use fpl_base::{ClubId, Gw, Moment, PlayerId, ReadCount, Rule, Tenths};
use match_facts::{judge_lock, judge_sheet};
use player_market::judge_price;
use rule_book::{Fixture, Line};
use season_book::{Answer, Command};
use std::sync::ledger::Ledger;

impl Season {
    /// The answer that refuses a command at a moment; `Ok` where nothing does. It takes no memory. The line that a
    /// command takes away is one counted read; nothing else is.
    pub fn judge<L: Ledger>(
        &self,
        now: Moment,
        command: &Command,
        steps: &mut ReadCount<L>,
    ) -> Result<(), Answer>
        ensures weighed { IsWeighed self.now now command.now result }
        ensures counted { steps.new ≤ steps.old + 1 }
        ensures exact { CountsJudged command.now result steps.old steps.new }
    {
        match command {
            Command::Season { .. } => Err(Answer::Rule(Rule::SeasonThere)),
            Command::Deadline { gameweek, deadline } => {
                self.judge_deadline(now, *gameweek, *deadline)
            }
            Command::Player {
                id,
                club,
                price,
                ..
            } => self.judge_player(now, *id, *club, *price),
            Command::Price { player, price } => self.judge_price(now, *player, *price),
            Command::Club { player, club } => self.judge_club(now, *player, *club),
            Command::Gone { player, gone } => self.judge_gone(now, *player, *gone),
            Command::Fixture {
                id,
                home,
                away,
                gameweek,
                kickoff,
            } => self.judge_fixture(
                now,
                &Fixture {
                    id: *id,
                    home: *home,
                    away: *away,
                    gw: *gameweek,
                    kickoff: *kickoff,
                },
            ),
            Command::Move {
                fixture,
                gameweek,
                kickoff,
            } => self.judge_move(now, *fixture, gameweek, *kickoff),
            Command::AmendFixture {
                fixture,
                home,
                away,
            } => self.judge_amend_fixture(now, *fixture, *home, *away),
            Command::Sheet {
                fixture,
                lines,
                finished,
            } => self.judge_sheet(now, *fixture, lines.as_slice(), *finished),
            Command::Line {
                fixture,
                player,
                line,
            } => self.judge_line(now, *fixture, *player, line),
            Command::Drop { fixture, player } => self.judge_drop(now, *fixture, *player, steps),
            Command::Finished { fixture, finished } => {
                self.judge_finished(now, *fixture, *finished)
            }
            // No route orders these yet.
            Command::Key { .. }
            | Command::Rekey { .. }
            | Command::AmendPlayer { .. }
            | Command::Squad { .. }
            | Command::Transfers { .. }
            | Command::Lineup { .. }
            | Command::Chip { .. }
            | Command::CancelChip
            | Command::League { .. }
            | Command::Join { .. }
            | Command::Draw { .. }
            | Command::Cup { .. } => Err(Answer::Unknown),
        }
    }

    fn judge_deadline(&self, now: Moment, gameweek: Gw, deadline: Moment) -> Result<(), Answer>
        ensures { IsWeighed self.now now (command.Deadline gameweek deadline) result }
    {
        if !self.has_gameweek(gameweek) {
            return Err(Answer::Unknown);
        }
        match self.calendar.judge_deadline(gameweek, deadline, now) {
            Ok(()) => Ok(()),
            Err(rule) => Err(Answer::Rule(rule)),
        }
    }

    fn judge_player(
        &self,
        now: Moment,
        id: PlayerId,
        club: ClubId,
        price: u16,
    ) -> Result<(), Answer>
        ensures { (name : List ℕ) (position : Position)
            → IsWeighed self.now now (command.Player id name position club price) result }
    {
        if !self.has_club(club) {
            return Err(Answer::Unknown);
        }
        let tenths = Tenths::new(u32::from(price)).unwrap();
        match self.players.judge_new(id, tenths) {
            Ok(()) => Ok(()),
            Err(rule) => Err(Answer::Rule(rule)),
        }
    }

    fn judge_price(&self, now: Moment, player: PlayerId, price: u16) -> Result<(), Answer>
        ensures { IsWeighed self.now now (command.Price player price) result }
    {
        if !self.has_player(player) {
            return Err(Answer::Unknown);
        }
        let tenths = Tenths::new(u32::from(price)).unwrap();
        match judge_price(tenths) {
            Ok(()) => Ok(()),
            Err(rule) => Err(Answer::Rule(rule)),
        }
    }

    fn judge_club(&self, now: Moment, player: PlayerId, club: ClubId) -> Result<(), Answer>
        ensures { IsWeighed self.now now (command.Club player club) result }
    {
        if self.has_player(player) && self.has_club(club) {
            Ok(())
        } else {
            Err(Answer::Unknown)
        }
    }

    fn judge_gone(&self, now: Moment, player: PlayerId, gone: bool) -> Result<(), Answer>
        ensures { IsWeighed self.now now (command.Gone player gone) result }
    {
        if self.has_player(player) {
            Ok(())
        } else {
            Err(Answer::Unknown)
        }
    }

    fn judge_fixture(&self, now: Moment, fixture: &Fixture) -> Result<(), Answer>
        ensures { IsWeighed self.now now
            (command.Fixture fixture.now.id fixture.now.home fixture.now.away fixture.now.gw
            fixture.now.kickoff) result }
    {
        if !self.has_sides(fixture) {
            return Err(Answer::Unknown);
        }
        match self.calendar.judge_fixture(fixture) {
            Ok(()) => Ok(()),
            Err(rule) => Err(Answer::Rule(rule)),
        }
    }

    fn judge_move(
        &self,
        now: Moment,
        number: u32,
        gameweek: &Option<Gw>,
        kickoff: Moment,
    ) -> Result<(), Answer>
        ensures { IsWeighed self.now now (command.Move number gameweek.now kickoff) result }
    {
        let Some(fixture) = self.fixture_there(number) else {
            return Err(Answer::Unknown);
        };
        if !self.has_place(gameweek) {
            return Err(Answer::Unknown);
        }
        let has_facts = self.matches.has_facts(fixture);
        match self
            .calendar
            .judge_move(fixture, gameweek, kickoff, has_facts)
        {
            Ok(()) => Ok(()),
            Err(rule) => Err(Answer::Rule(rule)),
        }
    }

    fn judge_amend_fixture(
        &self,
        now: Moment,
        number: u32,
        home: ClubId,
        away: ClubId,
    ) -> Result<(), Answer>
        ensures { IsWeighed self.now now (command.AmendFixture number home away) result }
    {
        let Some(fixture) = self.fixture_there(number) else {
            return Err(Answer::Unknown);
        };
        if !self.has_club(home) || !self.has_club(away) {
            return Err(Answer::Unknown);
        }
        if self.matches.has_facts(fixture) {
            return Err(Answer::Rule(Rule::FactsThere { fixture }));
        }
        Ok(())
    }

    fn judge_sheet(
        &self,
        now: Moment,
        number: u32,
        lines: &[(PlayerId, Line)],
        finished: bool,
    ) -> Result<(), Answer>
        ensures { IsWeighed self.now now (command.Sheet number lines.now finished) result }
    {
        let Some(fixture) = self.fixture_there(number) else {
            return Err(Answer::Unknown);
        };
        if !self.has_players(lines) {
            return Err(Answer::Unknown);
        }
        let locked = self.is_in_locked(fixture);
        match judge_sheet(fixture, locked, lines) {
            Ok(()) => Ok(()),
            Err(rule) => Err(Answer::Rule(rule)),
        }
    }

    fn judge_line(
        &self,
        now: Moment,
        number: u32,
        player: PlayerId,
        line: &Line,
    ) -> Result<(), Answer>
        ensures { IsWeighed self.now now (command.Line number player line.now) result }
    {
        let Some(fixture) = self.fixture_there(number) else {
            return Err(Answer::Unknown);
        };
        if !self.has_player(player) {
            return Err(Answer::Unknown);
        }
        let locked = self.is_in_locked(fixture);
        match self.matches.judge_line(fixture, locked, player, line) {
            Ok(()) => Ok(()),
            Err(rule) => Err(Answer::Rule(rule)),
        }
    }

    fn judge_drop<L: Ledger>(
        &self,
        now: Moment,
        number: u32,
        player: PlayerId,
        steps: &mut ReadCount<L>,
    ) -> Result<(), Answer>
        ensures weighed { IsWeighed self.now now (command.Drop number player) result }
        ensures counted { steps.new ≤ steps.old + 1 }
        ensures exact { CountsJudged (command.Drop number player) result steps.old steps.new }
    {
        let Some(fixture) = self.fixture_there(number) else {
            return Err(Answer::Unknown);
        };
        match self.matches.line(fixture, player, steps) {
            Some(_) => Ok(()),
            None => Err(Answer::Unknown),
        }
    }

    fn judge_finished(&self, now: Moment, number: u32, finished: bool) -> Result<(), Answer>
        ensures { IsWeighed self.now now (command.Finished number finished) result }
    {
        let Some(fixture) = self.fixture_there(number) else {
            return Err(Answer::Unknown);
        };
        let locked = self.is_in_locked(fixture);
        match judge_lock(fixture, locked) {
            Ok(()) => Ok(()),
            Err(rule) => Err(Answer::Rule(rule)),
        }
    }
}
