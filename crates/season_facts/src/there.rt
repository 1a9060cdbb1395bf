// What is there.
ghost use Rattle.std.specs.Prelude.{◌≡◌, ◌&&◌, Some, None, MatchOption, is_some, false, true};
ghost use Rattle.std.specs.List.{list_all};
ghost use Rattle.season_book.specs.Commands.{has_club, has_player, has_fixture, has_gameweek, has_place, is_in_locked};

use crate::Season;
use fpl_base::{ClubId, FixtureId, Gw, PlayerId};
use rule_book::{Fixture, Line};

impl Season {
    pub(crate) fn has_club(&self, club: ClubId) -> bool
        ensures { result ≡ has_club self.now club }
    {
        self.clubs.as_slice().iter().any(|row| row.0 == club)
    }

    /// Whether a player is there.
    pub fn has_player(&self, player: PlayerId) -> bool
        ensures { result ≡ has_player self.now player }
    {
        self.players.get(player).is_some()
    }

    /// The id of the player of this number, if he is there.
    pub fn player_there(&self, number: u32) -> Option<PlayerId>
        ensures { MatchOption result (has_player self.now number ≡ false)
            (λ player. (player ≡ number) × (has_player self.now number ≡ true)) }
    {
        let players = &self.players;
        match PlayerId::new(number) {
            Some(player) if players.get(player).is_some() => Some(player),
            Some(_) => None,
            None => None,
        }
    }

    // Whether each player who has a line is there.
    pub(crate) fn has_players(&self, lines: &[(PlayerId, Line)]) -> bool
        ensures { result ≡ list_all (λ row. has_player self.now row.0) lines.now }
    {
        lines.iter().all(|row| self.has_player(row.0))
    }

    // The fixture of this number, if it is there.
    pub(crate) fn fixture_there(&self, number: u32) -> Option<FixtureId>
        ensures { MatchOption result (has_fixture self.now number ≡ false)
            (λ fixture. (fixture ≡ number) × (has_fixture self.now number ≡ true)) }
    {
        let calendar = &self.calendar;
        match FixtureId::new(number) {
            Some(fixture) if calendar.fixture(fixture).is_some() => Some(fixture),
            Some(_) => None,
            None => None,
        }
    }

    // The id of the fixture of this number, which is there.
    pub(crate) fn the_fixture(&self, number: u32) -> FixtureId
        requires { has_fixture self.now number ≡ true }
        ensures { result ≡ number }
    {
        match self.fixture_there(number) {
            Some(fixture) => fixture,
            None => unreachable!(),
        }
    }

    pub(crate) fn has_gameweek(&self, gameweek: Gw) -> bool
        ensures { result ≡ has_gameweek self.now gameweek }
    {
        gameweek.get() <= self.calendar.gameweeks()
    }

    // Whether a place is a gameweek of the season, or none.
    pub(crate) fn has_place(&self, place: &Option<Gw>) -> bool
        ensures { result ≡ has_place self.now place.now }
    {
        match place {
            Some(gameweek) => self.has_gameweek(*gameweek),
            None => true,
        }
    }

    // Whether a fixture's clubs and its gameweek are there.
    pub(crate) fn has_sides(&self, fixture: &Fixture) -> bool
        ensures { result
            ≡ (has_club self.now fixture.now.home
            && (has_club self.now fixture.now.away && has_place self.now fixture.now.gw)) }
    {
        self.has_club(fixture.home) && self.has_club(fixture.away) && self.has_place(&fixture.gw)
    }

    // Whether a fixture stands in a locked gameweek.
    pub(crate) fn is_in_locked(&self, fixture: FixtureId) -> bool
        ensures { result ≡ is_in_locked self.now fixture }
    {
        match self.calendar.stands_in(fixture) {
            Some(gameweek) => gameweek.get() <= self.calendar.locked(),
            None => false,
        }
    }
}
