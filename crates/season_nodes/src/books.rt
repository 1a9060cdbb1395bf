// What the operator and the managers handed in, as it now stands.
ghost use Rattle.std.specs.Prelude.{◌≡◌, ◌+◌, ◌==◌, false, nat_le, is_some, IfSome};
ghost use Rattle.std.specs.List.{flat_map, list_any};
ghost use Rattle.std.specs.Option.{option_map_or};
ghost use Rattle.season_ledger.specs.Rows.{is_begun_by, standing_at, team_in};
ghost use Rattle.rule_book.specs.LeagueCalls.{leagues_of};
ghost use Rattle.rule_book.specs.PlayerFigures.{position_in};
ghost use Rattle.season_nodes.specs.BookFacts.{facts_of};
ghost use Rattle.season_nodes.specs.Season.{classic_start, classic_starts, ended, has_begun, has_line, has_start, is_live, is_there, start_of_classic};
ghost use Rattle.season_nodes.specs.declared.nodes.Node.{Node};

use crate::nodes::Node;
use fpl_base::{EntryId, FixtureId, Gw, LeagueId, PlayerId, Position, Profile, ReadCount};
use leagues_and_cups::{Cups, League, LeagueKind, Leagues};
use manager_book::ManagerBook;
use match_facts::MatchFacts;
use player_market::Players;
use rule_book::Team;
use season_calendar::Calendar;
use season_ledger::Entry;
use std::sync::ledger::Ledger;

/// The books of a season, lent.
#[derive(Drop)]
pub struct Books<'a> {
    /// By which rules lines are scored.
    pub profile: Profile,
    /// Which gameweeks are locked, and where the fixtures stand.
    pub calendar: &'a Calendar,
    /// Who is there, and where each plays.
    pub players: &'a Players,
    /// The lines of the players in the fixtures, and which fixtures are finished.
    pub matches: &'a MatchFacts,
    /// The entries: when each began, its team in each gameweek, and what its transfers cost.
    pub managers: &'a ManagerBook,
    /// The leagues: who is in each, and with which gameweek it starts.
    pub leagues: &'a Leagues,
    /// The cups: with which gameweek each starts, and who stands in its slots.
    pub cups: &'a Cups,
}

impl Books<'_> {
    /// Whether a player has a line in a fixture.
    pub fn has_line(&self, player: PlayerId, fixture: FixtureId) -> bool
        ensures { result ≡ has_line (facts_of self.now) player fixture }
    {
        self.matches.has_line(fixture, player)
    }

    /// Where a player plays.
    pub fn position(&self, player: PlayerId) -> Position
        ensures { result ≡ position_in self.now.players.now player }
    {
        match self.players.get(player) {
            Some(player) => player.position,
            None => Position::Keeper,
        }
    }

    /// Whether a player is there.
    pub fn is_there(&self, player: PlayerId) -> bool
        ensures { result ≡ is_there (facts_of self.now) player }
    {
        self.players.get(player).is_some()
    }

    /// Whether each fixture that stands in a gameweek is finished.
    pub fn has_ended(&self, gameweek: Gw) -> bool
        ensures { result ≡ ended (facts_of self.now) gameweek }
    {
        let fixtures = self.calendar.standing(gameweek);
        fixtures
            .iter()
            .all(|fixture| self.matches.finished(*fixture))
    }

    /// An entry's team in a gameweek; `None` where it has not begun.
    pub fn team(&self, entry: EntryId, gameweek: Gw) -> Option<Team>
        ensures team { IfSome result (λ team. team ≡ (facts_of self.now).team entry gameweek) }
        ensures begun { is_some result ≡ has_begun (facts_of self.now) entry gameweek }
    {
        match self.managers.manager(entry) {
            Some(manager) => standing_team(&manager.season, gameweek),
            None => None,
        }
    }

    /// The same by a counted read.
    pub fn team_at<L: Ledger>(
        &self,
        entry: EntryId,
        gameweek: Gw,
        steps: &mut ReadCount<L>,
    ) -> Option<Team>
        ensures team { IfSome result (λ team. team ≡ (facts_of self.now).team entry gameweek) }
        ensures begun { is_some result ≡ has_begun (facts_of self.now) entry gameweek }
        ensures counted { steps.new ≡ steps.old + 1 }
    {
        steps.tick();
        self.team(entry, gameweek)
    }

    /// Whether a player has a gameweek.
    pub fn has_gameweek(&self, player: PlayerId, gameweek: Gw) -> bool
        ensures { result ≡ is_live (facts_of self.now) (Node.PlayerGw player gameweek) }
    {
        self.is_there(player) && gameweek.get() <= self.calendar.locked()
    }

    /// Whether an entry has begun in the gameweek of a number. In gameweek 0, where none is locked, nobody has.
    pub fn has_begun(&self, entry: EntryId, gameweek: u8) -> bool
        ensures { result ≡ has_begun (facts_of self.now) entry gameweek }
    {
        entry.get() <= self.managers.entries() && self.begins_by(entry, gameweek)
    }

    // Whether the first gameweek of an entry is that of a number or one before it.
    fn begins_by(&self, entry: EntryId, gameweek: u8) -> bool
        ensures { result
            ≡ option_map_or (λ first. nat_le first gameweek)
            ((facts_of self.now).first entry) false }
    {
        match self.managers.first(entry) {
            Some(first) => first.get() <= gameweek,
            None => false,
        }
    }

    /// The first gameweek of the classic league of a number; `None` of a head-to-head league, and where there is none.
    pub fn classic_start(&self, league: LeagueId) -> Option<Gw>
        ensures { result ≡ classic_start self.now.leagues.now league }
    {
        match self.leagues.get(league) {
            Some(league) => start_of_classic(league),
            None => None,
        }
    }

    // Whether the league of a number is a classic one that starts with a gameweek.
    fn starts_with(&self, league: LeagueId, start: Gw) -> bool
        ensures { result ≡ list_any (λ k. start == k) (classic_starts self.now.leagues.now league) }
    {
        match self.classic_start(league) {
            Some(gameweek) => start == gameweek,
            None => false,
        }
    }

    // Whether a classic league of an entry starts with a gameweek.
    fn has_league_from(&self, entry: EntryId, start: Gw) -> bool
        ensures { result
            ≡ list_any (λ k. start == k)
            (flat_map (classic_starts self.now.leagues.now)
            (leagues_of self.now.leagues.now entry)) }
    {
        for league in self.leagues.leagues_of(entry) {
            if self.starts_with(*league, start) {
                return true;
            }
        }
        false
    }

    // Whether a gameweek is the first, or that with which a classic league of an entry starts.
    fn has_start(&self, entry: EntryId, start: Gw) -> bool
        ensures { result ≡ has_start (facts_of self.now) entry start }
    {
        start.get() == 1 || self.has_league_from(entry, start)
    }

    // Whether an entry has a total from a gameweek on.
    fn has_total(&self, entry: EntryId, start: Gw) -> bool
        ensures { result ≡ is_live (facts_of self.now) (Node.Total entry start) }
    {
        let locked = self.calendar.locked();
        self.has_begun(entry, locked) && self.has_start(entry, start) && start.get() <= locked
    }

    /// Whether an entry has a gameweek.
    pub fn has_team(&self, entry: EntryId, gameweek: Gw) -> bool
        ensures { result ≡ is_live (facts_of self.now) (Node.TeamGw entry gameweek) }
    {
        self.has_begun(entry, gameweek.get()) && gameweek.get() <= self.calendar.locked()
    }

    /// Whether a node is live.
    pub fn is_live(&self, n: &Node) -> bool
        ensures { result ≡ is_live (facts_of self.now) n.now }
    {
        match *n {
            Node::Line(fixture, player) => self.has_line(player, fixture),
            Node::Bonus(fixture) => !self.matches.players_of(fixture).is_empty(),
            Node::PlayerGw(player, gameweek) => self.has_gameweek(player, gameweek),
            Node::TeamGw(entry, gameweek) => self.has_team(entry, gameweek),
            Node::Total(entry, start) => self.has_total(entry, start),
            Node::Average(league, gameweek) => self.has_average_in(league, gameweek),
            Node::Match(league, gameweek, place) => self.has_match(league, gameweek, place),
            Node::HeadRow(league, entry) => self.has_row(league, entry),
            Node::Tie(cup, round, place) => self.has_tie(cup, round, usize::from(place)),
        }
    }
}

// The first gameweek of a classic league; `None` of a head-to-head league.
fn start_of_classic(league: &League) -> Option<Gw>
    ensures { result ≡ start_of_classic league.now }
{
    match league.kind() {
        LeagueKind::Classic => Some(league.start()),
        LeagueKind::Head => None,
    }
}

// The team that stands in a gameweek of an entry's season.
fn standing_team(season: &Entry, gameweek: Gw) -> Option<Team>
    ensures rows { result ≡ team_in (standing_at season.now gameweek) }
    ensures begun { is_some result ≡ is_begun_by season.now gameweek }
{
    match season.standing(gameweek) {
        Some(standing) => Some(standing.team),
        None => None,
    }
}
