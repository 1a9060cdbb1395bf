// The rounds of the head-to-head leagues in the books.
ghost use Rattle.std.specs.Prelude.{◌≡◌, ◌<◌, ◌≤◌, ℕ, IfSome, length};
ghost use Rattle.rule_book.specs.LeagueRows.{place_of};
ghost use Rattle.rule_book.specs.declared.pairing.Opponent.{Opponent};
ghost use Rattle.season_nodes.specs.BookFacts.{facts_of};
ghost use Rattle.season_nodes.specs.Rounds.{has_average, met, order_in, start_in};
ghost use Rattle.season_nodes.specs.Season.{has_round, is_live, is_lower, lower_in, met_in, opponent_in};
ghost use Rattle.season_nodes.specs.declared.nodes.Node.{Node};

use crate::books::Books;
use fpl_base::{EntryId, Gw, LeagueId};
use leagues_and_cups::{opponent, opponent_is_the_one};
use rule_book::Opponent;

impl Books<'_> {
    /// The order in which the league of a number was drawn: its members by place. It is empty before the draw, and where
    /// there is no such league.
    pub fn order(&self, league: LeagueId) -> &[EntryId]
        ensures value { result.now ≡ order_in self.now.leagues.now league }
        ensures few { length result.now ≤ 64 }
        ensures two { 0 < length result.now → 2 ≤ length result.now }
    {
        match self.leagues.get(league) {
            Some(league) => league.order(),
            None => &[],
        }
    }

    /// The place of an entry in the order of a league, counted from 0; `None` where it has none.
    pub fn place(&self, league: LeagueId, entry: EntryId) -> Option<usize>
        ensures value { result ≡ place_of (order_in self.now.leagues.now league) entry }
        ensures within { IfSome result
            (λ place. place < length (order_in self.now.leagues.now league)) }
    {
        match self.leagues.get(league) {
            Some(league) => league.place(entry),
            None => None,
        }
    }

    /// The number of the gameweek with which a league starts; 0 where there is no such league.
    pub fn start(&self, league: LeagueId) -> u8
        ensures value { result ≡ start_in self.now.leagues.now league }
        ensures there { 0 < length (order_in self.now.leagues.now league) → 1 ≤ result }
    {
        match self.leagues.get(league) {
            Some(league) => league.start().get(),
            None => 0,
        }
    }

    /// Whether a league has a round in a gameweek: it is locked, and the league starts with it or with one before it.
    pub fn has_round(&self, league: LeagueId, gameweek: Gw) -> bool
        ensures { result ≡ has_round (facts_of self.now) league gameweek }
    {
        self.start(league) <= gameweek.get() && gameweek.get() <= self.calendar.locked()
    }

    /// Whether the Average plays in a league: an odd number of members stand in its order.
    pub fn has_average(&self, league: LeagueId) -> bool
        ensures { result ≡ has_average (length (order_in self.now.leagues.now league)) }
    {
        self.order(league).len() % 2 == 1
    }

    /// Whom a place of the order of a league meets in a gameweek.
    pub fn opponent(&self, league: LeagueId, gameweek: Gw, place: usize) -> Opponent
        requires { place < length (order_in self.now.leagues.now league) }
        ensures value { result ≡ opponent_in (facts_of self.now) league gameweek place }
        ensures within { (j : ℕ) → result ≡ Opponent.Place j
            → j < length (order_in self.now.leagues.now league) }
    {
        // The law by which it meets one opponent, for the prover.
        opponent_is_the_one();
        let round = gameweek.get().saturating_sub(self.start(league));
        opponent(self.order(league).len(), u32::from(round), place)
    }

    // The place that a place of the order of a league meets in a gameweek; the Average's is behind the members.
    fn met(&self, league: LeagueId, gameweek: Gw, place: usize) -> usize
        requires { place < length (order_in self.now.leagues.now league) }
        ensures { result ≡ met_in (facts_of self.now) league gameweek place }
    {
        let round = gameweek.get().saturating_sub(self.start(league));
        met(self.order(league).len(), round, place)
    }

    /// The lower one of the two, by which their match is named.
    pub fn lower(&self, league: LeagueId, gameweek: Gw, place: usize) -> u8
        requires { place < length (order_in self.now.leagues.now league) }
        ensures { result ≡ lower_in (facts_of self.now) league gameweek place }
    {
        // That a league has few members, for the prover.
        let _few = self.order(league);
        place.min(self.met(league, gameweek, place)) as u8
    }

    /// Whether a place of the order of a league is the lower one of its match in a gameweek.
    pub fn is_lower(&self, league: LeagueId, gameweek: Gw, place: usize) -> bool
        ensures { result ≡ is_lower (facts_of self.now) league gameweek place }
    {
        place < self.order(league).len() && place < self.met(league, gameweek, place)
    }

    // Whether the Average of a league plays in a gameweek.
    pub(crate) fn has_average_in(&self, league: LeagueId, gameweek: Gw) -> bool
        ensures { result ≡ is_live (facts_of self.now) (Node.Average league gameweek) }
    {
        self.has_round(league, gameweek) && self.has_average(league)
    }

    // Whether a place is the lower one of a match of a league in a gameweek.
    pub(crate) fn has_match(&self, league: LeagueId, gameweek: Gw, place: u8) -> bool
        ensures { result ≡ is_live (facts_of self.now) (Node.Match league gameweek place) }
    {
        self.has_round(league, gameweek) && self.is_lower(league, gameweek, usize::from(place))
    }

    // Whether an entry has a row of a head-to-head league.
    pub(crate) fn has_row(&self, league: LeagueId, entry: EntryId) -> bool
        ensures { result ≡ is_live (facts_of self.now) (Node.HeadRow league entry) }
    {
        self.place(league, entry).is_some()
    }
}

/// The place that a place meets in a round, counted from 0, of so many members; the Average's is behind them.
pub fn met(members: usize, round: u8, place: usize) -> usize
    requires some { 2 ≤ members }
    requires few { members ≤ 64 }
    requires within { place < members }
    ensures { result ≡ met members round place }
{
    // The law by which it meets one opponent, for the prover.
    opponent_is_the_one();
    match opponent(members, u32::from(round), place) {
        Opponent::Place(other) => other,
        Opponent::Average => members,
    }
}
