use fpl_base::Profile;
use match_facts::MatchFacts;
use player_market::Players;
use season_book::SharedClubs;
use season_calendar::Calendar;
use std::marker::Model;

/// What the operator handed in on a season: by which rules it is played, its calendar, clubs, players and matches. A
/// contract sees it as the facts.
#[derive(Drop)]
pub struct Season {
    pub(crate) profile: Profile,
    pub(crate) calendar: Calendar,
    pub(crate) clubs: SharedClubs,
    pub(crate) players: Players,
    pub(crate) matches: MatchFacts,
}

impl Model for Season {
    ghost use Rattle.season_book.specs.Book.{Facts};
    ghost use Rattle.season_facts.specs.Kept.{AreFacts};

    ghost Value = { Facts };

    ghost view = { λ s.
        record {
          profile = s.profile;
          calendar = s.calendar;
          clubs = s.clubs;
          players = s.players;
          matches = s.matches;
        } };

    ghost invariant = { λ s. AreFacts
        (record {
          profile = s.profile;
          calendar = s.calendar;
          clubs = s.clubs;
          players = s.players;
          matches = s.matches;
        }) };
}
