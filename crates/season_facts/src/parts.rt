// A season of parts that stand already.
ghost use Rattle.std.specs.Prelude.{◌≡◌};
ghost use Rattle.season_facts.specs.Kept.{AreFacts};

use crate::Season;
use fpl_base::Profile;
use match_facts::MatchFacts;
use player_market::Players;
use season_book::SharedClubs;
use season_calendar::Calendar;

impl Season {
    /// The season of these rules, this calendar, these clubs, players and matches, as they are told of a season that was
    /// kept. Whether they suit one another is for the caller to know; a season that begins anew comes of `begin`.
    pub fn of_parts(
        profile: Profile,
        calendar: Calendar,
        clubs: SharedClubs,
        players: Players,
        matches: MatchFacts,
    ) -> Season
        requires { AreFacts
            (record {
              profile = profile;
              calendar = calendar;
              clubs = clubs;
              players = players;
              matches = matches;
            }) }
        ensures { result
            ≡ record {
              profile = profile;
              calendar = calendar;
              clubs = clubs;
              players = players;
              matches = matches;
            } }
    {
        Season {
            profile,
            calendar,
            clubs,
            players,
            matches,
        }
    }
}
