// The season command.
ghost use Rattle.std.specs.Prelude.{◌≡◌, ◌≤◌, Some, length, IfOk};
ghost use Rattle.season_book.specs.Commands.{by_id, new_season};
ghost use Rattle.season_book.specs.Doing.{IsBegun};
ghost use Rattle.season_book.specs.Verdict.{begun};

use crate::Season;
use fpl_base::{ClubId, Memory, Name, Profile, Refused};
use match_facts::MatchFacts;
use player_market::Players;
use season_book::{Answer, Clubs, Moments, SharedClubs};
use season_calendar::Calendar;
use std::alloc::Global;
use std::collections::BTreeMap;

impl Season {
    /// The season of these rules and deadlines, these in their order, with the last gameweek of its first half and these
    /// clubs. Without players, fixtures and figures; no gameweek is locked.
    pub fn begin(
        alloc: Global,
        profile: Profile,
        deadlines: &Moments,
        split: u8,
        clubs: &Clubs,
    ) -> Result<Season, Answer>
        requires has_gameweeks { 1 ≤ length deadlines.now }
        requires at_most_38 { length deadlines.now ≤ 38 }
        requires split_within { split ≤ length deadlines.now }
        ensures { IsBegun (begun (Some (new_season profile deadlines.now split clubs.now))) result }
    {
        let calendar = match Calendar::new(alloc, deadlines.as_slice(), split) {
            Ok(calendar) => calendar,
            Err(Refused::Rule(rule)) => return Err(Answer::Rule(rule)),
            Err(Refused::Memory) => return Err(Answer::Memory),
        };
        let Ok(clubs) = shared_by_id(alloc, clubs.as_slice()) else {
            return Err(Answer::Memory);
        };
        Ok(Season {
            profile,
            calendar,
            clubs,
            players: Players::new(alloc),
            matches: MatchFacts::new(alloc),
        })
    }
}

// The clubs by ascending id, to be shared.
fn shared_by_id(alloc: Global, clubs: &[(ClubId, Name)]) -> Result<SharedClubs, Memory>
    ensures { IfOk result (λ shared. shared ≡ by_id clubs.now) }
{
    SharedClubs::of(alloc, clubs_by_id(alloc, clubs)?)
}

// The clubs by ascending id.
fn clubs_by_id(alloc: Global, clubs: &[(ClubId, Name)]) -> Result<Clubs, Memory>
    ensures { IfOk result (λ sorted. sorted ≡ by_id clubs.now) }
{
    let mut by_id = BTreeMap::new(alloc);
    'clubs: for (club, name) in clubs {
        by_id.insert(*club, name.copy()?)?;
    }
    listed(alloc, by_id)
}

// The clubs of a map, in its order.
fn listed(alloc: Global, by_id: BTreeMap<ClubId, Name>) -> Result<Clubs, Memory>
    ensures { IfOk result (λ clubs. clubs ≡ by_id.entries) }
{
    let mut clubs = Clubs::new(alloc);
    'clubs: for (club, name) in by_id {
        clubs.push((club, name))?;
    }
    Ok(clubs)
}
