// The parts of a season, of which records tell one after the other.
ghost use Rattle.std.specs.Prelude.{◌≡◌, ◌≤◌, ◌-◌, ◌∷◌, [], IfOk, IfSome, None, OnOk, Some, length, slice_get, true};
ghost use Rattle.rule_book.specs.ById.{AreSorted, placed_at};
ghost use Rattle.rule_book.specs.Calendar.{deadlines_order, with_fixture};
ghost use Rattle.rule_book.specs.CalendarCalls.{fixture_refusal};
ghost use Rattle.rule_book.specs.MatchCalls.{line_refusal, put_line, set_finished};
ghost use Rattle.rule_book.specs.Players.{player_refusal, with_player};
ghost use Rattle.season_records.specs.ItemReading.{item_of};
ghost use Rattle.season_book.specs.Commands.{new_season};
ghost use Rattle.season_facts.specs.Kept.{AreFacts};
ghost use Rattle.season_restoring.specs.Restored.{Fits, FitsSpelled, with_item, with_locked, with_row};

use fpl_base::{ClubId, FixtureId, Gw, Memory, Moment, Name, PlayerId, Profile, Refused, Tenths};
use match_facts::MatchFacts;
use player_market::Players;
use rule_book::{Fixture, Line, Player};
use season_book::{Clubs, Moments, SharedClubs};
use season_calendar::Calendar;
use season_facts::Season;
use season_records::Item;
use std::alloc::Global;
use std::collections::BTreeMap;
use std::marker::Model;
use stored_records::Kept;

// The last kind of a record that tells of the facts: a line.
const LAST_KIND: u8 = 5;

/// The parts of a season, with what some of its records tell. A contract sees them as facts.
#[derive(Drop)]
pub struct Parts {
    profile: Profile,
    calendar: Calendar,
    clubs: BTreeMap<ClubId, Name>,
    players: Players,
    matches: MatchFacts,
}

impl Model for Parts {
    ghost use Rattle.season_book.specs.Book.{Facts};
    ghost use Rattle.rule_book.specs.ById.{AreSorted};

    ghost Value = { Facts };

    ghost view = { λ s.
        record {
          profile = s.profile;
          calendar = s.calendar;
          clubs = s.clubs.entries;
          players = s.players;
          matches = s.matches;
        } };

    ghost invariant = { λ s. AreSorted s.clubs.entries };
}

impl Parts {
    /// The season of these rules and deadlines, with the last gameweek of its first half, of which nothing else is told.
    pub fn begin(
        alloc: Global,
        profile: Profile,
        deadlines: &Moments,
        split: u8,
    ) -> Result<Parts, Memory>
        requires has_gameweeks { 1 ≤ length deadlines.now }
        requires at_most_38 { length deadlines.now ≤ 38 }
        requires split_within { split ≤ length deadlines.now }
        requires rise { deadlines_order deadlines.now ≡ None }
        ensures { IfOk result (λ parts. parts ≡ new_season profile deadlines.now split []) }
    {
        let calendar = match Calendar::new(alloc, deadlines.as_slice(), split) {
            Ok(calendar) => calendar,
            Err(Refused::Memory) => return Err(Memory),
            Err(Refused::Rule(_)) => unreachable!(),
        };
        Ok(Parts {
            profile,
            calendar,
            clubs: BTreeMap::new(alloc),
            players: Players::new(alloc),
            matches: MatchFacts::new(alloc),
        })
    }

    /// Takes what a record tells, where it tells of these parts.
    pub fn take_row(&mut self, row: &Kept) -> Result<(), Memory>
        requires { FitsSpelled self.old (item_of row.now.0 row.now.1) }
        ensures { OnOk result (self.new ≡ with_row self.old row.now) }
    {
        if row.key().kind > LAST_KIND {
            return Ok(());
        }
        match row.item() {
            Some(item) => self.take(item),
            None => Ok(()),
        }
    }

    // Takes what an item tells.
    fn take(&mut self, item: &Item) -> Result<(), Memory>
        requires { Fits self.old item.now }
        ensures { OnOk result (self.new ≡ with_item self.old item.now) }
    {
        match item {
            Item::Club { club, name } => self.take_club(*club, name.copy()?),
            Item::Player {
                player,
                position,
                club,
                price,
                gone,
                name,
            } => self.take_player(Player {
                id: *player,
                name: name.copy()?,
                position: *position,
                club: *club,
                price: Tenths::new(u32::from(*price)).unwrap(),
                gone: *gone,
            }),
            Item::Fixture {
                fixture,
                home,
                away,
                gameweek,
                kickoff,
                finished,
            } => self.take_fixture(
                Fixture {
                    id: *fixture,
                    home: *home,
                    away: *away,
                    gw: *gameweek,
                    kickoff: *kickoff,
                },
                *finished,
            ),
            Item::Line {
                fixture,
                player,
                line,
            } => self.take_line(*fixture, *player, line),
            _ => Ok(()),
        }
    }

    fn take_club(&mut self, club: ClubId, name: Name) -> Result<(), Memory>
        ensures { OnOk result
            (self.new
            ≡ record self.old { clubs = placed_at self.old.clubs club ((club, name) ∷ []) }) }
    {
        self.clubs.insert(club, name)?;
        Ok(())
    }

    fn take_player(&mut self, player: Player) -> Result<(), Memory>
        requires { player_refusal self.old.players player ≡ None }
        ensures { OnOk result
            (self.new ≡ record self.old { players = with_player self.old.players player }) }
    {
        match self.players.add(player) {
            Ok(()) => Ok(()),
            Err(Refused::Memory) => Err(Memory),
            Err(Refused::Rule(_)) => unreachable!(),
        }
    }

    // A fixture, and the mark that it is finished, which only one in a locked gameweek has.
    fn take_fixture(&mut self, fixture: Fixture, finished: bool) -> Result<(), Memory>
        requires in_season { IfSome fixture.gw (λ g. g ≤ length self.old.calendar.deadlines) }
        requires unbroken { fixture_refusal self.old.calendar fixture ≡ None }
        ensures { OnOk result
            (self.new
            ≡ record self.old {
              calendar = with_fixture self.old.calendar fixture;
              matches = set_finished self.old.matches fixture.id finished;
            }) }
    {
        let id = fixture.id;
        match self.calendar.add_fixture(fixture) {
            Ok(()) => {}
            Err(Refused::Memory) => return Err(Memory),
            Err(Refused::Rule(_)) => unreachable!(),
        }
        match self.matches.set_finished(id, true, finished) {
            Ok(()) => Ok(()),
            Err(Refused::Memory) => Err(Memory),
            Err(Refused::Rule(_)) => unreachable!(),
        }
    }

    // A line, which stands in a locked gameweek.
    fn take_line(&mut self, fixture: FixtureId, player: PlayerId, line: &Line) -> Result<(), Memory>
        requires { line_refusal self.old.matches fixture true player line.now ≡ None }
        ensures { OnOk result
            (self.new
            ≡ record self.old { matches = put_line self.old.matches fixture player line.now }) }
    {
        match self.matches.put_line(fixture, true, player, line) {
            Ok(()) => Ok(()),
            Err(Refused::Memory) => Err(Memory),
            Err(Refused::Rule(_)) => unreachable!(),
        }
    }

    /// The season of these parts, with so many gameweeks locked.
    pub fn into_season(self, alloc: Global, locked: u8) -> Result<Season, Memory>
        requires none_locked { self.calendar.locked ≡ 0 }
        requires locked_within { locked ≤ length self.calendar.deadlines }
        requires facts { AreFacts (with_locked self locked) }
        ensures { IfOk result (λ season. season ≡ with_locked self locked) }
    {
        let Parts {
            profile,
            mut calendar,
            clubs,
            players,
            matches,
        } = self;
        lock(&mut calendar, locked);
        let clubs = SharedClubs::of(alloc, listed(alloc, clubs)?)?;
        Ok(Season::of_parts(profile, calendar, clubs, players, matches))
    }
}

// Locks so many gameweeks, where none is locked: those whose deadlines are not after that of the last of them.
fn lock(calendar: &mut Calendar, locked: u8)
    requires none_locked { calendar.old.locked ≡ 0 }
    requires locked_within { locked ≤ length calendar.old.deadlines }
    ensures { calendar.new ≡ record calendar.old { locked = locked } }
{
    // For the prover, which learns by it that the deadlines rise.
    let _ = calendar.locked();
    if locked > 0 {
        let last = deadline_at(calendar, locked);
        calendar.pass(last);
    }
}

// The deadline of the gameweek of a number.
fn deadline_at(calendar: &Calendar, number: u8) -> Moment
    requires from_1 { 1 ≤ number }
    requires there { number ≤ length calendar.now.deadlines }
    ensures { slice_get calendar.now.deadlines (number - 1) ≡ Some result }
{
    // For the prover, which learns by it that there are at most 38 gameweeks.
    let _ = calendar.gameweeks();
    let Some(gameweek) = Gw::new(number) else {
        unreachable!();
    };
    match calendar.deadline(gameweek) {
        Some(deadline) => deadline,
        None => unreachable!(),
    }
}

// The clubs of a map, in its order.
fn listed(alloc: Global, by_id: BTreeMap<ClubId, Name>) -> Result<Clubs, Memory>
    ensures { IfOk result (λ clubs. clubs ≡ by_id.entries) }
{
    let mut clubs = Clubs::new(alloc);
    'clubs: for (club, name) in by_id {
        clubs.push((club, name))?;
    }
    Ok(clubs)
}
