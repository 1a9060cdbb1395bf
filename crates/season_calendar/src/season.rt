ghost use Rattle.std.specs.Prelude.{◌≡◌, ◌≢◌, ◌≤◌, ◌+◌, ◌-◌, ◌&&◌, ◌==◌, AllPairs, IfOk, IfErr, IfSome, IsSome, OnOk, OnErr, ◌<◌, Option, None, length, find, nat_le, slice_set};
ghost use Rattle.std.specs.List.{take_while};
ghost use Rattle.rule_book.specs.Refusals.{IsJudged, IsJudgedOrOut};

use crate::gameweek_lists::{GameweekLists, MOST_IN_A_GAMEWEEK};
use fpl_base::{ClubId, FixtureId, Gw, Memory, Moment, Refused, Rule};
use rule_book::Fixture;
use std::alloc::Global;
use std::marker::Model;

// As many fixtures has a season, at most.
const MOST_FIXTURES: usize = 380;

// As many seconds lie between a deadline and a kick-off of its gameweek, at least: 90 minutes.
const DEADLINE_BEFORE_KICKOFF: u64 = 5400;

/// The calendar of a season: the deadline of each gameweek, how many gameweeks are locked, and where each fixture
/// stands. Gameweeks lock in order and never unlock. At most 20 fixtures stand in a gameweek, and each of them kicks
/// off 90 minutes after its deadline or later. See "The calendar" in `docs/RULES.md`.
#[derive(Debug, Drop)]
pub struct Calendar {
    deadlines: Vec<Moment>,
    split: u8,
    locked: u8,
    fixtures: Vec<Fixture>,
    standing: GameweekLists,
}

impl Model for Calendar {
    ghost use Rattle.rule_book.specs.Calendar.{CalendarFacts};
    ghost use Rattle.season_calendar.specs.Kept.{IsKept};

    ghost Value = { CalendarFacts };

    ghost view = { λ a.
        record {
          deadlines = a.deadlines.items;
          split = a.split;
          locked = a.locked;
          fixtures = a.fixtures.items;
        } };

    ghost invariant = { λ a. IsKept
        (record {
          deadlines = a.deadlines.items;
          split = a.split;
          locked = a.locked;
          fixtures = a.fixtures.items;
        }) a.standing };
}

impl Calendar {
    ghost use Rattle.rule_book.specs.Calendar.{IsCalendar, new_calendar, deadlines_order, next_gameweek, deadline_of, fixture_of, is_locked_place, stands_in, standing, after_pass, with_deadline, with_fixture, with_move, with_opponents};
    ghost use Rattle.rule_book.specs.CalendarCalls.{deadline_refusal, place_refusal, fixture_refusal, move_refusal};

    /// The calendar of a season that has not begun: no gameweek is locked, and no fixture is there. The first `split`
    /// gameweeks are the season's first half. `DeadlineOrder` names the first gameweek whose deadline is not after
    /// that of the gameweek before.
    pub fn new(alloc: Global, deadlines: &[Moment], split: u8) -> Result<Self, Refused>
        requires has_gameweeks { 1 ≤ length deadlines.now }
        requires at_most_38 { length deadlines.now ≤ 38 }
        requires split_within { split ≤ length deadlines.now }
        ensures judged { IsJudgedOrOut (deadlines_order deadlines.now) result }
        ensures made { IfOk result (λ c. c ≡ new_calendar deadlines.now split) }
    {
        match first_out_of_order(deadlines) {
            Some(gameweek) => Err(Refused::Rule(Rule::DeadlineOrder { gameweek })),
            None => match Self::begun(alloc, deadlines, split) {
                Ok(calendar) => Ok(calendar),
                Err(Memory) => Err(Refused::Memory),
            },
        }
    }

    // The calendar of deadlines that rise.
    fn begun(alloc: Global, deadlines: &[Moment], split: u8) -> Result<Self, Memory>
        requires has_gameweeks { 1 ≤ length deadlines.now }
        requires at_most_38 { length deadlines.now ≤ 38 }
        requires split_within { split ≤ length deadlines.now }
        requires deadlines_rise { AllPairs (λ a b. a < b) deadlines.now }
        ensures { IfOk result (λ c. c ≡ new_calendar deadlines.now split) }
    {
        Ok(Calendar {
            deadlines: Vec::from_slice(alloc, deadlines)?,
            split,
            locked: 0,
            fixtures: Vec::new(alloc),
            standing: GameweekLists::new(alloc, deadlines.len())?,
        })
    }

    /// How many gameweeks the season has, from 1 to 38.
    pub fn gameweeks(&self) -> u8
        ensures value { result ≡ length self.now.deadlines }
        ensures lawful { IsCalendar self.now }
    {
        self.deadlines.len() as u8
    }

    /// The last gameweek of the season's first half; 0 where it has none.
    pub fn split(&self) -> u8
        ensures { result ≡ self.now.split }
    {
        self.split
    }

    /// How many gameweeks are locked.
    pub fn locked(&self) -> u8
        ensures value { result ≡ self.now.locked }
        ensures lawful { IsCalendar self.now }
    {
        self.locked
    }

    /// The first open gameweek; `None` where all are locked.
    pub fn next(&self) -> Option<Gw>
        ensures { result ≡ next_gameweek self.now }
    {
        if usize::from(self.locked) < self.deadlines.len() {
            Gw::new(self.locked + 1)
        } else {
            None
        }
    }

    /// The deadline of a gameweek; `None` where the season has no such gameweek.
    pub fn deadline(&self, g: Gw) -> Option<Moment>
        ensures { result ≡ deadline_of self.now g }
    {
        self.deadlines.get(usize::from(g.get() - 1)).copied()
    }

    /// The fixture of this id; `None` where it is not there.
    pub fn fixture(&self, f: FixtureId) -> Option<Fixture>
        ensures { result ≡ fixture_of self.now f }
    {
        match place_of(&self.fixtures, f) {
            Ok(at) => Some(self.fixtures[at]),
            Err(_) => None,
        }
    }

    /// The fixtures, by ascending id.
    pub fn fixtures(&self) -> &[Fixture]
        ensures { result.now ≡ self.now.fixtures }
    {
        self.fixtures.as_slice()
    }

    /// The gameweek in which a fixture stands; `None` where it stands nowhere, or is not there.
    pub fn stands_in(&self, f: FixtureId) -> Option<Gw>
        ensures { result ≡ stands_in self.now f }
    {
        self.fixture(f).and_then(|fixture| fixture.gw)
    }

    /// The fixtures that stand in a gameweek, by ascending id.
    pub fn standing(&self, g: Gw) -> &[FixtureId]
        ensures value { result.now ≡ standing self.now g }
        ensures at_most_20 { length result.now ≤ 20 }
    {
        self.standing.get(g)
    }

    /// Locks the gameweeks whose deadline is at or before `now`, and answers how many it locked. A moment that is
    /// earlier than one told before unlocks nothing.
    pub fn pass(&mut self, now: Moment) -> u8
        ensures passed { self.new ≡ after_pass self.old now }
        ensures count { self.old.locked + result ≡ self.new.locked }
        ensures never_unlocks { self.old.locked ≤ self.new.locked }
    {
        let passed = count_passed(&self.deadlines[usize::from(self.locked)..], now) as u8;
        self.locked += passed;
        passed
    }

    /// Sets the deadline of a gameweek of the season, when the moment told is `now`. `DeadlinePassed`: the gameweek is
    /// locked, or the new deadline is not after `now`. `DeadlineOrder`: it does not lie between its neighbours.
    /// `KickoffEarly`: that fixture of the gameweek, the one of the least id, kicks off less than 90 minutes after it.
    pub fn set_deadline(&mut self, g: Gw, t: Moment, now: Moment) -> Result<(), Rule>
        requires in_season { g ≤ length self.old.deadlines }
        ensures judged { IsJudged (deadline_refusal self.old g t now) result }
        ensures ok { OnOk result (self.new ≡ with_deadline self.old g t) }
        ensures err { OnErr result (self.new ≡ self.old) }
    {
        self.judge_deadline(g, t, now)?;
        self.deadlines[usize::from(g.get() - 1)] = t;
        Ok(())
    }

    /// Whether a gameweek may have this deadline, when the moment told is `now`: what `set_deadline` refuses for.
    pub fn judge_deadline(&self, g: Gw, t: Moment, now: Moment) -> Result<(), Rule>
        requires in_season { g ≤ length self.now.deadlines }
        ensures judged { IsJudged (deadline_refusal self.now g t now) result }
    {
        if g.get() <= self.locked || t <= now {
            return Err(Rule::DeadlinePassed { gameweek: g });
        }
        if !lies_between(&self.deadlines, g, t) {
            return Err(Rule::DeadlineOrder { gameweek: g });
        }
        match first_early(&self.fixtures, self.standing.get(g), t) {
            Some(fixture) => Err(Rule::KickoffEarly { fixture }),
            None => Ok(()),
        }
    }

    /// Adds a fixture, which may stand in a locked gameweek. `FixtureThere`: its id is there. `FixturesFull`: 380
    /// fixtures are there. `GameweekFull`: 20 stand in its gameweek. `KickoffEarly`: it kicks off less than 90 minutes
    /// after that gameweek's deadline.
    pub fn add_fixture(&mut self, fixture: Fixture) -> Result<(), Refused>
        requires in_season { IfSome fixture.gw (λ g. g ≤ length self.old.deadlines) }
        ensures judged { IsJudgedOrOut (fixture_refusal self.old fixture) result }
        ensures ok { OnOk result (self.new ≡ with_fixture self.old fixture) }
        ensures err { OnErr result (self.new ≡ self.old) }
    {
        let at = match self.place_of_new(&fixture) {
            Ok(at) => at,
            Err(rule) => return Err(Refused::Rule(rule)),
        };
        match self.insert(at, fixture) {
            Ok(()) => Ok(()),
            Err(Memory) => Err(Refused::Memory),
        }
    }

    /// Whether a fixture may be added: what `add_fixture` refuses for.
    pub fn judge_fixture(&self, fixture: &Fixture) -> Result<(), Rule>
        requires in_season { IfSome fixture.now.gw (λ g. g ≤ length self.now.deadlines) }
        ensures judged { IsJudged (fixture_refusal self.now fixture.now) result }
    {
        match self.place_of_new(fixture) {
            Ok(_) => Ok(()),
            Err(rule) => Err(rule),
        }
    }

    // Where a new fixture would go.
    fn place_of_new(&self, fixture: &Fixture) -> Result<usize, Rule>
        requires in_season { IfSome fixture.now.gw (λ g. g ≤ length self.now.deadlines) }
        ensures judged { IsJudged (fixture_refusal self.now fixture.now) result }
        ensures gap { IfOk result (IsGap self.now.fixtures fixture.now.id) }
        ensures from_1 { OnOk result (IfSome fixture.now.gw (λ g. 1 ≤ g)) }
        ensures not_full { OnOk result (length self.now.fixtures < 380) }
        ensures can_stand { OnOk result
            (place_refusal self.now fixture.now.id fixture.now.gw fixture.now.kickoff ≡ None) }
    {
        let at = match place_of(&self.fixtures, fixture.id) {
            Ok(_) => {
                return Err(Rule::FixtureThere {
                    fixture: fixture.id,
                });
            }
            Err(at) => at,
        };
        if self.fixtures.len() >= MOST_FIXTURES {
            return Err(Rule::FixturesFull);
        }
        match self.judge_place(fixture.id, &fixture.gw, fixture.kickoff) {
            Ok(()) => Ok(at),
            Err(rule) => Err(rule),
        }
    }

    // Puts a fixture at its place.
    fn insert(&mut self, at: usize, fixture: Fixture) -> Result<(), Memory>
        requires gap { IsGap self.old.fixtures fixture.id at }
        requires from_1 { IfSome fixture.gw (λ g. 1 ≤ g) }
        requires not_full { length self.old.fixtures < 380 }
        requires in_season { IfSome fixture.gw (λ g. g ≤ length self.old.deadlines) }
        requires can_stand { place_refusal self.old fixture.id fixture.gw fixture.kickoff ≡ None }
        ensures ok { OnOk result (self.new ≡ with_fixture self.old fixture) }
        ensures err { OnErr result (self.new ≡ self.old) }
    {
        let Fixture { id, gw, .. } = fixture;
        self.fixtures.insert(at, fixture)?;
        self.standing.put_in(gw, id);
        Ok(())
    }

    /// Lets a fixture stand in another gameweek, or in none, and sets its kick-off. It wants no memory. `HasFacts`: the
    /// fixture has facts, which are a line or the finished mark, and is not to stand in a locked gameweek.
    /// `GameweekFull`: 20 other fixtures stand there. `KickoffEarly`: the kick-off is less than 90 minutes after that
    /// gameweek's deadline.
    pub fn move_fixture(
        &mut self,
        f: FixtureId,
        to: Option<Gw>,
        kickoff: Moment,
        has_facts: bool,
    ) -> Result<(), Refused>
        requires there { IsSome (fixture_of self.old f) }
        requires in_season { IfSome to (λ g. g ≤ length self.old.deadlines) }
        ensures judged { IsJudgedOrOut (move_refusal self.old f to kickoff has_facts) result }
        ensures ok { OnOk result (self.new ≡ with_move self.old f to kickoff) }
        ensures err { OnErr result (self.new ≡ self.old) }
        ensures no_memory { IfErr result (λ e. e ≢ Refused.Memory) }
    {
        if let Err(rule) = self.judge_move(f, &to, kickoff, has_facts) {
            return Err(Refused::Rule(rule));
        }
        let at = match place_of(&self.fixtures, f) {
            Ok(at) => at,
            Err(_) => unreachable!(),
        };
        let fixture = self.fixtures[at];
        let moved = Fixture {
            gw: to,
            kickoff,
            ..fixture
        };
        self.replace(at, moved);
        Ok(())
    }

    /// Whether a fixture may go to a gameweek, or to none, and have this kick-off: what `move_fixture` refuses for.
    pub fn judge_move(
        &self,
        f: FixtureId,
        to: &Option<Gw>,
        kickoff: Moment,
        has_facts: bool,
    ) -> Result<(), Rule>
        requires in_season { IfSome to.now (λ g. g ≤ length self.now.deadlines) }
        ensures judged { IsJudged (move_refusal self.now f to.now kickoff has_facts) result }
        ensures from_1 { IfSome to.now (λ g. 1 ≤ g) }
    {
        if has_facts && !self.is_locked_place(to) {
            return Err(Rule::HasFacts { fixture: f });
        }
        self.judge_place(f, to, kickoff)
    }

    /// Sets the clubs of a fixture.
    pub fn set_opponents(&mut self, f: FixtureId, home: ClubId, away: ClubId)
        requires there { IsSome (fixture_of self.old f) }
        ensures { self.new ≡ with_opponents self.old f home away }
    {
        let at = match place_of(&self.fixtures, f) {
            Ok(at) => at,
            Err(_) => unreachable!(),
        };
        let fixture = self.fixtures[at];
        self.fixtures[at] = Fixture {
            home,
            away,
            ..fixture
        };
    }

    // Whether a place is a locked gameweek.
    fn is_locked_place(&self, to: &Option<Gw>) -> bool
        ensures { result ≡ is_locked_place self.now to.now }
    {
        match to {
            Some(g) => g.get() <= self.locked,
            None => false,
        }
    }

    // Puts a fixture in the place of the one of its id.
    fn replace(&mut self, at: usize, fixture: Fixture)
        requires there { IsAt self.old.fixtures fixture.id at }
        requires from_1 { IfSome fixture.gw (λ g. 1 ≤ g) }
        requires in_season { IfSome fixture.gw (λ g. g ≤ length self.old.deadlines) }
        requires can_stand { place_refusal self.old fixture.id fixture.gw fixture.kickoff ≡ None }
        ensures { self.new ≡ record self.old { fixtures = slice_set self.old.fixtures at fixture } }
    {
        let from = self.fixtures[at].gw;
        let Fixture { id, gw: to, .. } = fixture;
        self.standing.take_out(from, id);
        self.standing.put_in(to, id);
        self.fixtures[at] = fixture;
    }

    // How many fixtures but this one stand in a gameweek.
    fn count_others(&self, g: Gw, f: FixtureId) -> usize
        ensures { result ≡ length (ids_without f (standing self.now g)) }
    {
        self.standing(g).iter().filter(|id| **id != f).count()
    }

    // Whether a fixture may stand at a place and kick off then.
    fn judge_place(&self, f: FixtureId, to: &Option<Gw>, kickoff: Moment) -> Result<(), Rule>
        requires { IfSome to.now (λ g. g ≤ length self.now.deadlines) }
        ensures judged { IsJudged (place_refusal self.now f to.now kickoff) result }
        ensures from_1 { IfSome to.now (λ g. 1 ≤ g) }
    {
        let Some(g) = *to else {
            return Ok(());
        };
        let deadline = self.deadlines[usize::from(g.get() - 1)];
        if self.count_others(g, f) >= MOST_IN_A_GAMEWEEK {
            return Err(Rule::GameweekFull { gameweek: g });
        }
        if is_early(deadline, kickoff) {
            return Err(Rule::KickoffEarly { fixture: f });
        }
        Ok(())
    }
}

ghost use Rattle.rule_book.specs.Calendar.{first_out_of_order, is_early, is_after_previous, is_before_next};
ghost use Rattle.season_calendar.specs.Kept.{IsAt, IsGap, ids_without, is_there_early};

// The first gameweek whose deadline is not after that of the gameweek before.
fn first_out_of_order(deadlines: &[Moment]) -> Option<Gw>
    requires { length deadlines.now ≤ 38 }
    ensures { result ≡ first_out_of_order deadlines.now }
{
    for i in 1..deadlines.len() {
        if deadlines[i] <= deadlines[i - 1] {
            return Gw::new(i as u8 + 1);
        }
    }
    None
}

// How many deadlines from the front on are at or before a moment.
fn count_passed(deadlines: &[Moment], now: Moment) -> usize
    ensures value { result ≡ length (take_while (λ d. nat_le d now) deadlines.now) }
    ensures bound { result ≤ length deadlines.now }
{
    deadlines
        .iter()
        .take_while(|deadline| **deadline <= now)
        .count()
}

// Whether a kick-off is early for a deadline.
fn is_early(deadline: Moment, kickoff: Moment) -> bool
    ensures { result ≡ is_early deadline kickoff }
{
    kickoff.get() < deadline.get() + DEADLINE_BEFORE_KICKOFF
}

// Whether a deadline of a gameweek is after that of the gameweek before and before that of the next.
fn lies_between(deadlines: &[Moment], g: Gw, t: Moment) -> bool
    requires { g ≤ length deadlines.now }
    ensures { result ≡ is_after_previous deadlines.now g t && is_before_next deadlines.now g t }
{
    let number = usize::from(g.get());
    (number <= 1 || deadlines[number - 2] < t)
        && (number >= deadlines.len() || t < deadlines[number])
}

// The first of some fixtures, named by their ids, that kicks off too early for this deadline.
fn first_early(fixtures: &[Fixture], ids: &[FixtureId], t: Moment) -> Option<FixtureId>
    requires { AllPairs (λ x y. x.id < y.id) fixtures.now }
    ensures { result ≡ find (λ f. is_there_early t (find (λ x. x.id == f) fixtures.now)) ids.now }
{
    for f in ids {
        if kicks_off_early(fixtures, *f, t) {
            return Some(*f);
        }
    }
    None
}

// Whether a fixture is there and kicks off too early for this deadline.
fn kicks_off_early(fixtures: &[Fixture], f: FixtureId, t: Moment) -> bool
    requires { AllPairs (λ x y. x.id < y.id) fixtures.now }
    ensures { result ≡ is_there_early t (find (λ x. x.id == f) fixtures.now) }
{
    match place_of(fixtures, f) {
        Ok(at) => is_early(t, fixtures[at].kickoff),
        Err(_) => false,
    }
}

// Where a fixture is among fixtures by ascending id, or where it would go.
fn place_of(fixtures: &[Fixture], f: FixtureId) -> Result<usize, usize>
    requires { AllPairs (λ x y. x.id < y.id) fixtures.now }
    ensures found { IfOk result (IsAt fixtures.now f) }
    ensures absent { IfErr result (IsGap fixtures.now f) }
{
    fixtures.binary_search_by_key(&f, |fixture| fixture.id)
}
