//! The leagues of a season.
ghost use Rattle.std.specs.Prelude.{◌≡◌, ◌+◌, ◌++◌, ◌<◌, ◌≤◌, ◌∷◌, [], length, option_copied, IfOk, IsSome, IsSomeAnd, OnErr, OnOk, Some};
ghost use Rattle.rule_book.specs.Entries.{changed_in, entry_in};
ghost use Rattle.rule_book.specs.LeagueCalls.{create_refusal, has_room_for_league, join_refusal, leagues_of, most_leagues, new_league, with_member, with_order};
ghost use Rattle.rule_book.specs.Leagues.{LeagueFacts};
ghost use Rattle.rule_book.specs.Refusals.{IsJudged, IsJudgedOrOut};
ghost use Rattle.leagues_and_cups.specs.Books.{CanDrawIn, CanEnter};

use crate::league::League;
use crate::memberships::Memberships;
use fpl_base::{Code, EntryId, Gw, LeagueId, Memory, Name, Refused, Rule};
use rule_book::LeagueKind;
use std::alloc::Global;
use std::marker::Model;

// So many leagues are in a season at most, and an entry is in so many of them.
const MOST_LEAGUES: usize = 512;

const MOST_LEAGUES_OF_ONE: usize = 20;

/// The leagues of a season, numbered from 1 in the order of making, at most 512. An entry is in at most 20 of them.
#[derive(Drop)]
pub struct Leagues {
    leagues: Vec<League>,
    memberships: Memberships,
}

impl Model for Leagues {
    ghost use Rattle.std.specs.Prelude.{List};
    ghost use Rattle.rule_book.specs.Leagues.{LeagueFacts};
    ghost use Rattle.leagues_and_cups.specs.Books.{AreBooked};

    ghost Value = { List LeagueFacts };

    ghost view = { λ b. b.leagues.items };

    ghost invariant = { λ b. AreBooked b.leagues.items b.memberships };
}

impl Leagues {
    /// No leagues.
    pub fn new(alloc: Global) -> Self
        ensures { result ≡ [] }
    {
        Leagues {
            leagues: Vec::new(alloc),
            memberships: Memberships::new(alloc),
        }
    }

    /// How many leagues there are.
    pub fn count(&self) -> u32
        ensures value { result ≡ length self.now }
        ensures most { result ≤ most_leagues }
    {
        self.leagues.len() as u32
    }

    /// The league of a number; `None` where it was not created.
    pub fn get(&self, l: LeagueId) -> Option<&League>
        ensures { option_copied result ≡ entry_in self.now l }
    {
        self.leagues.get(l.get() as usize - 1)
    }

    /// The leagues that an entry is in, by ascending number.
    pub fn leagues_of(&self, e: EntryId) -> &[LeagueId]
        ensures { result.now ≡ leagues_of self.now e }
    {
        self.memberships.of(e)
    }

    // Whether an entry can be in one league more.
    fn has_room_for(&self, e: EntryId) -> bool
        ensures { result ≡ has_room_for_league self.now e }
    {
        self.leagues_of(e).len() < MOST_LEAGUES_OF_ONE
    }

    /// Whether an entry may create a league that starts in a gameweek, where so many gameweeks are locked: what `create`
    /// refuses for.
    pub fn judge_create(&self, e: EntryId, start: Gw, locked: u8) -> Result<(), Rule>
        ensures { IsJudged (create_refusal self.now e start locked) result }
    {
        if start.get() <= locked {
            return Err(Rule::StartPassed { gameweek: start });
        }
        if self.leagues.len() >= MOST_LEAGUES || !self.has_room_for(e) {
            return Err(Rule::LeaguesFull);
        }
        Ok(())
    }

    /// Whether an entry may join a league with a code: what `join` refuses for.
    pub fn judge_join(&self, e: EntryId, l: LeagueId, code: &Code) -> Result<(), Rule>
        requires there { IsSome (entry_in self.now l) }
        ensures { (league : LeagueFacts) → entry_in self.now l ≡ Some league
            → IsJudged (join_refusal self.now e league code.now) result }
    {
        let has_room = self.has_room_for(e);
        let league = &self.leagues[l.get() as usize - 1];
        if league.is_drawn() {
            return Err(Rule::LeagueClosed);
        }
        if !league.has_code(code) {
            return Err(Rule::Code);
        }
        if league.is_member(e) {
            return Err(Rule::Member);
        }
        if !has_room {
            return Err(Rule::LeaguesFull);
        }
        if !league.has_room() {
            return Err(Rule::MembersFull);
        }
        Ok(())
    }

    // Adds a league behind the others, of which an entry is the one member.
    fn add(&mut self, league: League, e: EntryId, l: LeagueId) -> Result<(), Memory>
        requires room { length self.old < most_leagues }
        requires next { l ≡ length self.old + 1 }
        requires alone { league.members ≡ e ∷ [] }
        ensures ok { OnOk result (self.new ≡ self.old ++ league ∷ []) }
        ensures err { OnErr result (self.new ≡ self.old) }
    {
        self.leagues.reserve(1)?;
        self.memberships.add(e, l)?;
        let _ = self.leagues.push(league);
        Ok(())
    }

    // Puts an entry among the members of a league.
    fn admit(&mut self, e: EntryId, l: LeagueId) -> Result<(), Memory>
        requires open { IsSomeAnd (entry_in self.old l) (λ league. CanEnter league e) }
        ensures ok { OnOk result (self.new ≡ changed_in (with_member e) self.old l) }
        ensures err { OnErr result (self.new ≡ self.old) }
    {
        let league = &mut self.leagues[l.get() as usize - 1];
        league.admit(e, l, &mut self.memberships)?;
        Ok(())
    }

    /// Creates a league, whose creator is its first member. It has the next number.
    ///
    /// The first of these that holds refuses it: `StartPassed`, its first gameweek is locked; `LeaguesFull`, there are
    /// 512 leagues, or the entry is in 20.
    pub fn create(
        &mut self,
        e: EntryId,
        kind: LeagueKind,
        name: Name,
        code: Code,
        start: Gw,
        locked: u8,
    ) -> Result<LeagueId, Refused>
        ensures judged { IsJudgedOrOut (create_refusal self.old e start locked) result }
        ensures made { IfOk result (λ l. l ≡ length self.old + 1) }
        ensures ok { OnOk result (self.new ≡ self.old ++ new_league kind name code start e ∷ []) }
        ensures err { OnErr result (self.new ≡ self.old) }
    {
        self.judge_create(e, start, locked)?;
        let Some(l) = LeagueId::new(self.leagues.len() as u32 + 1) else {
            return Err(Refused::Rule(Rule::LeaguesFull));
        };
        let league = League::new(*self.leagues.allocator(), kind, name, code, start, e)?;
        self.add(league, e, l)?;
        Ok(l)
    }

    /// Joins a league.
    ///
    /// The first of these that holds refuses it: `LeagueClosed`, it was drawn; `Code`, it has another code; `Member`, the
    /// entry is in it; `LeaguesFull`, the entry is in 20 leagues; `MembersFull`, the league has as many members as its
    /// kind can have.
    pub fn join(&mut self, e: EntryId, l: LeagueId, code: &Code) -> Result<(), Refused>
        requires there { IsSome (entry_in self.old l) }
        ensures judged { (league : LeagueFacts) → entry_in self.old l ≡ Some league
            → IsJudgedOrOut (join_refusal self.old e league code.now) result }
        ensures ok { OnOk result (self.new ≡ changed_in (with_member e) self.old l) }
        ensures err { OnErr result (self.new ≡ self.old) }
    {
        self.judge_join(e, l, code)?;
        self.admit(e, l)?;
        Ok(())
    }

    /// Keeps the order in which a league was drawn, in place of an earlier one.
    pub fn set_order(&mut self, l: LeagueId, order: &[EntryId]) -> Result<(), Memory>
        requires drawn { CanDrawIn self.old l order.now }
        ensures ok { OnOk result (self.new ≡ changed_in (with_order order.now) self.old l) }
        ensures err { OnErr result (self.new ≡ self.old) }
    {
        self.leagues[l.get() as usize - 1].set_order(order)
    }

    /// These leagues and one more behind them, whoever is in it; all are let go after want of memory. How many leagues an
    /// entry is in is not looked at.
    pub fn restore(self, league: League) -> Result<Self, Memory>
        requires room { length self < most_leagues }
        ensures { IfOk result (λ book. book ≡ self ++ league ∷ []) }
    {
        let Leagues {
            mut leagues,
            mut memberships,
        } = self;
        let l = numbered(leagues.len() as u32 + 1);
        memberships.enter(league.members(), l)?;
        leagues.push(league)?;
        Ok(Leagues {
            leagues,
            memberships,
        })
    }
}

// The league of this number.
fn numbered(number: u32) -> LeagueId
    requires { 1 ≤ number }
    ensures { result ≡ number }
{
    LeagueId::new(number).unwrap()
}
