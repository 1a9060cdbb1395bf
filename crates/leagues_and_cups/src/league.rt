//! One league: who is in it, and in which order it was drawn.
ghost use Rattle.std.specs.Prelude.{◌≡◌, ◌≢◌, ◌<◌, ◌≤◌, ℕ, nat_lt, length, All, AllPairs, IfOk, IfSome, IsTrue, OnErr, OnOk};
ghost use Rattle.std.specs.Str.{bytes_eq};
ghost use Rattle.rule_book.specs.LeagueCalls.{is_drawn, is_member, most_members, new_league, with_member, with_order};
ghost use Rattle.rule_book.specs.LeagueRows.{place_of};
ghost use Rattle.rule_book.specs.Ranks.{AllDiffer};
ghost use Rattle.leagues_and_cups.specs.Books.{CanDraw, CanEnter, IsLeague, league_of, row_of, with_number};

use crate::memberships::Memberships;
use fpl_base::{Code, EntryId, Gw, LeagueId, ListOf, Memory, Name};
use rule_book::LeagueKind;
use std::alloc::Global;
use std::marker::Model;

/// Entries in an order.
pub type Ids = ListOf<EntryId>;

/// A league. Its members stand by ascending number, each once. There is at least one: who created it. A classic league
/// has at most 2,048 members, and a head-to-head league 64. The order of a head-to-head league that was drawn has each
/// member once; it is empty before, and in a classic league.
#[derive(Drop)]
pub struct League {
    kind: LeagueKind,
    name: Name,
    code: Code,
    start: Gw,
    creator: EntryId,
    members: Vec<EntryId>,
    order: Ids,
}

impl Model for League {
    ghost use Rattle.rule_book.specs.Leagues.{LeagueFacts};
    ghost use Rattle.leagues_and_cups.specs.Books.{IsLeague, league_of};

    ghost Value = { LeagueFacts };

    ghost view = { λ l. league_of l.kind l.name l.code l.start l.creator l.members.items l.order };

    ghost invariant = { λ l. IsLeague (league_of l.kind l.name l.code l.start l.creator l.members.items l.order) };
}

impl League {
    // A league that an entry creates, which is its first member.
    pub(crate) fn new(
        alloc: Global,
        kind: LeagueKind,
        name: Name,
        code: Code,
        start: Gw,
        creator: EntryId,
    ) -> Result<Self, Memory>
        ensures { IfOk result (λ league. league ≡ new_league kind name code start creator) }
    {
        let mut members = Vec::with_capacity(alloc, 1)?;
        members.push(creator)?;
        Ok(League {
            kind,
            name,
            code,
            start,
            creator,
            members,
            order: Ids::new(alloc),
        })
    }

    /// A league of these parts: the members by ascending number, and the order of the draw, which is empty before it.
    pub fn restore(
        kind: LeagueKind,
        name: Name,
        code: Code,
        start: Gw,
        creator: EntryId,
        members: Vec<EntryId>,
        order: Ids,
    ) -> Self
        requires { IsLeague (league_of kind name code start creator members.items order) }
        ensures { result ≡ league_of kind name code start creator members.items order }
    {
        League {
            kind,
            name,
            code,
            start,
            creator,
            members,
            order,
        }
    }

    /// How it is decided.
    pub fn kind(&self) -> LeagueKind
        ensures { result ≡ self.now.kind }
    {
        self.kind
    }

    /// What it is called.
    pub fn name(&self) -> &Name
        ensures { result.now ≡ self.now.name }
    {
        &self.name
    }

    /// The code that joins it.
    pub fn code(&self) -> &Code
        ensures { result.now ≡ self.now.code }
    {
        &self.code
    }

    /// The first gameweek that it counts.
    pub fn start(&self) -> Gw
        ensures { result ≡ self.now.start }
    {
        self.start
    }

    /// Who created it.
    pub fn creator(&self) -> EntryId
        ensures { result ≡ self.now.creator }
    {
        self.creator
    }

    /// Its members, by ascending number.
    pub fn members(&self) -> &[EntryId]
        ensures value { result.now ≡ self.now.members }
        ensures differ { AllDiffer result.now }
        ensures rise { AllPairs (λ a b. a < b) result.now }
        ensures some { 1 ≤ length result.now }
        ensures few { length result.now ≤ most_members self.now.kind }
    {
        self.members.as_slice()
    }

    /// The order in which it was drawn: its members by place. It is empty before.
    pub fn order(&self) -> &[EntryId]
        ensures value { result.now ≡ self.now.order }
        ensures differ { AllDiffer result.now }
        ensures few { length result.now ≤ 64 }
        ensures two { 0 < length result.now → 2 ≤ length result.now }
        ensures drawn { IsTrue (is_drawn self.now) → CanDraw result.now self.now }
    {
        self.order.as_slice()
    }

    /// Whether an entry is a member.
    pub fn is_member(&self, e: EntryId) -> bool
        ensures { result ≡ is_member self.now e }
    {
        self.members.binary_search(&e).is_ok()
    }

    /// Whether it was drawn.
    pub fn is_drawn(&self) -> bool
        ensures { result ≡ is_drawn self.now }
    {
        self.order.as_slice().len() != 0
    }

    /// The place of a member in the order, counted from 0; `None` before the draw, and where the entry is no member.
    pub fn place(&self, e: EntryId) -> Option<usize>
        ensures value { result ≡ place_of self.now.order e }
        ensures within { IfSome result (λ place. place < length self.now.order) }
    {
        self.order.as_slice().iter().position(|member| *member == e)
    }

    // Whether this code joins it.
    pub(crate) fn has_code(&self, code: &Code) -> bool
        ensures { result ≡ bytes_eq code.now self.now.code }
    {
        code.bytes() == self.code.bytes()
    }

    // Whether one more can be a member.
    pub(crate) fn has_room(&self) -> bool
        ensures { result ≡ nat_lt (length self.now.members) (most_members self.now.kind) }
    {
        self.members.len() < most_members(self.kind)
    }

    // Puts an entry among the members, in its place, and the league among those of the entry.
    pub(crate) fn admit(
        &mut self,
        e: EntryId,
        l: LeagueId,
        memberships: &mut Memberships,
    ) -> Result<(), Memory>
        requires open { CanEnter self.old e }
        requires new { All (λ n. n ≢ l) (row_of memberships.old e) }
        ensures ok { OnOk result (self.new ≡ with_member e self.old) }
        ensures added { OnOk result (row_of memberships.new e ≡ with_number l (row_of memberships.old e)) }
        ensures others { (d : ℕ) → d ≢ e → row_of memberships.new d ≡ row_of memberships.old d }
        ensures err { OnErr result (self.new ≡ self.old) }
        ensures left { OnErr result (row_of memberships.new e ≡ row_of memberships.old e) }
    {
        let place = self.members.partition_point(|member| *member < e);
        self.members.reserve(1)?;
        memberships.add(e, l)?;
        let _ = self.members.insert(place, e);
        Ok(())
    }

    // Keeps the order in which it was drawn.
    pub(crate) fn set_order(&mut self, order: &[EntryId]) -> Result<(), Memory>
        requires drawn { CanDraw order.now self.old }
        ensures ok { OnOk result (self.new ≡ with_order order.now self.old) }
        ensures err { OnErr result (self.new ≡ self.old) }
    {
        let order = Vec::from_slice(self.order.allocator(), order)?;
        self.order = Ids::of(order);
        Ok(())
    }
}

// So many members has a league of this kind at most.
fn most_members(kind: LeagueKind) -> usize
    ensures { result ≡ most_members kind }
{
    match kind {
        LeagueKind::Classic => 2048,
        LeagueKind::Head => 64,
    }
}
