//! The league itself.
ghost use Rattle.std.specs.Prelude.{◌≡◌, ◌≤◌, true, false, None, IfOk, OnOk, OnErr, IfSome, length, map, ◌++◌, ◌∷◌, []};
ghost use Rattle.rule_book.specs.Ranks.{AllDiffer};
ghost use Rattle.draft_league.specs.Holdings.{owner_in, squad_in};
ghost use Rattle.draft_league.specs.Kept.{IsMember};
ghost use Rattle.draft_league.specs.Leagues.{AreOutcomes, HasFullSquads, HasOneOwners, bidden, bids_after, bids_for, founded, held_at, held_now, is_over, picked, turn, waived};
ghost use Rattle.draft_league.specs.Rules.{IsJudged, is_at, is_member, bid_refusal, bid_refused, next_member, pick_refusal, pick_refused, waive_refusal, waive_refused, waiting_of};
ghost use Rattle.draft_league.specs.Settling.{IsSettled};
ghost use Rattle.draft_league.specs.Squads.{players_in};

use crate::holdings::{count_in, is_position, number_in, owner_in, position_in};
use crate::settling::Standing;
use crate::{Bid, DraftRefused, DraftRule, Holding, Outcome};
use fpl_base::{Gw, Memory, PlayerId, Position};
use std::alloc::Global;
use std::marker::Model;

/// A member has at most so many bids that wait.
const MOST_BIDS: usize = 100;

/// A draft league of two to eight members, seen as what was done in it: the picks, the outcomes of all waivers, the bids that
/// wait, and the last gameweek whose waivers were settled.
#[derive(Drop)]
pub struct Draft {
    members: u8,
    drafted: Vec<Holding>,
    past: Vec<Outcome>,
    waiting: Vec<Bid>,
    last: Option<Gw>,
    // Who owns whom now, which the picks and the outcomes tell.
    held: Vec<Holding>,
}

impl Model for Draft {
    ghost use Rattle.draft_league.specs.Leagues.{League};
    ghost use Rattle.draft_league.specs.Kept.{IsLeague};

    ghost Value = { League };

    ghost view = { λ d. record { members = d.members; drafted = d.drafted.items; past = d.past.items; waiting = d.waiting.items; last = d.last } };

    ghost invariant = { λ d. IsLeague (record { members = d.members; drafted = d.drafted.items; past = d.past.items; waiting = d.waiting.items; last = d.last }) d.held.items };
}

impl Draft {
    /// A league of so many members, in which nothing was done. It takes no memory.
    pub fn new(alloc: Global, members: u8) -> Self
        requires few { (2 ≤ members) × (members ≤ 8) }
        ensures { result ≡ founded members }
    {
        Draft {
            members,
            drafted: Vec::new(alloc),
            past: Vec::new(alloc),
            waiting: Vec::new(alloc),
            last: None,
            held: Vec::new(alloc),
        }
    }

    /// The member whose turn it is picks a player, who plays in this position, and owns him. It answers the member. A player
    /// has the same position in every call.
    pub fn pick(&mut self, player: PlayerId, position: Position) -> Result<u8, DraftRefused>
        ensures judged { IsJudged (pick_refusal self.old player position) result }
        ensures member { IfOk result (λ member. member ≡ next_member self.old) }
        ensures ok { OnOk result (self.new ≡ picked self.old player position) }
        ensures err { OnErr result (self.new ≡ self.old) }
        ensures owners { HasOneOwners self.new }
        ensures squads { HasFullSquads self.new }
    {
        if let Some(rule) = self.pick_refusal(player, position) {
            return Err(DraftRefused::Rule(rule));
        }
        let member = turn(self.members, self.drafted.len());
        let holding = Holding {
            player,
            position,
            member,
        };
        push_both(&mut self.drafted, &mut self.held, &holding)?;
        Ok(member)
    }

    /// A bid waits for the waivers of a gameweek: the member asks for `into`, who plays in this position, in the place of
    /// `out`. A player has the same position in every call.
    pub fn bid(
        &mut self,
        g: Gw,
        member: u8,
        into: PlayerId,
        position: Position,
        out: PlayerId,
    ) -> Result<(), DraftRefused>
        requires member { IsMember self.old.members member }
        ensures judged { IsJudged (bid_refusal self.old
            (record { gw = g; member = member; into = into; out = out }) position) result }
        ensures ok { OnOk result (self.new
            ≡ bidden self.old (record { gw = g; member = member; into = into; out = out })) }
        ensures err { OnErr result (self.new ≡ self.old) }
        ensures owners { HasOneOwners self.new }
        ensures squads { HasFullSquads self.new }
    {
        let bid = Bid {
            gw: g,
            member,
            into,
            out,
        };
        if let Some(rule) = self.bid_refusal(&bid, position) {
            return Err(DraftRefused::Rule(rule));
        }
        push_bid(&mut self.waiting, &bid)?;
        Ok(())
    }

    /// Settles the bids for a gameweek, and answers what became of each, in the order in which they were settled.
    pub fn waive(&mut self, alloc: Global, g: Gw) -> Result<Vec<Outcome>, DraftRefused>
        ensures judged { IsJudged (waive_refusal self.old g) result }
        ensures outcomes { IfOk result (λ outcomes. AreOutcomes self.old g outcomes.items) }
        ensures ok { IfOk result (λ outcomes. self.new ≡ waived self.old g outcomes.items) }
        ensures err { OnErr result (self.new ≡ self.old) }
        ensures owners { HasOneOwners self.new }
        ensures squads { HasFullSquads self.new }
    {
        if let Some(rule) = self.waive_refusal(g) {
            return Err(DraftRefused::Rule(rule));
        }
        let settled = self.settled(alloc, g)?;
        let Settled {
            outcomes,
            past,
            waiting,
            held,
        } = settled;
        self.held = held;
        self.past = past;
        self.waiting = waiting;
        self.last = Some(g);
        Ok(outcomes)
    }

    /// Who owns a player now; `None` exactly where nobody does.
    pub fn owner(&self, player: PlayerId) -> Option<u8>
        ensures owner { result ≡ owner_in (held_now self.now) player }
        ensures owners { HasOneOwners self.now }
    {
        owner_in(&self.held, player)
    }

    /// How many picks were made.
    pub fn picks(&self) -> u32
        ensures { result ≡ length self.now.drafted }
    {
        self.drafted.len() as u32
    }

    /// What became of all bids, in the order in which they were settled.
    pub fn outcomes(&self) -> &[Outcome]
        ensures { result.now ≡ self.now.past }
    {
        self.past.as_slice()
    }

    /// How many members there are.
    pub fn members(&self) -> u8
        ensures members { result ≡ self.now.members }
        ensures few { (2 ≤ result) × (result ≤ 8) }
    {
        self.members
    }

    /// Whether all picks were made.
    pub fn is_over(&self) -> bool
        ensures { result ≡ is_over self.now }
    {
        self.drafted.len() >= 15 * self.members as usize
    }

    /// A member's fifteen players behind the waivers of gameweeks up to this one and before later ones, with their positions;
    /// `None` exactly where the draft is open.
    pub fn squad_at(
        &self,
        alloc: Global,
        member: u8,
        g: Gw,
    ) -> Result<Option<[(PlayerId, Position); 15]>, Memory>
        requires member { IsMember self.now.members member }
        ensures open { IfOk result (λ squad. squad ≡ None → is_over self.now ≡ false) }
        ensures squad { IfOk result (λ squad. IfSome squad (λ players.
            (is_over self.now ≡ true) × (players ≡ players_in (held_at self.now g) member))) }
        ensures apart { IfOk result (λ squad. IfSome squad (λ players.
            AllDiffer (map (λ one. one.0) players))) }
        ensures squads { HasFullSquads self.now }
    {
        if !self.is_over() {
            return Ok(None);
        }
        let mut standing = Standing::first(alloc, self.members, self.drafted.as_slice())?;
        standing.follow_up_to(alloc, g, self.past.as_slice())?;
        let squad = squad_of(alloc, standing.held(), member)?;
        Ok(Some(squad))
    }

    // Why a pick is refused.
    fn pick_refusal(&self, player: PlayerId, position: Position) -> Option<DraftRule>
        ensures refusal { result ≡ pick_refusal self.now player position }
        ensures owners { HasOneOwners self.now }
        ensures squads { HasFullSquads self.now }
    {
        let member = turn(self.members, self.drafted.len());
        let fits = count_in(&self.held, member, position) < number_in(position);
        pick_refused(self.is_over(), owner_in(&self.held, player), fits)
    }

    // Why a bid is refused.
    fn bid_refusal(&self, bid: &Bid, position: Position) -> Option<DraftRule>
        ensures refusal { result ≡ bid_refusal self.now bid.now position }
        ensures owners { HasOneOwners self.now }
        ensures squads { HasFullSquads self.now }
    {
        let few = waiting_of(&self.waiting, bid.member) < MOST_BIDS;
        let own = is_member(owner_in(&self.held, bid.out), bid.member);
        let same = is_at(position_in(&self.held, bid.out), position);
        bid_refused(self.waive_refusal(bid.gw), few, own, same)
    }

    // Why waivers are refused.
    fn waive_refusal(&self, g: Gw) -> Option<DraftRule>
        ensures refusal { result ≡ waive_refusal self.now g }
        ensures owners { HasOneOwners self.now }
        ensures squads { HasFullSquads self.now }
    {
        waive_refused(self.last, g, self.is_over())
    }

    // What the waivers of a gameweek leave.
    fn settled(&self, alloc: Global, g: Gw) -> Result<Settled, Memory>
        ensures { IfOk result (IsSettled self.now g) }
    {
        let mut standing = Standing::first(alloc, self.members, self.drafted.as_slice())?;
        standing.follow_all(alloc, self.past.as_slice())?;
        let bids = bids_for(alloc, g, self.waiting.as_slice())?;
        let outcomes = standing.settle(alloc, bids)?;
        let past = joined(alloc, self.past.as_slice(), outcomes.as_slice())?;
        let waiting = bids_after(alloc, g, self.waiting.as_slice())?;
        Ok(Settled {
            outcomes,
            past,
            waiting,
            held: standing.into_held(),
        })
    }
}

// What waivers leave.
#[derive(Drop)]
struct Settled {
    outcomes: Vec<Outcome>,
    past: Vec<Outcome>,
    waiting: Vec<Bid>,
    held: Vec<Holding>,
}

// The member to whom a pick belongs, counted from 0.
fn turn(members: u8, pick: usize) -> u8
    requires { 1 ≤ members }
    ensures { result ≡ turn members pick }
{
    let place = (pick % members as usize) as u8;
    if pick / members as usize % 2 == 0 {
        place + 1
    } else {
        members - place
    }
}

// Puts a holding at the end of both lists; or neither is changed.
fn push_both(
    one: &mut Vec<Holding>,
    other: &mut Vec<Holding>,
    holding: &Holding,
) -> Result<(), Memory>
    ensures ok { OnOk result ((one.new.items ≡ one.old.items ++ holding.now ∷ [])
        × (other.new.items ≡ other.old.items ++ holding.now ∷ [])) }
    ensures err { OnErr result ((one.new.items ≡ one.old.items)
        × (other.new.items ≡ other.old.items)) }
{
    one.reserve(1)?;
    other.push(*holding)?;
    let _ = one.push(*holding);
    Ok(())
}

// Puts a bid behind the others; or they are not changed.
fn push_bid(bids: &mut Vec<Bid>, bid: &Bid) -> Result<(), Memory>
    ensures ok { OnOk result (bids.new.items ≡ bids.old.items ++ bid.now ∷ []) }
    ensures err { OnErr result (bids.new.items ≡ bids.old.items) }
{
    bids.push(*bid)?;
    Ok(())
}

// Why a pick is refused, by whether the draft is over, who owns the player, and whether his position has room.
fn pick_refused(over: bool, owner: Option<u8>, fits: bool) -> Option<DraftRule>
    ensures { result ≡ pick_refused over owner fits }
{
    if over {
        return Some(DraftRule::DraftOver);
    }
    if let Some(owner) = owner {
        return Some(DraftRule::Owned { owner });
    }
    if fits {
        None
    } else {
        Some(DraftRule::PositionFull)
    }
}

// Why a bid is refused, by why waivers are, whether few bids of the member wait, whether he owns the one who would go, and
// whether the two have the same position.
fn bid_refused(early: Option<DraftRule>, few: bool, own: bool, same: bool) -> Option<DraftRule>
    ensures { result ≡ bid_refused early few own same }
{
    if let Some(rule) = early {
        return Some(rule);
    }
    if !few {
        return Some(DraftRule::BidsFull);
    }
    if !own {
        return Some(DraftRule::BidNotHeld);
    }
    if same {
        None
    } else {
        Some(DraftRule::BidPosition)
    }
}

// Why waivers are refused, by the last gameweek that had them, and whether the draft is over.
fn waive_refused(last: Option<Gw>, g: Gw, over: bool) -> Option<DraftRule>
    ensures { result ≡ waive_refused last g over }
{
    if !over {
        return Some(DraftRule::DraftOpen);
    }
    match last {
        Some(last) => {
            if last < g {
                None
            } else {
                Some(DraftRule::WaiveOrder { gameweek: last })
            }
        }
        None => None,
    }
}

fn is_member(owner: Option<u8>, member: u8) -> bool
    ensures { result ≡ is_member owner member }
{
    match owner {
        Some(owner) => owner == member,
        None => false,
    }
}

fn is_at(other: Option<Position>, position: Position) -> bool
    ensures { result ≡ is_at other position }
{
    match other {
        Some(other) => is_position(other, position),
        None => false,
    }
}

fn waiting_of(bids: &[Bid], member: u8) -> usize
    ensures { result ≡ waiting_of bids.now member }
{
    bids.iter().filter(|bid| bid.member == member).count()
}

fn bids_for(alloc: Global, g: Gw, bids: &[Bid]) -> Result<Vec<Bid>, Memory>
    ensures { IfOk result (λ found. found.items ≡ bids_for g bids.now) }
{
    let mut found = Vec::new(alloc);
    for bid in bids {
        if bid.gw == g {
            found.push(*bid)?;
        }
    }
    Ok(found)
}

fn bids_after(alloc: Global, g: Gw, bids: &[Bid]) -> Result<Vec<Bid>, Memory>
    ensures { IfOk result (λ found. found.items ≡ bids_after g bids.now) }
{
    let mut found = Vec::new(alloc);
    for bid in bids {
        if g < bid.gw {
            found.push(*bid)?;
        }
    }
    Ok(found)
}

fn joined(alloc: Global, one: &[Outcome], other: &[Outcome]) -> Result<Vec<Outcome>, Memory>
    ensures { IfOk result (λ both. both.items ≡ one.now ++ other.now) }
{
    let mut both = Vec::from_slice(alloc, one)?;
    both.extend_from_slice(other)?;
    Ok(both)
}

// A member's players with their positions.
fn players_in(
    alloc: Global,
    held: &[Holding],
    member: u8,
) -> Result<Vec<(PlayerId, Position)>, Memory>
    ensures { IfOk result (λ players. players.items ≡ players_in held.now member) }
{
    let mut players = Vec::new(alloc);
    for holding in held {
        if holding.member == member {
            players.push((holding.player, holding.position))?;
        }
    }
    Ok(players)
}

// A member's fifteen players.
fn squad_of(
    alloc: Global,
    held: &[Holding],
    member: u8,
) -> Result<[(PlayerId, Position); 15], Memory>
    requires { length (squad_in held.now member) ≡ 15 }
    ensures { IfOk result (λ squad. squad ≡ players_in held.now member) }
{
    let players = players_in(alloc, held, member)?;
    Ok(fifteen(players.as_slice()))
}

// Fifteen of them.
fn fifteen(players: &[(PlayerId, Position)]) -> [(PlayerId, Position); 15]
    requires { length players.now ≡ 15 }
    ensures { result ≡ players.now }
{
    let mut squad = [players[0]; 15];
    fill(&mut squad, players);
    squad
}

fn fill(squad: &mut [(PlayerId, Position)], players: &[(PlayerId, Position)])
    requires { length squad.old ≡ length players.now }
    ensures { squad.new ≡ players.now }
{
    squad.copy_from_slice(players);
}
