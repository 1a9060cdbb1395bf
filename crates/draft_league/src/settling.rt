// Waivers: how things stand on the way, and the bids of a gameweek settled one after another.
ghost use Rattle.std.specs.Prelude.{◌≡◌, IfOk, OnOk, MatchOption, None, false};
ghost use Rattle.std.specs.List.{AllByRecursion as Each};
ghost use Rattle.draft_league.specs.Kept.{AreFair};
ghost use Rattle.draft_league.specs.Leagues.{table_by};
ghost use Rattle.draft_league.specs.Settling.{HasTurn, IsFirst, IsNext, is_granted};
ghost use Rattle.draft_league.specs.Waivers.{AreSettled, after, after_all, end_of, first_order, first_with, has_bid, settled_as, to_end};
ghost use Rattle.draft_league.specs.declared.kinds.Bid.{Bid as Placed};

use crate::holdings::{exchange, owner_in};
use crate::{Bid, End, Holding, Outcome};
use fpl_base::{Gw, Memory};
use std::alloc::Global;
use std::marker::Model;

// Who owns whom, and the order of the members.
#[derive(Drop)]
pub(crate) struct Standing {
    held: Vec<Holding>,
    order: Vec<u8>,
}

impl Model for Standing {
    ghost use Rattle.draft_league.specs.Waivers.{Table};

    ghost Value = { Table };

    ghost view = { λ s. record { held = s.held.items; order = s.order.items } };
}

impl Standing {
    // How things stand as the waivers begin.
    pub(crate) fn first(alloc: Global, members: u8, drafted: &[Holding]) -> Result<Self, Memory>
        ensures { IfOk result
            (λ standing. standing ≡ record { held = drafted.now; order = first_order members }) }
    {
        let held = Vec::from_slice(alloc, drafted)?;
        let order = first_order(alloc, members)?;
        Ok(Standing { held, order })
    }

    pub(crate) fn held(&self) -> &[Holding]
        ensures { result.now ≡ self.now.held }
    {
        self.held.as_slice()
    }

    // Who owns whom.
    pub(crate) fn into_held(self) -> Vec<Holding>
        ensures { result.items ≡ self.held }
    {
        let Standing { held, order: _ } = self;
        held
    }

    // An outcome comes about.
    pub(crate) fn follow(&mut self, alloc: Global, outcome: &Outcome) -> Result<(), Memory>
        ensures { OnOk result (self.new ≡ after self.old outcome.now) }
    {
        if !is_granted(outcome.end) {
            return Ok(());
        }
        self.order = to_end(alloc, outcome.member, self.order.as_slice())?;
        exchange(&mut self.held, outcome.out, outcome.into);
        Ok(())
    }

    // These outcomes come about, one after another.
    pub(crate) fn follow_all(&mut self, alloc: Global, outcomes: &[Outcome]) -> Result<(), Memory>
        ensures { OnOk result (self.new ≡ after_all self.old outcomes.now) }
    {
        for outcome in outcomes {
            self.follow(alloc, outcome)?;
        }
        Ok(())
    }

    // Those of gameweeks up to this one come about, before the first of a later one.
    pub(crate) fn follow_up_to(
        &mut self,
        alloc: Global,
        g: Gw,
        outcomes: &[Outcome],
    ) -> Result<(), Memory>
        ensures { OnOk result (self.new ≡ table_by g self.old outcomes.now) }
    {
        for outcome in outcomes {
            if outcome.gw > g {
                return Ok(());
            }
            self.follow(alloc, outcome)?;
        }
        Ok(())
    }

    // The place of the first bid of the first member of the order who has one.
    fn next_place(&self, left: &[Bid]) -> Option<usize>
        ensures { MatchOption result (first_with left.now self.now.order ≡ None)
            (IsNext self.now.order left.now) }
    {
        match first_with(left, self.order.as_slice()) {
            Some(member) => place_of(left, member),
            None => None,
        }
    }

    // What becomes of a bid.
    fn settle_one(&mut self, alloc: Global, bid: &Bid) -> Result<Outcome, Memory>
        ensures outcome { IfOk result
            (λ outcome. outcome ≡ settled_as bid.now (end_of self.old.held bid.now)) }
        ensures after { IfOk result (λ outcome. self.new ≡ after self.old outcome) }
    {
        let outcome = Outcome {
            gw: bid.gw,
            member: bid.member,
            into: bid.into,
            out: bid.out,
            end: end_of(self.held.as_slice(), bid),
        };
        self.follow(alloc, &outcome)?;
        Ok(outcome)
    }

    // The outcomes of these bids.
    pub(crate) fn settle(&mut self, alloc: Global, bids: Vec<Bid>) -> Result<Vec<Outcome>, Memory>
        requires { Each (λ (bid : Placed). HasTurn self.old.order bid.member) bids.items }
        ensures settled { IfOk result (λ outcomes. AreSettled self.old bids.items outcomes.items) }
        ensures fair { IfOk result (λ outcomes. AreFair self.old outcomes.items) }
        ensures after { IfOk result (λ outcomes. self.new ≡ after_all self.old outcomes.items) }
    {
        let mut left = bids;
        let mut outcomes = Vec::new(alloc);
        while let Some(place) = self.next_place(left.as_slice()) {
            let bid = left.remove(place);
            let outcome = self.settle_one(alloc, &bid)?;
            outcomes.push(outcome)?;
        }
        Ok(outcomes)
    }
}

fn is_granted(end: End) -> bool
    ensures { result ≡ is_granted end }
{
    matches!(end, End::Granted)
}

// What becomes of a bid.
fn end_of(held: &[Holding], bid: &Bid) -> End
    ensures { result ≡ end_of held.now bid.now }
{
    match owner_in(held, bid.into) {
        Some(_) => End::Owned,
        None => match owner_in(held, bid.out) {
            Some(owner) => {
                if owner == bid.member {
                    End::Granted
                } else {
                    End::Gone
                }
            }
            None => End::Gone,
        },
    }
}

// The first member of the order who has one of these bids.
fn first_with(bids: &[Bid], order: &[u8]) -> Option<u8>
    ensures { result ≡ first_with bids.now order.now }
{
    for member in order {
        if has_bid(bids, *member) {
            return Some(*member);
        }
    }
    None
}

fn has_bid(bids: &[Bid], member: u8) -> bool
    ensures { result ≡ has_bid bids.now member }
{
    bids.iter().any(|bid| bid.member == member)
}

// The place of a member's first bid.
fn place_of(bids: &[Bid], member: u8) -> Option<usize>
    ensures { MatchOption result (has_bid bids.now member ≡ false) (IsFirst bids.now member) }
{
    for (place, bid) in bids.iter().enumerate() {
        if bid.member == member {
            return Some(place);
        }
    }
    None
}

// The order of so many members as the waivers begin.
fn first_order(alloc: Global, members: u8) -> Result<Vec<u8>, Memory>
    ensures { IfOk result (λ order. order.items ≡ first_order members) }
{
    let mut order = Vec::new(alloc);
    for place in 0..members {
        order.push(members - place)?;
    }
    Ok(order)
}

// The order in which this member comes last.
fn to_end(alloc: Global, member: u8, order: &[u8]) -> Result<Vec<u8>, Memory>
    ensures { IfOk result (λ moved. moved.items ≡ to_end member order.now) }
{
    let mut moved = Vec::new(alloc);
    for other in order {
        if *other != member {
            moved.push(*other)?;
        }
    }
    moved.push(member)?;
    Ok(moved)
}
