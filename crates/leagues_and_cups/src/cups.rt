// The cups of a season.
ghost use Rattle.std.specs.Prelude.{◌≡◌, ◌≤◌, ◌<◌, ◌+◌, ◌++◌, [], ◌∷◌, length, nat_lt, IfOk, IfSome, OnOk, OnErr, option_copied};
ghost use Rattle.std.specs.Option.{option_map_or};
ghost use Rattle.fpl_base.specs.declared.rule.Rule.TheVariants as rule;
ghost use Rattle.rule_book.specs.CupCalls.{most_cups};
ghost use Rattle.rule_book.specs.Entries.{entry_in};
ghost use Rattle.rule_book.specs.Refusals.{IsJudgedOrOut, unless};
ghost use Rattle.leagues_and_cups.specs.Places.{places_of};
ghost use Rattle.leagues_and_cups.specs.Shapes.{HasShape};

use crate::drawn::Drawn;
use fpl_base::{CupId, EntryId, Memory, Refused, Rule};
use rule_book::Bracket;
use std::alloc::Global;
use std::marker::Model;

/// The cups of a season, numbered from 1 in the order of their draws, at most 32. Each has as many slots as 1 to 10 rounds
/// need, and a coin for each tie. `docs/RULES.md` has this under "Cups".
#[derive(Drop)]
pub struct Cups {
    cups: Vec<Drawn>,
}

impl Model for Cups {
    ghost use Rattle.std.specs.Prelude.{List};
    ghost use Rattle.rule_book.specs.declared.cup.Bracket.{Bracket};
    ghost use Rattle.leagues_and_cups.specs.Shapes.{AreCups};

    ghost Value = { List Bracket };

    ghost view = { λ c. c.cups.items };

    ghost invariant = { λ c. AreCups c.cups.items };
}

impl Cups {
    /// No cups.
    pub fn new(alloc: Global) -> Self
        ensures { result ≡ [] }
    {
        Cups {
            cups: Vec::new(alloc),
        }
    }

    /// How many cups there are.
    pub fn count(&self) -> u32
        ensures count { result ≡ length self.now }
        ensures most { result ≤ most_cups }
    {
        self.cups.len() as u32
    }

    /// A cup; None where there is none of this number.
    pub fn get(&self, c: CupId) -> Option<&Bracket>
        ensures there { option_copied result ≡ entry_in self.now c }
        ensures shape { IfSome result (λ b. HasShape b.now) }
    {
        match self.cups.get(c.get() as usize - 1) {
            Some(drawn) => Some(drawn.bracket()),
            None => None,
        }
    }

    /// The slots of a cup in which an entry stands, by their places: what stands there, and the place, counted from 0. It
    /// is found by a search. None where there is no cup of this number.
    pub fn places(&self, c: CupId, e: EntryId) -> &[(u32, u16)]
        ensures { result.now ≡ option_map_or (λ b. places_of b.slots e) (entry_in self.now c) [] }
    {
        match self.cups.get(c.get() as usize - 1) {
            Some(drawn) => drawn.places(e),
            None => &[],
        }
    }

    // Adds a cup behind the others.
    fn put(&mut self, b: Bracket) -> Result<(), Memory>
        requires room { length self.old < most_cups }
        requires shape { HasShape b }
        ensures ok { OnOk result (self.new ≡ self.old ++ b ∷ []) }
        ensures err { OnErr result (self.new ≡ self.old) }
    {
        let drawn = Drawn::of(*self.cups.allocator(), b)?;
        self.cups.push(drawn)?;
        Ok(())
    }

    /// Adds a cup behind the others, and answers its number. `CupsFull` refuses it where 32 are there. A cup that is
    /// refused, or for which there is no memory, is let go. `check_draw` says whether a draw has the shape.
    pub fn add(&mut self, b: Bracket) -> Result<CupId, Refused>
        requires shape { HasShape b }
        ensures judged { IsJudgedOrOut
            (unless (nat_lt (length self.old) most_cups) rule.CupsFull) result }
        ensures made { IfOk result (λ c. c ≡ length self.old + 1) }
        ensures ok { OnOk result (self.new ≡ self.old ++ b ∷ []) }
        ensures err { OnErr result (self.new ≡ self.old) }
    {
        if self.cups.len() >= 32 {
            return Err(Refused::Rule(Rule::CupsFull));
        }
        let c = numbered(self.cups.len() as u32 + 1);
        self.put(b)?;
        Ok(c)
    }
}

// The cup of this number.
fn numbered(number: u32) -> CupId
    requires { 1 ≤ number }
    ensures { result ≡ number }
{
    CupId::new(number).unwrap()
}
