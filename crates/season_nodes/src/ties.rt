// The ties of the cups in the books.
ghost use Rattle.std.specs.Prelude.{◌≡◌, ◌<◌, ◌≤◌, ◌+◌, ◌*◌, ◌^◌, ℕ, true, length};
ghost use Rattle.leagues_and_cups.specs.Places.{places_of};
ghost use Rattle.rule_book.specs.Cups.{coin_after};
ghost use Rattle.season_nodes.specs.BookFacts.{facts_of};
ghost use Rattle.season_nodes.specs.Brackets.{part_of, ties_after};
ghost use Rattle.season_nodes.specs.Season.{bracket_of, is_live, is_played, round_of};
ghost use Rattle.season_nodes.specs.declared.nodes.Node.{Node};

use crate::books::Books;
use fpl_base::{CupId, EntryId, Gw};
use leagues_and_cups::coin;

impl Books<'_> {
    /// The slots of the cup of a number: of each the number of its entry, or 0. There are none where there is no such cup.
    pub fn slots(&self, cup: CupId) -> &[u32]
        ensures value { result.now ≡ (bracket_of (facts_of self.now) cup).slots }
        ensures few { length result.now ≤ 1024 }
        ensures shape { 0 < length result.now → (k : ℕ) × (length result.now ≡ 2 ^ k) }
    {
        match self.cups.get(cup) {
            Some(bracket) => bracket.slots.as_slice(),
            None => &[],
        }
    }

    /// The number of the gameweek with which a cup starts; 0 where there is no such cup.
    pub fn cup_start(&self, cup: CupId) -> u8
        ensures value { result ≡ (bracket_of (facts_of self.now) cup).start }
        ensures there { 0 < length (bracket_of (facts_of self.now) cup).slots → 1 ≤ result }
        ensures most { result ≤ 38 }
    {
        match self.cups.get(cup) {
            Some(bracket) => bracket.start.get(),
            None => 0,
        }
    }

    /// How many ties the round of a cup after so many rounds has; none where it has no such round.
    pub fn ties(&self, cup: CupId, round: u8) -> usize
        ensures value { result ≡ ties_after (bracket_of (facts_of self.now) cup) round }
        ensures few { result ≤ 512 }
        ensures rounds { 0 < result → round < 10 }
        ensures whole { 0 < result
            → length (bracket_of (facts_of self.now) cup).slots ≡ 2 ^ (round + 1) * result }
    {
        let slots = self.slots(cup).len();
        if round >= 10 {
            return 0;
        }
        slots >> (round + 1)
    }

    /// Whether the gameweek of the round of a cup after so many rounds is locked.
    pub fn is_played(&self, cup: CupId, round: u8) -> bool
        ensures { result ≡ is_played (facts_of self.now) cup round }
    {
        u32::from(self.cup_start(cup)) + u32::from(round) <= u32::from(self.calendar.locked())
    }

    /// Whether a tie of a cup is there in a locked gameweek.
    pub fn has_tie(&self, cup: CupId, round: u8, place: usize) -> bool
        ensures { result ≡ is_live (facts_of self.now) (Node.Tie cup round place) }
    {
        self.is_played(cup, round) && place < self.ties(cup, round)
    }

    /// The gameweek of the round of a cup after so many rounds.
    pub fn cup_gameweek(&self, cup: CupId, round: u8) -> Gw
        requires there { 0 < ties_after (bracket_of (facts_of self.now) cup) round }
        requires played { is_played (facts_of self.now) cup round ≡ true }
        ensures { result ≡ round_of (facts_of self.now) cup round }
    {
        // That at most 38 gameweeks are locked, for the prover.
        let _few = self.calendar.locked();
        Gw::new(self.cup_start(cup) + round).unwrap()
    }

    /// The slots that lead to a tie of a cup.
    pub fn part(&self, cup: CupId, round: u8, place: usize) -> &[u32]
        requires { place < ties_after (bracket_of (facts_of self.now) cup) round }
        ensures { result.now ≡ part_of (bracket_of (facts_of self.now) cup) round place }
    {
        // That a cup has few ties and rounds, for the prover.
        let _few = self.ties(cup, round);
        let width = 1usize << (round + 1);
        let low = width * place;
        &self.slots(cup)[low..low + width]
    }

    /// The slots of a cup in which an entry stands, by their places: what stands there, and the place, counted from 0.
    pub fn places(&self, cup: CupId, entry: EntryId) -> &[(u32, u16)]
        ensures { result.now ≡ places_of (bracket_of (facts_of self.now) cup).slots entry }
    {
        self.cups.places(cup, entry)
    }

    /// The coin of a tie of a cup.
    pub fn coin(&self, cup: CupId, round: u8, place: usize) -> u8
        requires { place < ties_after (bracket_of (facts_of self.now) cup) round }
        ensures { result ≡ coin_after (bracket_of (facts_of self.now) cup) round place }
    {
        match self.cups.get(cup) {
            Some(bracket) => coin(bracket, round, place),
            None => 0,
        }
    }
}
