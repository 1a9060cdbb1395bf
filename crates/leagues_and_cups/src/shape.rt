// The rounds of a cup and its coins.
ghost use Rattle.std.specs.Prelude.{◌≡◌, ◌≤◌, ◌^◌, length};
ghost use Rattle.rule_book.specs.CupRounds.{rounds_of};
ghost use Rattle.rule_book.specs.Cups.{coin_after};
ghost use Rattle.leagues_and_cups.specs.Shapes.{HasShape, IsTieAfter};

use crate::cup_draw::rounds_of;
use rule_book::Bracket;

/// How many rounds a cup has, from 1 to 10. Round r, from 1, is played in the gameweek that is r - 1 after the start.
pub fn rounds(b: &Bracket) -> u8
    requires shape { HasShape b.now }
    ensures value { result ≡ rounds_of b.now }
    ensures slots { length b.now.slots ≡ 2 ^ result }
    ensures some { 1 ≤ result }
    ensures most { result ≤ 10 }
{
    rounds_of(b.slots.as_slice().len()).unwrap()
}

/// The coin of a tie of the round after so many rounds, ties from 0: the coins of the rounds before stand in front.
pub fn coin(b: &Bracket, round: u8, tie: usize) -> u8
    requires shape { HasShape b.now }
    requires tie { IsTieAfter b.now round tie }
    ensures { result ≡ coin_after b.now round tie }
{
    let slots = b.slots.as_slice().len();
    b.coins.as_slice()[slots - (slots >> round) + tie]
}
