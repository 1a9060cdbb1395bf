// Who meets whom.
ghost use Rattle.std.specs.Prelude.{◌≡◌, ◌≤◌, ◌<◌, ◌+◌, ◌-◌, ◌%◌, ◌^◌};
ghost use Rattle.rule_book.specs.Pairings.{places, Meets, IsOpponent};

use rule_book::Opponent;

// The place that a place meets, of an even number of places.
fn met_place(count: usize, round: usize, place: usize) -> usize
    requires some { 0 < count }
    requires even { count % 2 ≡ 0 }
    requires few { count < 2 ^ 32 }
    requires within { place < count }
    ensures in_range { result < count }
    ensures meets { Meets count round place result }
{
    let last = count - 1;
    let turn = round % last;
    if place == last {
        return if turn % 2 == 0 {
            turn / 2
        } else {
            (turn + last) / 2
        };
    }
    let other = if place <= turn {
        turn - place
    } else {
        turn + last - place
    };
    if other == place { last } else { other }
}

/// Whom the member at a place meets in a round, of 2 to 64 members. Rounds are counted from 0, the one in the gameweek
/// in which the league starts; places from 0, in the order of the draw. The Average plays where the members are odd.
/// `docs/RULES.md` has this under "Head-to-head leagues".
pub fn opponent(members: usize, round: u32, place: usize) -> Opponent
    requires some { 2 ≤ members }
    requires few { members ≤ 64 }
    requires within { place < members }
    ensures { IsOpponent members round place result }
{
    let met = met_place(members + members % 2, round as usize, place);
    if met < members {
        Opponent::Place(met)
    } else {
        Opponent::Average
    }
}
