// How many of the eleven stand where.
ghost use Rattle.std.specs.Prelude.{◌≡◌, ◌≤◌, ◌+◌, length, All};
ghost use Rattle.rule_book.specs.Teams.{InTeam};
ghost use Rattle.scoring.specs.Ones.{one_if};

use crate::slots::{is_defender, is_forward, is_midfielder};
use rule_book::Team;

/// The defenders, midfielders and forwards among some slots.
#[derive(Clone, Copy)]
pub(crate) struct Counts {
    pub(crate) defenders: u8,
    pub(crate) midfielders: u8,
    pub(crate) forwards: u8,
}

impl Counts {
    ghost use Rattle.scoring.specs.Counts.{AreCounts, AreCountsAfter, HasCounted};

    /// The counts of some slots.
    pub(crate) fn of(team: &Team, slots: &[u8]) -> Counts
        requires few { length slots.now ≤ 15 }
        requires known { All InTeam slots.now }
        ensures { AreCounts team.now slots.now result }
    {
        let mut defenders = 0u8;
        let mut midfielders = 0u8;
        let mut forwards = 0u8;
        for slot in slots {
            defenders += is_defender(team, *slot) as u8;
            midfielders += is_midfielder(team, *slot) as u8;
            forwards += is_forward(team, *slot) as u8;
        }
        Counts {
            defenders,
            midfielders,
            forwards,
        }
    }

    /// The counts after slot `comes` came in place of slot `goes`, which they count.
    pub(crate) fn after(self, team: &Team, goes: u8, comes: u8) -> Counts
        requires counted { HasCounted team.now goes self }
        requires goes { InTeam goes }
        requires comes { InTeam comes }
        ensures { AreCountsAfter team.now goes comes self result }
    {
        Counts {
            defenders: exchanged(
                self.defenders,
                is_defender(team, goes),
                is_defender(team, comes),
            ),
            midfielders: exchanged(
                self.midfielders,
                is_midfielder(team, goes),
                is_midfielder(team, comes),
            ),
            forwards: exchanged(
                self.forwards,
                is_forward(team, goes),
                is_forward(team, comes),
            ),
        }
    }
}

// A count after one came for another.
fn exchanged(count: u8, goes: bool, comes: bool) -> u8
    requires few { count ≤ 11 }
    requires counted { one_if goes ≤ count }
    ensures { result + one_if goes ≡ count + one_if comes }
{
    count + comes as u8 - goes as u8
}
