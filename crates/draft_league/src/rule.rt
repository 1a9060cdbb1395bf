ghost use Rattle.std.specs.Prelude.{◌≡◌};
ghost use Rattle.draft_league.specs.RuleNumbers.{number_of};

use fpl_base::{Gw, Memory};

/// Why a call was refused, with what the refusal keeps.
#[derive(Clone, Copy, Debug, PartialEq, Eq)]
pub enum DraftRule {
    /// The picked player has this owner.
    Owned { owner: u8 },
    /// All fifteen picks of each member were made.
    DraftOver,
    /// The member whose turn it is has enough players of this position.
    PositionFull,
    /// Picks are still to be made.
    DraftOpen,
    /// The gameweek is not after the last whose waivers were settled, which is this one.
    WaiveOrder { gameweek: Gw },
    /// A hundred bids of the member wait.
    BidsFull,
    /// The member does not own the player who would go.
    BidNotHeld,
    /// The player who would come has another position than the one who would go.
    BidPosition,
}

impl DraftRule {
    /// Its number, as the program tells it.
    pub fn number(self) -> u8
        ensures { result ≡ number_of self }
    {
        match self {
            DraftRule::Owned { .. } => 57,
            DraftRule::DraftOver => 58,
            DraftRule::PositionFull => 59,
            DraftRule::DraftOpen => 60,
            DraftRule::WaiveOrder { .. } => 61,
            DraftRule::BidsFull => 62,
            DraftRule::BidNotHeld => 63,
            DraftRule::BidPosition => 64,
        }
    }
}

/// Why a call that takes memory was refused: by a rule of draft leagues, or for want of memory. Either leaves the league as
/// it was.
#[derive(Clone, Copy, Debug, PartialEq, Eq)]
pub enum DraftRefused {
    Rule(DraftRule),
    Memory,
}

impl From<DraftRule> for DraftRefused {
    ghost use Rattle.draft_league.specs.declared.rule.DraftRefused.TheVariants as refused;

    ghost from_gives = { λ rule gives. gives ≡ refused.Rule rule };

    fn from(rule: DraftRule) -> Self {
        DraftRefused::Rule(rule)
    }
}

impl From<Memory> for DraftRefused {
    ghost use Rattle.draft_league.specs.declared.rule.DraftRefused.TheVariants as refused;

    ghost from_gives = { λ _ gives. gives ≡ refused.Memory };

    fn from(_: Memory) -> Self {
        DraftRefused::Memory
    }
}
