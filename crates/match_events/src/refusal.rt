// Why a list of events is not changed.
ghost use Rattle.std.specs.Prelude.{◌≡◌};
ghost use Rattle.match_events.specs.Refusals.{rule_number};

use fpl_base::Memory;

/// Why a list of events may not be as a call would have it, with the place of the first event that breaks the rule, from
/// 1, in the list as it would then be.
#[derive(Clone, Copy, Debug, PartialEq, Eq)]
pub enum EventRule {
    /// Its minute is smaller than that of the event before.
    EventOrder { place: usize },
    /// Its player, or the other one of a goal, is not on the pitch.
    NotOnPitch { place: usize },
    /// He who starts or comes on by it did so before.
    AlreadyOn { place: usize },
    /// 200 events are there.
    EventsFull,
    /// Eleven of its side started before.
    StartersFull { place: usize },
    /// Who assisted is the scorer, or of the other side.
    AssistWrong { place: usize },
}

impl EventRule {
    /// Its number, from 51 to 56.
    pub fn number(self) -> u8
        ensures { result ≡ rule_number self }
    {
        match self {
            EventRule::EventOrder { .. } => 51,
            EventRule::NotOnPitch { .. } => 52,
            EventRule::AlreadyOn { .. } => 53,
            EventRule::EventsFull => 54,
            EventRule::StartersFull { .. } => 55,
            EventRule::AssistWrong { .. } => 56,
        }
    }
}

/// Why a call that changes a list of events refused: by a rule, or for want of memory. The list is as it was.
#[derive(Clone, Copy, Debug, PartialEq, Eq)]
pub enum EventRefused {
    Rule(EventRule),
    Memory,
}

impl From<EventRule> for EventRefused {
    ghost use Rattle.std.specs.Prelude.{◌≡◌};
    ghost use Rattle.match_events.specs.declared.refusal.EventRefused.TheVariants as refused;

    ghost from_gives = { λ rule gives. gives ≡ refused.Rule rule };

    fn from(rule: EventRule) -> Self {
        EventRefused::Rule(rule)
    }
}

impl From<Memory> for EventRefused {
    ghost use Rattle.std.specs.Prelude.{◌≡◌};
    ghost use Rattle.match_events.specs.declared.refusal.EventRefused.TheVariants as refused;

    ghost from_gives = { λ _ gives. gives ≡ refused.Memory };

    fn from(_: Memory) -> Self {
        EventRefused::Memory
    }
}
