use fpl_base::Memory;
use std::alloc::{AllocError, AllocFailed};

/// A member of a body, or the body itself.
#[derive(Clone, Copy, Debug, PartialEq, Eq)]
pub enum FieldName {
    Body,
    Number,
    Deadlines,
    Split,
    Clubs,
    Profile,
    Id,
    Name,
    Gameweek,
    Deadline,
    Position,
    Club,
    Price,
    Player,
    Gone,
    Home,
    Away,
    Kickoff,
    Lines,
    Figures,
    Finished,
    Key,
    Players,
    Captain,
    Vice,
    Swaps,
    Out,
    In,
    Chip,
    Kind,
    Code,
    Start,
    Order,
    Slots,
    Coins,
}

impl FieldName {
    ghost use Rattle.std.specs.Prelude.{◌≡◌};
    ghost use Rattle.fpl_requests.specs.FieldNames.{name_of};

    /// Its name in a body, and in the answer that names it.
    pub fn name(self) -> &'static str
        ensures { result.now ≡ name_of self }
    {
        match self {
            FieldName::Body => "body",
            FieldName::Number => "number",
            FieldName::Deadlines => "deadlines",
            FieldName::Split => "split",
            FieldName::Clubs => "clubs",
            FieldName::Profile => "profile",
            FieldName::Id => "id",
            FieldName::Name => "name",
            FieldName::Gameweek => "gameweek",
            FieldName::Deadline => "deadline",
            FieldName::Position => "position",
            FieldName::Club => "club",
            FieldName::Price => "price",
            FieldName::Player => "player",
            FieldName::Gone => "gone",
            FieldName::Home => "home",
            FieldName::Away => "away",
            FieldName::Kickoff => "kickoff",
            FieldName::Lines => "lines",
            FieldName::Figures => "figures",
            FieldName::Finished => "finished",
            FieldName::Key => "key",
            FieldName::Players => "players",
            FieldName::Captain => "captain",
            FieldName::Vice => "vice",
            FieldName::Swaps => "swaps",
            FieldName::Out => "out",
            FieldName::In => "in",
            FieldName::Chip => "chip",
            FieldName::Kind => "kind",
            FieldName::Code => "code",
            FieldName::Start => "start",
            FieldName::Order => "order",
            FieldName::Slots => "slots",
            FieldName::Coins => "coins",
        }
    }
}

/// Why a body was not read.
#[derive(Clone, Copy, Debug, PartialEq, Eq)]
pub enum ReadFault {
    /// This member is the first that is missing, of another kind or out of its range.
    Malformed { field: FieldName },
    /// Memory ran out.
    Memory,
}

impl From<Memory> for ReadFault {
    ghost use Rattle.std.specs.Prelude.{◌≡◌};
    ghost use Rattle.fpl_requests.specs.declared.field.ReadFault.TheVariants as fault;

    ghost from_gives = { λ _ gives. gives ≡ fault.Memory };

    fn from(_: Memory) -> Self {
        ReadFault::Memory
    }
}

impl From<AllocError> for ReadFault {
    ghost use Rattle.std.specs.Prelude.{◌≡◌};
    ghost use Rattle.fpl_requests.specs.declared.field.ReadFault.TheVariants as fault;

    ghost from_gives = { λ _ gives. gives ≡ fault.Memory };

    fn from(_: AllocError) -> Self {
        ReadFault::Memory
    }
}

impl<T: Drop> From<AllocFailed<T>> for ReadFault {
    ghost use Rattle.std.specs.Prelude.{◌≡◌};
    ghost use Rattle.fpl_requests.specs.declared.field.ReadFault.TheVariants as fault;

    ghost from_gives = { λ _ gives. gives ≡ fault.Memory };

    fn from(_: AllocFailed<T>) -> Self {
        ReadFault::Memory
    }
}
