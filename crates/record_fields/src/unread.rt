use fpl_base::Memory;

/// Why nothing was read.
#[derive(Clone, Copy)]
pub enum Unread {
    /// Memory ran out; what the bytes are is not said.
    Memory,
    /// No value has these bytes, or this number.
    Nothing,
}

impl From<Memory> for Unread {
    ghost use Rattle.std.specs.Prelude.{◌≡◌};
    ghost use Rattle.record_fields.specs.declared.unread.Unread.TheVariants as unread;

    ghost from_gives = { λ _ gives. gives ≡ unread.Memory };

    fn from(_: Memory) -> Self {
        Unread::Memory
    }
}
