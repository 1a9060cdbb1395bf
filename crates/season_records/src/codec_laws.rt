ghost use Rattle.season_records.specs.Keys.{HasItsName, NamesItsSlot};
ghost use Rattle.season_records.specs.Laws.{CommandsAreRead, CommandsDiffer, ItemsAreRead, ReadCommandsCanBe, ReadItemsCanBe};

/// A law on the definitions: a key that names a slot is that slot's own, and each slot is named by its key.
pub fn keys_are_of_slots()
    ensures named { NamesItsSlot }
    ensures own { HasItsName }
{}

/// A law on the definitions: different commands that can be ordered have different bytes, and what is read of bytes is
/// the command that has them.
pub fn commands_have_their_bytes()
    ensures differ { CommandsDiffer }
    ensures again { CommandsAreRead }
    ensures read { ReadCommandsCanBe }
{}

/// A law on the definitions: an item that can be is read of its key and body, and what is read of a key and a body is
/// such an item with this key and this body.
pub fn records_have_one_spelling()
    ensures again { ItemsAreRead }
    ensures read { ReadItemsCanBe }
{}
