// Records of bytes.
ghost use Rattle.std.specs.Prelude.{◌≡◌, IfOk};
ghost use Rattle.season_records.specs.ItemReading.{item_of};

use crate::read_items::item_in;
use crate::{Item, Slot};
use fpl_base::{Memory, RecordKey};
use record_fields::Unread;
use std::alloc::Global;

/// The record of a key and a body; `Ok(None)` exactly where no item has them. It takes memory.
pub fn decode(alloc: Global, key: RecordKey, body: &[u8]) -> Result<Option<Item>, Memory>
    ensures { IfOk result (λ item. item ≡ item_of key body.now) }
{
    let Some(slot) = Slot::of(key) else {
        return Ok(None);
    };
    match item_in(alloc, slot, body) {
        Ok(item) => Ok(Some(item)),
        Err(Unread::Nothing) => Ok(None),
        Err(Unread::Memory) => Err(Memory),
    }
}
