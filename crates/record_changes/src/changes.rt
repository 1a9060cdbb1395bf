// The change of one record.
ghost use Rattle.std.specs.Prelude.{◌≡◌, ◌<◌, None, Some, IfOk, IsTrue, OnErr};
ghost use Rattle.season_records.specs.Items.{is_item, slot_of_item};
ghost use Rattle.record_changes.specs.Batches.{Keeps};
ghost use Rattle.season_records.specs.Touched.{op_of};

use fpl_base::{Memory, Op, Tenths};
use season_records::{Item, Slot, encode};
use std::alloc::Global;

// What is kept of an item from now on.
pub fn put(alloc: Global, item: &Item) -> Result<Op, Memory>
    requires { IsTrue (is_item item.now) }
    ensures { IfOk result (Keeps (slot_of_item item.now) (Some item.now)) }
{
    let (key, body) = encode(alloc, item)?;
    Ok(Op::Put(key, body))
}

// Nothing is kept of a slot from now on.
pub fn delete(slot: Slot) -> Op
    ensures { result ≡ op_of slot None }
{
    Op::Delete(slot.key())
}

// A price as two bytes, which tell it: no player costs more than 20.0 million. One that they can't tell is answered as want
// of memory, so that no other price is ever kept; every other price is told.
pub fn price_told(price: Tenths) -> Result<u16, Memory>
    ensures told { IfOk result (λ told. told ≡ price) }
    ensures whole { OnErr result (65535 < price) }
{
    match u16::try_from(price.get()) {
        Ok(told) => Ok(told),
        Err(_) => Err(Memory),
    }
}
