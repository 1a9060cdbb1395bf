// A tree of places by their keys.
ghost use Rattle.std.specs.Prelude.{◌≡◌, IfOk, OnOk, OnErr};
ghost use Rattle.std.specs.List.{All};
ghost use Rattle.fpl_base.specs.Keeping.{applied, applied_one};
ghost use Rattle.record_keepers.specs.Records.{records, bodies_in, AreOrdered, HasPlace, IsExchanged, IsFilled, IsStored, undone};

use fpl_base::{Bytes, Memory, Op, RecordKey};
use std::alloc::Global;
use std::collections::BTreeMap;
use std::mem;

// The place of each key. A key whose place is empty has no record.
pub type Places = BTreeMap<RecordKey, Option<Bytes>>;

// Keys, each with what stood in its place before a change.
pub type Former = Vec<(RecordKey, Option<Bytes>)>;

// The records, in the order of their keys, once more.
pub fn copy_of_records(alloc: Global, tree: &Places) -> Result<Vec<(RecordKey, Bytes)>, Memory>
    ensures { IfOk result (λ copy. copy.items ≡ records tree.now.entries) }
{
    let mut copy = Vec::new(alloc);
    for (key, place) in tree {
        if let Some(body) = place {
            copy.push((*key, copy_of_body(alloc, body)?))?;
        }
    }
    Ok(copy)
}

fn copy_of_body(alloc: Global, body: &Bytes) -> Result<Bytes, Memory>
    ensures { IfOk result (λ copy. copy ≡ body.now) }
{
    Ok(Bytes::from_vec(Vec::from_slice(alloc, body.as_slice())?))
}

// Makes the changes, in their order; where memory runs out, the map is left as it was. Each key is looked up once: what
// stood in its place is kept in the list until all changes are made.
pub fn store(
    alloc: Global,
    tree: &mut Places,
    former: &mut Former,
    ops: &[Op],
) -> Result<(), Memory>
    requires { AreOrdered tree.old.entries }
    ensures stored { OnOk result
        (bodies_in tree.new.entries ≡ applied (bodies_in tree.old.entries) ops.now) }
    ensures kept { OnErr result (bodies_in tree.new.entries ≡ bodies_in tree.old.entries) }
    ensures order { AreOrdered tree.new.entries }
{
    former.clear();
    former.reserve(ops.len())?;
    for op in ops {
        match change(alloc, tree, op) {
            Ok(was) => former.push_reserved(was),
            Err(memory) => {
                put_back(tree, former);
                return Err(memory);
            }
        }
    }
    former.clear();
    Ok(())
}

// Makes one change, and gives the key with what stood in its place.
fn change(alloc: Global, tree: &mut Places, op: &Op) -> Result<(RecordKey, Option<Bytes>), Memory>
    requires { AreOrdered tree.old.entries }
    ensures stored { OnOk result
        (bodies_in tree.new.entries ≡ applied_one (bodies_in tree.old.entries) op.now) }
    ensures was { IfOk result (IsStored tree.old.entries tree.new.entries) }
    ensures kept { OnErr result (tree.new.entries ≡ tree.old.entries) }
    ensures order { AreOrdered tree.new.entries }
{
    match op {
        Op::Put(key, body) => exchange(tree, *key, Some(copy_of_body(alloc, body)?)),
        Op::Delete(key) => exchange(tree, *key, None),
    }
}

// Sets the place of a key, and gives the key with what stood there. It takes memory where the tree lacks the key.
fn exchange(
    tree: &mut Places,
    key: RecordKey,
    place: Option<Bytes>,
) -> Result<(RecordKey, Option<Bytes>), Memory>
    requires { AreOrdered tree.old.entries }
    ensures stored { IfOk result (IsExchanged key place tree.old.entries tree.new.entries) }
    ensures kept { OnErr result (tree.new.entries ≡ tree.old.entries) }
    ensures order { AreOrdered tree.new.entries }
{
    if let Some(there) = tree.get_mut(&key) {
        return Ok((key, mem::replace(there, place)));
    }
    if place.is_some() {
        tree.insert(key, place)?;
    }
    Ok((key, None))
}

// Puts back what stood in places, the last one first.
fn put_back(tree: &mut Places, former: &mut Former)
    requires order { AreOrdered tree.old.entries }
    requires places { All (HasPlace tree.old.entries) former.old.items }
    ensures map { bodies_in tree.new.entries
        ≡ undone (bodies_in tree.old.entries) former.old.items }
    ensures order { AreOrdered tree.new.entries }
{
    while let Some(was) = former.pop() {
        fill(tree, was);
    }
}

// Puts back what stood in one place, if the tree has it.
fn fill(tree: &mut Places, was: (RecordKey, Option<Bytes>))
    ensures filled { IsFilled was.0 was.1 tree.old.entries tree.new.entries }
    ensures order { AreOrdered tree.new.entries }
{
    let (key, place) = was;
    if let Some(there) = tree.get_mut(&key) {
        *there = place;
    }
}
