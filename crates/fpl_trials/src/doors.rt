use fpl_base::{Doors, Sink, Source};
use listener::{FaultyDoors, MemoryDoors};
use std::alloc::Global;
use test_doubles::Plan;

// Opens the one connection of doors whose call of this number fails, answers what it sends and a mark, and gives it back: how
// many bytes its sink, which has room for three, was given back with, or none where the doors failed.
fn answered(alloc: Global, failing: u64) -> Option<usize> {
    let doors = MemoryDoors::new(alloc, &[b"ab".as_slice()], 9, 3).ok()?;
    let plan = Plan::new(vec![in alloc; failing].ok()?);
    let mut doors = FaultyDoors::new(doors, plan);
    let (mut source, mut sink) = doors.next().ok()?;
    let mut place = [0; 2];
    let _ = source.read(&mut place);
    let _ = sink.write(&place);
    let _ = sink.write(b"!!");
    doors.give_back(source, sink);
    let (_, sink) = doors.take_last()?;
    Some(sink.bytes().len())
}

#[test]
fn doors_over_memory_open_and_fail(rt: HostRuntime) {
    for (failing, wanted) in [(1, None), (2, Some(3))] {
        assert_eq!(rt; answered(rt.alloc(), failing), wanted);
    }
}
