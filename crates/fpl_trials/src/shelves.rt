use fpl_base::Shelf;
use season_folder::{FaultyShelf, MemoryShelf};
use std::alloc::Global;
use test_doubles::Plan;

// How many bytes a shelf of two files gives of a name: none at a fault.
fn known(alloc: Global, name: &str) -> Option<usize> {
    let files = [
        ("clubs.csv", b"1,Arsenal".as_slice()),
        ("players.csv", b"".as_slice()),
    ];
    let bytes = MemoryShelf::new(&files).read(alloc, name).ok()?;
    Some(bytes.as_slice().len())
}

// The same of one whose first call gives the clubs, and whose call of this number fails, by its second call.
fn failing(alloc: Global, call: u64, name: &str) -> Option<usize> {
    let files = [
        ("clubs.csv", b"1,Arsenal".as_slice()),
        ("players.csv", b"".as_slice()),
    ];
    let plan = Plan::new(vec![in alloc; call].ok()?);
    let mut shelf = FaultyShelf::new(MemoryShelf::new(&files), plan);
    let _ = shelf.read(alloc, "clubs.csv");
    let bytes = shelf.read(alloc, name).ok()?;
    Some(bytes.as_slice().len())
}

#[test]
fn files_are_read_by_their_names(rt: HostRuntime) {
    for (name, wanted, second, third) in [
        ("clubs.csv", Some(9), None, Some(9)),
        ("players.csv", Some(0), None, Some(0)),
        ("clubs", Some(0), None, None),
    ] {
        assert_eq!(rt; known(rt.alloc(), name), wanted);
        assert_eq!(rt; failing(rt.alloc(), 2, name), second);
        assert_eq!(rt; failing(rt.alloc(), 3, name), third);
    }
}
