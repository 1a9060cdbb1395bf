// Why the program ended, for a person who reads its standard error.
use file_keeper::Cause;
use std::fs::OpenOptions;
use std::io;

/// Tells what failed, by its kind and its name, and why where the system told it.
pub fn tell(rt: &HostRuntime, kind: &str, name: &str, why: Option<&io::Error>) {
    let _ = match why {
        Some(fault) => eprintln!(rt; "kowhirupe: {kind} {name}: {fault}"),
        None => eprintln!(rt; "kowhirupe: {kind} {name}: failed"),
    };
}

/// Tells that the store of this path failed: with what the system says where its file cannot be opened, and else with what the
/// database says where it was not opened.
pub fn tell_store(rt: &HostRuntime, path: &str, cause: &Cause) {
    let mut options = OpenOptions::new();
    options.read(true).write(true);
    match options.open(rt, path) {
        Ok(_) => tell_database(rt, path, cause),
        Err(fault) => tell(rt, "store", path, Some(&fault)),
    }
}

fn tell_database(rt: &HostRuntime, path: &str, cause: &Cause) {
    match cause.words(rt.alloc()) {
        Some(words) => {
            let _ = eprintln!(rt; "kowhirupe: store {path}: {words}");
        }
        None => tell(rt, "store", path, None),
    }
}

/// Tells that no connection could be taken of this port.
pub fn tell_port(rt: &HostRuntime, port: u16, why: Option<&io::Error>) {
    let _ = match why {
        Some(fault) => eprintln!(rt; "kowhirupe: port {port}: {fault}"),
        None => eprintln!(rt; "kowhirupe: port {port}: failed"),
    };
}

/// Tells that a file is no page, or that there are too many of them.
pub fn tell_refused(rt: &HostRuntime, path: &str) {
    let _ = eprintln!(rt; "kowhirupe: file {path}: not a page, or too many or too large");
}
