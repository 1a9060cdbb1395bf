// The pages of a folder of this machine.
use crate::causes;
use crate::files::{Unread, front_of};
use fpl_base::{Bytes, Text};
use listener::{Pages, Unfit};
use local_requests::status::{MEMORY, SHELF};
use std::alloc::Global;
use std::fs::read_dir;
use std::io;

/// How many bytes of a file are read at least, where it has them: one more than all pages may have together.
const LONGEST: usize = 8_388_609;

/// The pages of this folder, or the status with which the program ends where a file of it is none, or cannot be read.
pub fn pages_in(rt: &HostRuntime, alloc: Global, folder: &str) -> Result<Pages, u8> {
    let mut pages = Pages::new(alloc);
    let entries = match read_dir(rt, folder) {
        Ok(entries) => entries,
        Err(fault) => return Err(missed(rt, folder, &fault)),
    };
    for entry in entries {
        let entry = match entry {
            Ok(entry) => entry,
            Err(fault) => return Err(missed(rt, folder, &fault)),
        };
        let name = Text::new(alloc, entry.file_name()).map_err(|_| MEMORY)?;
        let path = format!(in alloc; "{folder}/{}", name.text()).map_err(|_| MEMORY)?;
        match entry.file_type() {
            Ok(kind) => if kind.is_file() || kind.is_symlink() {
                add(rt, alloc, &mut pages, name.text(), path.as_str())?;
            },
            Err(fault) => return Err(missed(rt, path.as_str(), &fault)),
        }
    }
    Ok(pages)
}

// Takes in the file of this name and path.
fn add(
    rt: &HostRuntime,
    alloc: Global,
    pages: &mut Pages,
    name: &str,
    path: &str,
) -> Result<(), u8> {
    let bytes = match front_of(rt, alloc, path, LONGEST) {
        Ok(bytes) => Bytes::from_vec(bytes),
        Err(Unread::Memory) => return Err(MEMORY),
        Err(Unread::Failed(fault)) => return Err(missed(rt, path, &fault)),
    };
    match pages.add(alloc, name, bytes) {
        Ok(()) => Ok(()),
        Err(Unfit::Memory) => Err(MEMORY),
        Err(Unfit::Refused) => {
            causes::tell_refused(rt, path);
            Err(SHELF)
        }
    }
}

fn missed(rt: &HostRuntime, path: &str, fault: &io::Error) -> u8 {
    causes::tell(rt, "file", path, Some(fault));
    SHELF
}
