// The first bytes of a file of this machine.
use std::alloc::Global;
use std::fs::File;
use std::io;
use std::io::Read;

/// How many bytes a read asks for.
const PIECE: usize = 65_536;

/// Why a file was not read.
#[derive(Drop)]
pub enum Unread {
    Failed(io::Error),
    Memory,
}

/// The bytes of the file of a path, or some first ones of it, and so many at least.
pub fn front_of(
    rt: &HostRuntime,
    alloc: Global,
    path: &str,
    least: usize,
) -> Result<Vec<u8>, Unread> {
    let mut file = match File::open(rt, path) {
        Ok(file) => file,
        Err(fault) => return Err(Unread::Failed(fault)),
    };
    let mut place = [0; PIECE];
    let mut bytes = Vec::new(alloc);
    for _ in 0..=least {
        if bytes.len() >= least {
            return Ok(bytes);
        }
        let count = match file.read(&mut place) {
            Ok(count) => count,
            Err(fault) => return Err(Unread::Failed(fault)),
        };
        if count == 0 {
            return Ok(bytes);
        }
        if bytes.extend_from_slice(&place[..count]).is_err() {
            return Err(Unread::Memory);
        }
    }
    Ok(bytes)
}
