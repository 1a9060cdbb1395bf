// A shelf of the files of this machine, the trusted edge: it counts each error and tells no bytes.
ghost use Rattle.std.specs.Prelude.{◌≡◌, ◌≤◌, ◌<◌, Err, IfOk, IfSome, None, length};
ghost use Rattle.std.specs.Io.KnownBytes.{Consumes, IsAtEnd};
ghost use Rattle.season_folder.specs.declared.disk.Unread.TheVariants as unread;

use crate::LONGEST;
use fpl_base::{Bytes, Shelf, ShelfFault, Text};
use std::alloc::Global;
use std::fs::File;
use std::io;
use std::io::Read;
use std::rt::Files;

/// How many bytes a read asks for.
const PIECE: usize = 65_536;

/// The files of this machine, each by its path. A file that is not there, or that cannot be read, is a fault.
#[derive(Drop)]
pub struct Disk<'a, R: Files> {
    rt: &'a R,
    faults: u64,
    missed: Option<(Text, io::Error)>,
}

/// Why the bytes of a file were not read.
#[derive(Drop)]
enum Unread {
    Failed(io::Error),
    Long,
    Memory,
}

impl<'a, R: Files> Disk<'a, R> {
    /// Nothing is opened yet.
    pub fn new(rt: &'a R) -> Self
        ensures { result.faults ≡ 0 }
    {
        Disk {
            rt,
            faults: 0,
            missed: None,
        }
    }

    /// Which file failed last, by its path, and why, where one did and there was memory for the path.
    pub fn missed(&self) -> Option<(&str, &io::Error)> {
        match &self.missed {
            Some((path, fault)) => Some((path.text(), fault)),
            None => None,
        }
    }

    // The bytes of the file of a path.
    fn read_file(&self, alloc: Global, path: &str) -> Result<Bytes, Unread>
        ensures { IfOk result (λ bytes. length bytes ≤ 4194304) }
    {
        match File::open(self.rt, path) {
            Ok(mut file) => whole(alloc, &mut file),
            Err(fault) => Err(Unread::Failed(fault)),
        }
    }
}

// All bytes that a reader has.
fn whole<R: Read>(alloc: Global, file: &mut R) -> Result<Bytes, Unread>
    ensures all { IfOk result
        (λ bytes. Consumes (R.remaining file.old) (R.remaining file.new) bytes
        × IsAtEnd (R.remaining file.new)) }
    ensures few { IfOk result (λ bytes. length bytes ≤ 4194304) }
    ensures long { result ≡ Err unread.Long
        → IfSome (R.remaining file.old) (λ bytes. 4194304 < length bytes) }
{
    let mut place = [0; PIECE];
    let mut bytes = Vec::new(alloc);
    for _ in 0..=LONGEST {
        let count = file
            .read(&mut place)
            .map_err(|fault| Unread::Failed(fault))?;
        if count == 0 {
            return Ok(Bytes::from_vec(bytes));
        }
        if bytes.len() + count > LONGEST {
            return Err(Unread::Long);
        }
        if bytes.extend_from_slice(&place[..count]).is_err() {
            return Err(Unread::Memory);
        }
    }
    Err(Unread::Long)
}

impl<'a, R: Files> Shelf for Disk<'a, R> {
    ghost use Rattle.std.specs.Prelude.{None};

    ghost files = { λ _. None };

    ghost faults = { λ s. s.faults };

    fn read(&mut self, alloc: Global, name: &str) -> Result<Bytes, ShelfFault> {
        match self.read_file(alloc, name) {
            Ok(bytes) => Ok(bytes),
            Err(Unread::Failed(fault)) => {
                self.faults = self.faults.saturating_add(1);
                if let Ok(path) = Text::new(alloc, name) {
                    self.missed = Some((path, fault));
                }
                Err(ShelfFault::Failed)
            }
            Err(Unread::Long) => Err(ShelfFault::Long),
            Err(Unread::Memory) => Err(ShelfFault::Memory),
        }
    }
}
