// Shelves over memory: a form that never fails, and one that fails at calls that are listed.
ghost use Rattle.std.specs.Prelude.{◌≡◌, ◌≢◌, ◌≤◌, ◌<◌, ◌↔◌, [], Err, IfOk, IsTrue, MatchOption, Some, false, length, map, true};
ghost use Rattle.test_doubles.specs.Plans.{after_call};
ghost use Rattle.fpl_base.specs.Shelves.{HasShelfCause};
ghost use Rattle.fpl_base.specs.declared.outside.ShelfFault.TheVariants as fault;
ghost use Rattle.season_folder.specs.Files.{bytes_of, faults_of, has_file, missed_after, read_fails};

use crate::LONGEST;
use fpl_base::{Bytes, Shelf, ShelfFault, Source};
use std::alloc::Global;
use std::marker::Model;
use test_doubles::{FaultySource, Plan};

/// Files that are known beforehand, each by its name and its bytes. It never fails; a name of which there is no file has no
/// bytes.
#[derive(Drop)]
pub struct MemoryShelf<'a> {
    files: &'a [(&'a str, &'a [u8])],
}

impl<'a> Model for MemoryShelf<'a> {
    ghost use Rattle.std.specs.Prelude.{List, ℕ, map};

    ghost Value = { List (List ℕ × List ℕ) };

    ghost view = { λ s. map {B = List ℕ × List ℕ} (λ file. (file.0.now, file.1.now)) s.files.now };
}

impl<'a> MemoryShelf<'a> {
    /// A shelf with these files. Of two with one name the first is read.
    pub fn new(files: &'a [(&'a str, &'a [u8])]) -> Self
        ensures { result ≡ map (λ file. (file.0.now, file.1.now)) files.now }
    {
        MemoryShelf { files }
    }

    // The bytes of the file of a name.
    fn find(&self, name: &str) -> Option<&[u8]>
        ensures { MatchOption result
            ((has_file self.now name.now ≡ false) × (bytes_of self.now name.now ≡ []))
            (λ bytes. (has_file self.now name.now ≡ true)
            × (bytes.now ≡ bytes_of self.now name.now)) }
    {
        found(self.files, name)
    }
}

// The bytes of the first of these files that has the name.
fn found<'a>(files: &[(&'a str, &'a [u8])], name: &str) -> Option<&'a [u8]>
    ensures { MatchOption result
        ((has_file (map (λ file. (file.0.now, file.1.now)) files.now) name.now ≡ false)
        × (bytes_of (map (λ file. (file.0.now, file.1.now)) files.now) name.now ≡ []))
        (λ bytes. (has_file (map (λ file. (file.0.now, file.1.now)) files.now) name.now ≡ true)
        × (bytes.now ≡ bytes_of (map (λ file. (file.0.now, file.1.now)) files.now) name.now)) }
{
    match files {
        [] => None,
        [file, others @ ..] => {
            if file.0 == name {
                Some(file.1)
            } else {
                found(others, name)
            }
        }
    }
}

// A copy of the bytes of a file, unless it is too long.
fn taken(alloc: Global, bytes: &[u8]) -> Result<Bytes, ShelfFault>
    ensures same { IfOk result (λ copy. copy ≡ bytes.now) }
    ensures short { IfOk result (λ copy. length copy ≤ 4194304) }
    ensures long { result ≡ Err fault.Long → 4194304 < length bytes.now }
    ensures never { result ≢ Err fault.Failed }
{
    if bytes.len() > LONGEST {
        return Err(ShelfFault::Long);
    }
    match Vec::from_slice(alloc, bytes) {
        Ok(copy) => Ok(Bytes::from_vec(copy)),
        Err(_) => Err(ShelfFault::Memory),
    }
}

impl<'a> Shelf for MemoryShelf<'a> {
    ghost use Rattle.std.specs.Prelude.{Some};
    ghost use Rattle.season_folder.specs.Files.{bytes_of};

    ghost files = { λ s. Some (bytes_of s) };

    ghost faults = { λ _. 0 };

    fn read(&mut self, alloc: Global, name: &str) -> Result<Bytes, ShelfFault>
        ensures gave { IfOk result (λ bytes. bytes ≡ bytes_of self.old name.now) }
        ensures short { IfOk result (λ bytes. length bytes ≤ 4194304) }
        ensures long { result ≡ Err fault.Long → 4194304 < length (bytes_of self.old name.now) }
        ensures kept { Some (bytes_of self.new) ≡ Some (bytes_of self.old) }
        ensures cause { HasShelfCause 0 0 result }
        ensures same { self.new ≡ self.old }
    {
        taken(alloc, self.find(name).unwrap_or(b""))
    }
}

/// The same files, of which a read fails where its plan lists the call, and where no file has the name.
#[derive(Drop)]
pub struct FaultyShelf<'a> {
    shelf: MemoryShelf<'a>,
    // A source of no bytes, which is read once in each call and fails by the plan.
    calls: FaultySource<'static>,
    // How many calls failed because no file had the name.
    missed: u64,
}

impl<'a> Model for FaultyShelf<'a> {
    ghost use Rattle.season_folder.specs.Files.{PlannedShelf};

    ghost Value = { PlannedShelf };

    ghost view = { λ s. record { files = s.shelf; plan = s.calls.plan; missed = s.missed } };
}

impl<'a> FaultyShelf<'a> {
    /// A shelf with the files of the other one.
    pub fn new(shelf: MemoryShelf<'a>, plan: Plan) -> Self
        ensures { result ≡ record { files = shelf.entry; plan = plan; missed = 0 } }
    {
        FaultyShelf {
            shelf,
            calls: FaultySource::new(b"", 1, plan),
            missed: 0,
        }
    }
}

impl<'a> Shelf for FaultyShelf<'a> {
    ghost use Rattle.std.specs.Prelude.{Some};
    ghost use Rattle.season_folder.specs.Files.{bytes_of, faults_of};

    ghost files = { λ s. Some (bytes_of s.files) };

    ghost faults = { λ s. faults_of s };

    fn read(&mut self, alloc: Global, name: &str) -> Result<Bytes, ShelfFault>
        ensures gave { IfOk result (λ bytes. bytes ≡ bytes_of self.old.files name.now) }
        ensures short { IfOk result (λ bytes. length bytes ≤ 4194304) }
        ensures long { result ≡ Err fault.Long
            → 4194304 < length (bytes_of self.old.files name.now) }
        ensures kept { Some (bytes_of self.new.files) ≡ Some (bytes_of self.old.files) }
        ensures cause { HasShelfCause (faults_of self.old) (faults_of self.new) result }
        ensures fails { (result ≡ Err fault.Failed) ↔ IsTrue (read_fails self.old name.now) }
        ensures files { self.new.files ≡ self.old.files }
        ensures plan { self.new.plan ≡ after_call self.old.plan }
        ensures missed { self.new.missed ≡ missed_after self.old name.now }
    {
        if self.calls.read(&mut [0; 0]).is_err() {
            return Err(ShelfFault::Failed);
        }
        match self.shelf.find(name) {
            Some(bytes) => taken(alloc, bytes),
            None => {
                self.missed = self.missed.saturating_add(1);
                Err(ShelfFault::Failed)
            }
        }
    }
}
