// Doors over a port of this machine, the trusted edge: they count each error, and tell no connections.
ghost use Rattle.std.specs.Prelude.{◌≡◌, [], None, IfOk};

use crate::ends::{Asked, Told};
use crate::hall::Hall;
use crate::pages::Pages;
use crate::shown::Shown;
use fpl_base::{Doors, Failed};
use std::alloc::Global;
use std::io;
use std::io::ErrorKind;
use std::net::Net;
use std::time::{Clock, Duration};

/// A port of 127.0.0.1, bound at the first call of `next`, with so many clients at once. Each message of a client is a
/// connection of its own to who asks for the next one, in the order in which they came whole. A client that is slow, idle or
/// gone keeps nobody waiting, and one on which nothing moves for 60 seconds is closed.
#[derive(Drop)]
pub struct Gathering<'a, R> {
    rt: &'a R,
    alloc: Global,
    port: u16,
    most: usize,
    pages: Option<Pages>,
    shown: Option<Shown>,
    hall: Option<Hall>,
    faults: u64,
    fault: Option<io::Error>,
}

impl<'a, R: Net + Clock> Gathering<'a, R> {
    /// Doors over this port, which is not bound yet, for so many clients at once. Messages that ask for a page are answered with
    /// it, and are no connections.
    pub fn at(rt: &'a R, alloc: Global, port: u16, most: u16, pages: Option<Pages>) -> Self
        ensures { ⟦<Gathering<'a, R> as Doors>⟧.faults result ≡ 0 }
    {
        Gathering {
            rt,
            alloc,
            port,
            most: most as usize,
            pages,
            shown: None,
            hall: None,
            faults: 0,
            fault: None,
        }
    }

    /// Why the doors failed last, where they did.
    pub fn fault(&self) -> Option<&io::Error> {
        self.fault.as_ref()
    }

    /// Waits, so long at most, until all answers are taken.
    pub fn farewell(&mut self, most: Duration) {
        if let Some(hall) = &mut self.hall {
            let _ = hall.farewell(self.rt, most);
        }
    }
}

// The next message, over doors that are opened first.
fn next_of<R: Net + Clock>(doors: &mut Gathering<'_, R>) -> io::Result<(Asked, Told)>
    ensures ends { IfOk result (λ ends. (ends.1.faults ≡ 0) × (ends.1.bytes.items ≡ [])) }
    ensures faults { doors.new.faults ≡ doors.old.faults }
{
    if let Some(pages) = doors.pages.take() {
        match Shown::new(doors.alloc, pages) {
            Ok(shown) => doors.shown = Some(shown),
            Err(_) => return Err(io::Error::from(ErrorKind::OutOfMemory)),
        }
    }
    let mut hall = match doors.hall.take() {
        Some(hall) => hall,
        None => Hall::open(doors.rt, doors.alloc, doors.port, doors.most)?,
    };
    let ends = hall.next(doors.rt, &mut doors.shown);
    doors.hall = Some(hall);
    ends
}

impl<'a, R: Net + Clock> Doors for Gathering<'a, R> {
    ghost coming = { λ _. None };

    ghost given_back = { λ _. None };

    ghost faults = { λ d. d.faults };

    type In = Asked;

    type Out = Told;

    fn next(&mut self) -> Result<(Asked, Told), Failed> {
        match next_of(self) {
            Ok(ends) => Ok(ends),
            Err(fault) => {
                self.faults = self.faults.saturating_add(1);
                self.fault = Some(fault);
                Err(Failed)
            }
        }
    }

    fn give_back(&mut self, source: Asked, sink: Told) {
        if let Some(hall) = &mut self.hall {
            hall.give_back(source.key(), sink);
        }
    }
}
