// The clients of a port, and which of them has a whole message.
ghost use Rattle.std.specs.Prelude.{◌≡◌, [], IfOk};

use crate::client::{Client, Turn};
use crate::ends::{Asked, Told};
use crate::shown::{Fate, Shown, fate_of};
use mio::net::TcpListener;
use mio::{Events, Interest, Poll, Token};
use slab::Slab;
use std::alloc::Global;
use std::collections::VecDeque;
use std::io;
use std::io::ErrorKind;
use std::net::{Ipv4Addr, Net, SocketAddr};
use std::time::{Clock, Duration, Instant};

const LISTENER: Token = Token(usize::MAX);

/// How many changes one look at the sockets tells at most.
const CHANGES: usize = 256;

/// How many milliseconds a look at the sockets waits at most. As often it is looked who has kept nothing moving.
const TICK: u64 = 250;

// The numbers of errno by which the system says that it has no room for another connection.
const ENOMEM: i32 = 12;

const ENFILE: i32 = 23;

const EMFILE: i32 = 24;

const ENOBUFS: i32 = 105;

const PIECE: usize = 65_536;

#[derive(Drop)]
pub(crate) struct Hall {
    alloc: Global,
    poll: Poll,
    events: Events,
    listener: TcpListener,
    // Whether somebody may wait to be let in, and whether nobody is any more.
    knocked: bool,
    closed: bool,
    // The clients, of whom there are so many at most: others wait until one leaves.
    clients: Slab<Client>,
    most: usize,
    // Who has a whole message, in turn, and how many of them go before the next look at the sockets.
    ready: VecDeque<usize>,
    round: usize,
    place: Vec<u8>,
    now: Instant,
    looked: Instant,
}

impl Hall {
    pub(crate) fn open<R: Net + Clock>(
        rt: &R,
        alloc: Global,
        port: u16,
        most: usize,
    ) -> io::Result<Hall> {
        let poll = Poll::new(rt)?;
        let mut listener = TcpListener::bind(rt, SocketAddr::from((Ipv4Addr::LOCALHOST, port)))?;
        poll.registry()
            .register(&mut listener, LISTENER, Interest::READABLE)?;
        let now = Instant::now(rt)?;
        Ok(Hall {
            alloc,
            poll,
            events: Events::with_capacity(alloc, CHANGES)?,
            listener,
            knocked: true,
            closed: false,
            clients: Slab::with_capacity(alloc, most)?,
            most,
            ready: VecDeque::with_capacity(alloc, most)?,
            round: 0,
            place: vec![in alloc; 0; PIECE]?,
            now,
            looked: now,
        })
    }

    #[cfg(test)]
    pub(crate) fn address(&self) -> io::Result<SocketAddr> {
        self.listener.local_addr()
    }

    /// The next whole message, with a place for its answer. It waits until there is one.
    /// One that asks for a page is answered beside.
    pub(crate) fn next<R: Clock>(
        &mut self,
        rt: &R,
        shown: &mut Option<Shown>,
    ) -> io::Result<(Asked, Told)>
        ensures { IfOk result (λ ends. (ends.1.faults ≡ 0) × (ends.1.bytes.items ≡ [])) }
    {
        for _ in 0..u64::MAX {
            if self.round == 0 {
                self.look(rt)?;
                self.round = self.ready.len();
            }
            if let Some(key) = self.ready.pop_front() {
                self.round = self.round.saturating_sub(1);
                if let Some(asked) = self.asked_by(key, shown) {
                    return Ok((asked, Told::new(Vec::new(self.alloc))));
                }
            }
        }
        Err(io::Error::from(ErrorKind::Other))
    }

    /// Takes the answer to a message, and sends of it what can be sent.
    pub(crate) fn give_back(&mut self, key: usize, told: Told) {
        self.answer(key, told.whole());
    }

    fn answer(&mut self, key: usize, text: Option<Vec<u8>>) {
        if let Some(client) = self.clients.get_mut(key) {
            client.answer(text, self.now);
        }
        self.go_on(key);
    }

    // The message of the client whose turn it is, unless it asks for a page, which it gets. Where there is no memory for a
    // page, the client is let go.
    fn asked_by(&mut self, key: usize, shown: &mut Option<Shown>) -> Option<Asked> {
        let asked = self.hand_out(key)?;
        let Some(shown) = shown else {
            return Some(asked);
        };
        match fate_of(self.alloc, shown, asked) {
            Fate::Goes(asked) => return Some(asked),
            Fate::Shows(text) => self.answer(key, Some(text)),
            Fate::Lost => self.answer(key, None),
        }
        None
    }

    /// Waits, a while at most, until all answers are taken and those who were told so have left.
    pub(crate) fn farewell<R: Clock>(&mut self, rt: &R, most: Duration) -> io::Result<()> {
        let start = Instant::now(rt)?;
        self.closed = true;
        for _ in 0..u64::MAX {
            if !self.owes() || self.now.duration_since(start) >= most {
                return Ok(());
            }
            self.look(rt)?;
        }
        Ok(())
    }

    // Whether some client is still to be told something.
    fn owes(&self) -> bool {
        for key in 0..self.most {
            if let Some(client) = self.clients.get(key) {
                if client.owes() {
                    return true;
                }
            }
        }
        false
    }

    // Looks at the sockets, and goes on with each client that something happened to.
    fn look<R: Clock>(&mut self, rt: &R) -> io::Result<()> {
        let wait = if self.ready.is_empty() || self.closed {
            TICK
        } else {
            0
        };
        // A signal ends the wait with no events, as one that lets a stopped program go on.
        match self
            .poll
            .poll(&mut self.events, Some(Duration::from_millis(wait)))
        {
            Err(fault) if fault.kind() != ErrorKind::Interrupted => return Err(fault),
            _ => {}
        }
        self.now = Instant::now(rt)?;
        let mut changed = [(0usize, false, false); CHANGES];
        let mut count = 0usize;
        for (event, place) in self.events.iter().zip(changed.iter_mut()) {
            *place = (event.token().0, event.is_readable(), event.is_writable());
            count = count.saturating_add(1);
        }
        for (key, readable, writable) in changed.iter().take(count) {
            if *key == LISTENER.0 {
                self.knocked = true;
            } else {
                if let Some(client) = self.clients.get_mut(*key) {
                    client.wake(*readable, *writable);
                }
                self.go_on(*key);
            }
        }
        if self.now.duration_since(self.looked) >= Duration::from_millis(TICK) {
            self.looked = self.now;
            self.tire();
        }
        self.let_in()
    }

    // Goes on with a client: it gets in line where it has a whole message, and is let go where it is gone.
    fn go_on(&mut self, key: usize) {
        let turn = match self.clients.get_mut(key) {
            Some(client) => match client.turn() {
                Turn::Asks(_, _) => return,
                _ => client.go_on(self.alloc, &mut self.place, self.now),
            },
            None => return,
        };
        match turn {
            Turn::Asks(_, _) => {
                if self.ready.push_back(key).is_err() {
                    self.clients.try_remove(key);
                }
            }
            Turn::Gone => {
                self.clients.try_remove(key);
            }
            _ => {}
        }
    }

    // Lets go of who has kept nothing moving.
    fn tire(&mut self) {
        for key in 0..self.most {
            let gone = match self.clients.get_mut(key) {
                Some(client) => client.tire(self.now) == Turn::Gone,
                None => false,
            };
            if gone {
                self.clients.try_remove(key);
            }
        }
    }

    // Lets in who waits, while there is room.
    fn let_in(&mut self) -> io::Result<()> {
        for _ in 0..self.most {
            if !self.knocked || self.closed || self.clients.len() >= self.most {
                return Ok(());
            }
            match self.listener.accept() {
                Ok((stream, _)) => {
                    let _ = stream.set_nodelay(true);
                    let client = Client::new(self.alloc, stream, self.now);
                    if let Ok(key) = self.clients.insert(client) {
                        self.admit(key);
                    }
                }
                Err(fault) if fault.kind() == ErrorKind::WouldBlock => self.knocked = false,
                Err(fault) if fault.kind() == ErrorKind::Interrupted => {}
                Err(fault) if fault.kind() == ErrorKind::ConnectionAborted => {}
                Err(fault) if is_want(&fault) => return Ok(()),
                Err(fault) => return Err(fault),
            }
        }
        Ok(())
    }

    fn admit(&mut self, key: usize) {
        let registry = self.poll.registry();
        let registered = match self.clients.get_mut(key) {
            Some(client) => client.register(registry, key).is_ok(),
            None => false,
        };
        if registered {
            self.go_on(key);
        } else {
            self.clients.try_remove(key);
        }
    }

    // The message of the client whose turn it is. A client for whose message there is no memory is let go.
    fn hand_out(&mut self, key: usize) -> Option<Asked> {
        match self.clients.get_mut(key)?.hand_out(self.alloc) {
            Some(bytes) => Some(Asked::new(bytes, key)),
            None => {
                self.clients.try_remove(key);
                None
            }
        }
    }
}

// Whether the system has no room for another connection now, and may have some once a client leaves.
fn is_want(fault: &io::Error) -> bool {
    match fault.raw_os_error() {
        Some(code) => code == ENOMEM || code == ENFILE || code == EMFILE || code == ENOBUFS,
        None => false,
    }
}
