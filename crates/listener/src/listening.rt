// Doors over a port of this machine, the trusted edge: they count each error and tell no connections.
ghost use Rattle.std.specs.Prelude.{◌≡◌, None, IfOk, ⊤};

use fpl_base::{Doors, Failed, Sink, Source, Writing};
use std::io;
use std::io::{ErrorKind, Read, Write};
use std::net::{Ipv4Addr, Net, OpenListener, OpenStream, Shutdown, TcpListener};
use std::time::Duration;

/// How many seconds a read or a write waits for a client that is silent or takes nothing, before it fails.
const PATIENCE: u64 = 60;

/// How many milliseconds a connection that has ended waits for what its client still sends, and for how many pieces.
const FAREWELL: u64 = 500;

const PIECES: usize = 256;

/// A port of 127.0.0.1, whose connections are taken one after another. The listener is bound at the first call of `next`.
/// A connection on which nothing moves for 60 seconds fails.
#[derive(Drop)]
pub struct Listening<'a, R: Net> {
    rt: &'a R,
    port: u16,
    listener: Option<R::Listener>,
    faults: u64,
    fault: Option<io::Error>,
}

impl<'a, R: Net> Listening<'a, R> {
    /// Doors over this port, which is not bound yet.
    pub fn at(rt: &'a R, port: u16) -> Self
        ensures { ⟦<Listening<'a, R> as Doors>⟧.faults result ≡ 0 }
    {
        Listening {
            rt,
            port,
            listener: None,
            faults: 0,
            fault: None,
        }
    }

    /// Why the doors failed last, where they did.
    pub fn fault(&self) -> Option<&io::Error> {
        self.fault.as_ref()
    }

    fn open(&mut self) -> io::Result<(Hearing<R::Stream>, Telling<R::Stream>)>
        ensures counts { IfOk result
            (λ ends. (ends.0.faults ≡ 0) × (⟦<Telling<R::Stream> as Sink>⟧.faults ends.1 ≡ 0)) }
        ensures faults { self.new.faults ≡ self.old.faults }
    {
        if self.listener.is_none() {
            self.listener = Some(TcpListener::bind(self.rt, (Ipv4Addr::LOCALHOST, self.port))?);
        }
        match &self.listener {
            Some(listener) => ends_of(taken_from(listener)?),
            None => Err(io::Error::from(ErrorKind::NotConnected)),
        }
    }
}

// The next client that is still there.
fn taken_from<L: OpenListener>(listener: &L) -> io::Result<L::Stream> {
    for stream in listener.incoming() {
        match stream {
            Err(fault) if fault.kind() == ErrorKind::ConnectionAborted => {}
            taken => return taken,
        }
    }
    Err(io::Error::from(ErrorKind::Other))
}

// The two ends of a stream.
fn ends_of<T: Write + OpenStream + Drop>(stream: T) -> io::Result<(Hearing<T>, Telling<T>)>
    ensures { IfOk result
        (λ ends. (ends.0.faults ≡ 0) × (⟦<Telling<T> as Sink>⟧.faults ends.1 ≡ 0)) }
{
    let patience = Some(Duration::from_secs(PATIENCE));
    stream.set_read_timeout(patience)?;
    stream.set_write_timeout(patience)?;
    stream.set_nodelay(true)?;
    let other = stream.try_clone()?;
    Ok((
        Hearing { stream, faults: 0 },
        Telling {
            writing: Writing::new(other),
        },
    ))
}

impl<'a, R: Net> Doors for Listening<'a, R> {
    ghost coming = { λ _. None };

    ghost given_back = { λ _. None };

    ghost faults = { λ d. d.faults };

    type In = Hearing<R::Stream>;

    type Out = Telling<R::Stream>;

    fn next(&mut self) -> Result<(Hearing<R::Stream>, Telling<R::Stream>), Failed> {
        match self.open() {
            Ok(ends) => Ok(ends),
            Err(fault) => {
                self.faults = self.faults.saturating_add(1);
                self.fault = Some(fault);
                Err(Failed)
            }
        }
    }

    // The client is told that nothing more comes, and gets time to read: while bytes of his are unread, closing would
    // take from him what was written last.
    fn give_back(&mut self, source: Hearing<R::Stream>, _sink: Telling<R::Stream>) {
        let mut stream = source.stream;
        let _ = stream.shutdown(Shutdown::Write);
        let _ = stream.set_read_timeout(Some(Duration::from_millis(FAREWELL)));
        let mut place = [0; 4096];
        for _ in 0..PIECES {
            match stream.read(&mut place) {
                Ok(count) if count > 0 => {}
                _ => return,
            }
        }
    }
}

/// The source of a connection.
#[derive(Drop)]
pub struct Hearing<T> {
    stream: T,
    faults: u64,
}

impl<T: Read> Source for Hearing<T> {
    ghost left = { λ s. T.remaining s.stream };

    ghost faults = { λ s. s.faults };

    ghost one_read = { λ _ _. ⊤ };

    fn read(&mut self, into: &mut [u8]) -> Result<usize, Failed> {
        match self.stream.read(into) {
            Ok(count) => Ok(count),
            Err(_) => {
                self.faults = self.faults.saturating_add(1);
                Err(Failed)
            }
        }
    }
}

/// The sink of a connection.
#[derive(Drop)]
pub struct Telling<T> {
    writing: Writing<T>,
}

impl<T: Write> Sink for Telling<T> {
    ghost taken = { λ _. None };

    ghost faults = { λ s. ⟦<Writing<T> as Sink>⟧.faults s.writing };

    fn write(&mut self, bytes: &[u8]) -> Result<(), Failed> {
        self.writing.write(bytes)
    }
}
