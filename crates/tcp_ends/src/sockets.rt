//! Sockets of the loopback interface, and what both dials say there before a line's first byte.

ghost use Rattle.std.specs.Prelude.{◌<◌, IfOk, IfSome};

use mio::event::Source;
use mio::net::{TcpListener, TcpStream};
use mio::{Events, Interest, Poll, Token};
use std::alloc::{AllocError, Global};
use std::io;
use std::io::{ErrorKind, Read, Write};
use std::net::{Ipv4Addr, Net, SocketAddr};
use std::sync::Wait;

/// The number by which the near side says that it dials no more.
const LEAVES: u32 = 0;

/// Why there is no line.
#[derive(Clone, Copy, Debug, PartialEq, Eq)]
pub(crate) enum NoLine {
    /// The other side has left.
    Left,
    /// A socket failed.
    Failed,
    /// Memory ran out, or the numbers of connections did.
    Memory,
}

impl From<AllocError> for NoLine {
    fn from(_error: AllocError) -> NoLine {
        NoLine::Memory
    }
}

impl From<io::Error> for NoLine {
    fn from(error: io::Error) -> NoLine {
        match error.kind() {
            ErrorKind::ConnectionRefused
            | ErrorKind::ConnectionReset
            | ErrorKind::ConnectionAborted
            | ErrorKind::BrokenPipe => NoLine::Left,
            _ => NoLine::Failed,
        }
    }
}

/// Whether a call would have waited, or is to be made again.
pub(crate) fn is_for_later(error: &io::Error) -> bool {
    matches!(error.kind(), ErrorKind::WouldBlock | ErrorKind::Interrupted)
}

// What waits until one of its sockets is ready.
#[derive(Drop)]
struct Waiter {
    poll: Poll,
    events: Events<Global>,
}

impl Waiter {
    fn new(net: &impl Net, alloc: Global) -> Result<Waiter, NoLine> {
        let poll = Poll::new(net)?;
        let events = Events::with_capacity(alloc, 4)?;
        Ok(Waiter { poll, events })
    }

    fn watch<S: Source>(&self, source: &mut S, interest: Interest) -> io::Result<()> {
        self.poll.registry().register(source, Token(0), interest)
    }

    fn forget<S: Source>(&self, source: &mut S) -> io::Result<()> {
        self.poll.registry().deregister(source)
    }

    fn wait(&mut self) -> io::Result<()> {
        match self.poll.poll(&mut self.events, None) {
            Err(error) if error.kind() == ErrorKind::Interrupted => Ok(()),
            answer => answer,
        }
    }
}

/// The near side's way to the far side's port.
#[derive(Drop)]
pub(crate) struct NearEnd {
    waiter: Waiter,
    port: SocketAddr,
}

/// The far side's port; none once either side has left.
#[derive(Drop)]
pub(crate) struct FarEnd {
    waiter: Waiter,
    listener: Option<TcpListener>,
}

/// Both sides' ends over a free port.
pub(crate) fn open_port<N: Net>(net: &N, alloc: Global) -> Result<(NearEnd, FarEnd), NoLine> {
    let mut listener = TcpListener::bind(net, SocketAddr::from((Ipv4Addr::LOCALHOST, 0)))?;
    let port = listener.local_addr()?;
    let waiter = Waiter::new(net, alloc)?;
    waiter.watch(&mut listener, Interest::READABLE)?;
    let far = FarEnd {
        waiter,
        listener: Some(listener),
    };
    let near = NearEnd {
        waiter: Waiter::new(net, alloc)?,
        port,
    };
    Ok((near, far))
}

impl NearEnd {
    /// The far side's port.
    #[cfg(test)]
    pub(crate) fn port(&self) -> SocketAddr {
        self.port
    }

    /// Connects, and says the connection's number before all else.
    pub(crate) fn reach<R: Wait + Net>(
        &mut self,
        rt: &R,
        connection: u32,
    ) -> Result<TcpStream, NoLine> {
        let mut stream = TcpStream::connect(rt, self.port)?;
        self.waiter.watch(&mut stream, Interest::WRITABLE)?;
        self.settle(rt, &stream)?;
        stream.set_nodelay(true)?;
        self.say(rt, &mut stream, connection)?;
        self.waiter.forget(&mut stream)?;
        Ok(stream)
    }

    /// Says that this side dials no more, where there is someone to hear it.
    pub(crate) fn leave<R: Wait + Net>(&mut self, rt: &R) {
        let _said = self.reach(rt, LEAVES);
    }

    // Waits until the stream is connected.
    fn settle<R: Wait>(&mut self, rt: &R, stream: &TcpStream) -> Result<(), NoLine> {
        for _ in rt.forever() {
            if let Some(error) = stream.take_error()? {
                return Err(NoLine::from(error));
            }
            if let Ok(peer) = stream.peer_addr() {
                // Where nobody listens the system may connect a socket with itself.
                let is_alone = stream.local_addr()? == peer;
                return if is_alone { Err(NoLine::Left) } else { Ok(()) };
            }
            self.waiter.wait()?;
        }
        unreachable!()
    }

    // Writes the number, as four bytes, the lowest first.
    fn say<R: Wait>(
        &mut self,
        rt: &R,
        stream: &mut TcpStream,
        connection: u32,
    ) -> Result<(), NoLine> {
        for _ in rt.forever() {
            match stream.write(&connection.to_le_bytes()) {
                Ok(4) => return Ok(()),
                Ok(_) => return Err(NoLine::Failed),
                Err(error) if is_for_later(&error) => self.waiter.wait()?,
                Err(error) => return Err(NoLine::from(error)),
            }
        }
        unreachable!()
    }
}

impl FarEnd {
    /// Waits until the near side connects and says a number.
    pub(crate) fn accept<R: Wait>(&mut self, rt: &R) -> Result<(u32, TcpStream), NoLine>
        ensures { IfOk result (λ line. 0 < line.0) }
    {
        for _ in rt.forever() {
            let Some(listener) = &self.listener else {
                return Err(NoLine::Left);
            };
            match listener.accept() {
                Ok((stream, _)) => {
                    if let Some(line) = self.greet(rt, stream)? {
                        return Ok(line);
                    }
                }
                Err(error) if is_for_later(&error) => self.waiter.wait()?,
                Err(error) if error.kind() == ErrorKind::ConnectionAborted => {}
                Err(_) => return Err(NoLine::Failed),
            }
        }
        unreachable!()
    }

    // The number that the near side says, and its stream. None where it goes away before.
    fn greet<R: Wait>(
        &mut self,
        rt: &R,
        stream: TcpStream,
    ) -> Result<Option<(u32, TcpStream)>, NoLine>
        ensures { IfOk result (λ said. IfSome said (λ line. 0 < line.0)) }
    {
        let mut stream = stream;
        stream.set_nodelay(true)?;
        self.waiter.watch(&mut stream, Interest::READABLE)?;
        let said = self.hear(rt, &mut stream)?;
        self.waiter.forget(&mut stream)?;
        match said {
            Some(LEAVES) => {
                self.listener = None;
                Err(NoLine::Left)
            }
            Some(connection) => Ok(Some((connection, stream))),
            None => Ok(None),
        }
    }

    // Waits for the four bytes of a number.
    fn hear<R: Wait>(&mut self, rt: &R, stream: &mut TcpStream) -> Result<Option<u32>, NoLine> {
        let mut bytes = [0u8; 4];
        for _ in rt.forever() {
            match stream.peek(&mut bytes) {
                Ok(0) => return Ok(None),
                Ok(4) => return Ok(take_number(stream)),
                Ok(_) => self.waiter.wait()?,
                Err(error) if is_for_later(&error) => self.waiter.wait()?,
                Err(_) => return Ok(None),
            }
        }
        unreachable!()
    }

    /// Hears no more.
    pub(crate) fn leave(&mut self) {
        self.listener = None;
    }
}

// Takes a number of which all bytes are there.
fn take_number(stream: &mut TcpStream) -> Option<u32> {
    let mut bytes = [0u8; 4];
    match stream.read(&mut bytes) {
        Ok(4) => Some(u32::from_le_bytes(bytes)),
        _ => None,
    }
}
