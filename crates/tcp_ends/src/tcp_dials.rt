//! Dials over TCP or in memory.

ghost use Rattle.std.specs.Prelude.{◌≡◌, ◌<◌, false};
ghost use Rattle.link_ends.specs.Dialling.{IsFresh};

use crate::line_ends::{LineEnd, SocketLine};
use crate::memory_callers::MemoryCaller;
use crate::sockets::{FarEnd, NearEnd, NoLine};
use crate::tcp_lines::TcpLine;
use link_ends::{Allowance, Cut, Dial, DialCounts, Dialled};
use mio::net::TcpStream;
use std::marker::Model;
use std::mem::replace;
use std::net::Net;
use std::sync::Wait;
use wp_outside::Direction;

/// One side's way to the other.
#[derive(Drop)]
pub(crate) enum Way<R: Wait + Clone> {
    /// In memory.
    Memory(MemoryCaller<R>),
    /// From the near side by TCP.
    Near(NearEnd),
    /// From the far side by TCP.
    Far(FarEnd),
    /// None, since this side has left.
    Left,
}

/// One side's dial. By TCP the near side connects and says the connection's number, and the far side
/// waits for it.
#[derive(Drop)]
pub struct TcpDial<R: Wait + Net + Clone> {
    rt: R,
    way: Way<R>,
    cuts: Vec<Cut>,
    latest: u32,
    has_left: bool,
    counts: DialCounts,
}

impl<R: Wait + Net + Clone> Model for TcpDial<R> {
    ghost use Rattle.std.specs.Prelude.{◌≤◌};
    ghost use Rattle.link_ends.specs.MemoryEnds.{Caller};

    ghost Value = { Caller };

    ghost view = { λ d. record { counts = d.counts; latest = d.latest; has_left = d.has_left } };

    ghost invariant = { λ d. d.counts.lines_out ≤ d.latest };
}

impl<R: Wait + Net + Clone> TcpDial<R> {
    /// A dial of which nothing was asked, whose connections are cut as listed.
    pub(crate) fn new(rt: R, way: Way<R>, cuts: Vec<Cut>) -> TcpDial<R>
        ensures { IsFresh result.counts result.has_left }
    {
        TcpDial {
            rt,
            way,
            cuts,
            latest: 0,
            has_left: false,
            counts: DialCounts::new(),
        }
    }

    /// What this dial has counted.
    pub fn counts(&self) -> DialCounts
        ensures { result ≡ self.now.counts }
    {
        self.counts
    }

    // The next connection's number, and this side's end of it.
    fn meet(&mut self, heard: bool) -> Result<(u32, LineEnd), NoLine>
        ensures { self.new ≡ self.old }
    {
        match &mut self.way {
            Way::Memory(caller) => caller.next(heard),
            Way::Near(end) => {
                let connection = self.latest.checked_add(1).ok_or(NoLine::Memory)?;
                let stream = end.reach(&self.rt, connection)?;
                let cuts = self.cuts.as_slice();
                Ok((
                    connection,
                    socket_end(stream, cuts, connection, Direction::Down),
                ))
            }
            Way::Far(end) => {
                let (connection, stream) = end.accept(&self.rt)?;
                let cuts = self.cuts.as_slice();
                Ok((
                    connection,
                    socket_end(stream, cuts, connection, Direction::Up),
                ))
            }
            Way::Left => Err(NoLine::Left),
        }
    }
}

// The end of a connection that this direction leads to.
fn socket_end(stream: TcpStream, cuts: &[Cut], connection: u32, inward: Direction) -> LineEnd
    requires { 0 < connection }
{
    let outward = match inward {
        Direction::Up => Direction::Down,
        Direction::Down => Direction::Up,
    };
    LineEnd::Socket(SocketLine {
        stream,
        inward: Allowance::on(cuts, connection, inward),
        outward: Allowance::on(cuts, connection, outward),
    })
}

impl<R: Wait + Net + Clone> Dial for TcpDial<R> {
    type Line = TcpLine;

    ghost dial_counts = { λ d. d.counts };

    ghost has_left = { λ d. d.has_left };

    ghost latest = { λ d. d.latest };

    /// Gives the next line. A number that isn't above the last one is a failure.
    fn dial(&mut self, heard: bool) -> Dialled<TcpLine> {
        match self.meet(heard) {
            Ok((connection, end)) => {
                if connection <= self.latest {
                    self.counts.count_fault();
                    return Dialled::Failed;
                }
                self.latest = connection;
                self.counts.count_line();
                Dialled::Link {
                    connection,
                    link: TcpLine::new(end),
                }
            }
            Err(NoLine::Left) if heard => {
                self.counts.count_parting();
                Dialled::Gone
            }
            Err(NoLine::Memory) => Dialled::Memory,
            Err(_) => {
                self.counts.count_fault();
                Dialled::Failed
            }
        }
    }

    /// Drops the line, which is the other end's end.
    fn back(&mut self, line: TcpLine) {
        self.counts.count_back(line.counts());
    }

    /// A dial of the other side that waits is answered.
    fn leave(&mut self) {
        self.has_left = true;
        match replace(&mut self.way, Way::Left) {
            Way::Memory(caller) => caller.leave(),
            Way::Near(mut end) => end.leave(&self.rt),
            Way::Far(mut end) => end.leave(),
            Way::Left => {}
        }
    }
}
