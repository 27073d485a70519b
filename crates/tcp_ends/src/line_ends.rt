//! What carries a line's bytes.

ghost use Rattle.std.specs.Prelude.{◌<◌, length};
ghost use Rattle.wp_outside.specs.Pieces.{IsPartOf};
ghost use Rattle.link_ends.specs.Reads.{IfRead};
ghost use Rattle.link_ends.specs.Writes.{IfWritten};

use crate::sockets::is_for_later;
use link_ends::{Allowance, Link, LinkRead, LinkWrite, MemoryLine};
use mio::net::TcpStream;
use std::io::{Read, Write};

/// A connected socket, and how much of each direction may pass.
#[derive(Drop)]
pub(crate) struct SocketLine {
    pub(crate) stream: TcpStream,
    pub(crate) inward: Allowance,
    pub(crate) outward: Allowance,
}

/// One side's end of a line of either kind.
#[derive(Drop)]
pub(crate) enum LineEnd {
    /// A line in memory.
    Memory(MemoryLine),
    /// A socket.
    Socket(SocketLine),
}

impl LineEnd {
    /// Reads as this kind does.
    pub(crate) fn read(&mut self, buf: &mut [u8]) -> LinkRead
        requires { 0 < length buf.old }
        ensures { IfRead result (λ n. IsPartOf n (length buf.old)) }
    {
        match self {
            LineEnd::Memory(line) => line.read(buf),
            LineEnd::Socket(line) => line.read(buf),
        }
    }

    /// Writes as this kind does.
    pub(crate) fn write(&mut self, bytes: &[u8]) -> LinkWrite
        requires { 0 < length bytes.now }
        ensures { IfWritten result (λ n. IsPartOf n (length bytes.now)) }
    {
        match self {
            LineEnd::Memory(line) => line.write(bytes),
            LineEnd::Socket(line) => line.write(bytes),
        }
    }
}

impl SocketLine {
    // Reads what has come, up to the cut.
    fn read(&mut self, buf: &mut [u8]) -> LinkRead
        requires { 0 < length buf.old }
        ensures { IfRead result (λ n. IsPartOf n (length buf.old)) }
    {
        let most = self.inward.passing(buf.len());
        if most == 0 {
            return LinkRead::Ended;
        }
        let (front, _) = buf.split_at_mut(most);
        match self.stream.read(front) {
            Ok(0) => LinkRead::Ended,
            Ok(count) => {
                self.inward.pass(count);
                LinkRead::Bytes(count)
            }
            Err(error) if is_for_later(&error) => LinkRead::Again,
            Err(_) => LinkRead::Failed,
        }
    }

    // Writes what the system takes, up to the cut; what is past that is lost.
    fn write(&mut self, bytes: &[u8]) -> LinkWrite
        requires { 0 < length bytes.now }
        ensures { IfWritten result (λ n. IsPartOf n (length bytes.now)) }
    {
        let most = self.outward.passing(bytes.len());
        if most == 0 {
            return LinkWrite::Bytes(bytes.len());
        }
        let (front, _) = bytes.split_at(most);
        match self.stream.write(front) {
            Ok(0) => LinkWrite::Failed,
            Ok(count) => {
                self.outward.pass(count);
                LinkWrite::Bytes(count)
            }
            Err(error) if is_for_later(&error) => LinkWrite::Again,
            Err(_) => LinkWrite::Failed,
        }
    }
}
