//! The proxy and its calls.

ghost use Rattle.std.specs.Prelude.{◌≡◌, ℕ, ◌+◌, ◌<◌, ◌≤◌, ◌^◌, true, List, [], length, None, Some};
ghost use Rattle.std.specs.Prelude.{MatchOption, IfOk, IfErr, IfSome, slice_get};
ghost use Rattle.copy_workers.specs.Copies.{IsReady};
ghost use Rattle.half_model.specs.Jobs.{awaits, first_waiting};
ghost use Rattle.pair_model.specs.RingState.{ring_made};
ghost use Rattle.owed_groups.specs.Lending.{Lends, done_of};
ghost use Rattle.side_model.specs.declared.fault.ProxyFault.TheVariants.{Memory};
ghost use Rattle.side_model.specs.Calls.{Calls, Row};
ghost use Rattle.side_model.specs.Events.{Event, Fed, Handed, Lent, Up, Down, Came, Went, Gave, Asks, Told};
ghost use Rattle.side_model.specs.Events.{Rest};
ghost use Rattle.side_model.specs.Shows.{wants_peer, has_ended, next_item, front_of};
ghost use Rattle.side_model.specs.Sound.{IsItem};
ghost use Rattle.side_model.specs.State.{no_proxy};
ghost use Rattle.side_model.specs.Steps.{step};
ghost use Rattle.proxy_core.specs.Offering.{may_connect};

use crate::machine::Machine;
use copy_workers::{CopyDone, CopyJob};
use half_model::{Noted, PeerIn, PeerOut};
use side_model::ProxyFault;
use std::alloc::{AllocError, Global};
use std::marker::Model;
use wp_outside::Side;

/// One proxy of the pair. Its peer's items, its link's bytes and its copies go in and come out by
/// calls; it opens nothing and waits for nothing.
///
/// What its peer puts on its wire becomes frames. They are kept until the other side has
/// acknowledged them, and go onto each connection from the count on that the other side's RESTART
/// tells. A frame of the other side is accepted once, and given to the peer as what it means; one
/// that a partner without a fault would not send is refused. At the end of each call nothing is due:
/// a message waits only where a copy is awaited for the last one, or where the ring has fewer than
/// 1,100 free places or holds 64 MiB or more.
///
/// A proxy that has failed answers the same fault for good. Its ring, its counts and what it noted
/// stay as they were.
#[derive(Drop)]
pub struct Proxy {
    machine: Machine,
}

impl Model for Proxy {
    ghost use Rattle.side_model.specs.State.{Now};
    ghost use Rattle.proxy_core.specs.Keeping.{Stands};

    ghost Value = { Now };

    ghost view = { λ proxy. proxy.machine };

    ghost invariant = { λ proxy. Stands proxy.machine.fault proxy.machine };
}

impl Proxy {
    /// A proxy to which nothing has happened, of the session with this token. The memory of its ring
    /// is taken here.
    ///
    /// # Errors
    /// Only where memory runs out.
    pub fn new(alloc: Global, side: Side, token: [u8; 16]) -> Result<Proxy, AllocError>
        ensures { IfOk result (λ proxy. proxy ≡ no_proxy side token) }
    {
        let machine = Machine::new(alloc, side, token)?;
        Ok(Proxy { machine })
    }

    /// Whether it takes from its peer. False exactly where it has failed, `close` was called, a copy
    /// is awaited, or its ring has fewer than 1,100 free places or holds 64 MiB or more. Takes no
    /// memory.
    pub fn wants_peer(&self) -> bool
        ensures { result ≡ wants_peer self.now }
    {
        self.machine.wants_peer()
    }

    /// Takes an item that its peer put on its wire, and treats the messages that are whole then. An
    /// item of a pipe is treated at once.
    ///
    /// # Errors
    /// `Peer` with `PipeUnknown` where an item of a pipe names none whose end the peer holds. `Peer`
    /// or `Limit` where a message is refused, with the number of messages that were taken before; or
    /// want of memory.
    pub fn feed_peer(&mut self, item: PeerIn) -> Result<(), ProxyFault>
        requires wants { wants_peer self.old ≡ true }
        requires item { IsItem item }
        requires few { ring_made self.old.kept.ring < 2 ^ 59 }
        ensures exact { (events : List Event) ×
            Calls (Fed item) result events self.old self.new }
    {
        self.machine.feed_peer(item)
    }

    /// Gives the next copy that is to be made, or None exactly where none waits or the proxy has
    /// failed. Takes no memory.
    pub fn next_copy(&mut self) -> Option<CopyJob>
        ensures copy { MatchOption self.old.fault
            (Lends result (first_waiting self.old.kept.jobs)) (λ _. result ≡ None) }
        ensures rest { MatchOption self.old.fault
            (self.new ≡ step Lent self.old) (λ _. self.new ≡ self.old) }
        ensures ready { IfSome result IsReady }
    {
        self.machine.next_copy()
    }

    /// Whether a copy with this number is out, and this is that copy: of the same words, with the
    /// eye's count of writes and the number of its pool. Takes no memory.
    pub fn awaits(&self, done: &CopyDone) -> bool
        ensures { result ≡ awaits self.now.kept.jobs (done_of done.now) }
    {
        self.machine.awaits(done)
    }

    /// Takes a copy back. With the last copy of a message its frames are made, and the messages that
    /// wait are treated.
    ///
    /// # Errors
    /// Those of `feed_peer` for a message that waited; behind a fault, that one again.
    pub fn copy_done(&mut self, done: CopyDone) -> Result<(), ProxyFault>
        requires awaited { awaits self.old.kept.jobs (done_of done) ≡ true }
        requires few { ring_made self.old.kept.ring < 2 ^ 59 }
        ensures exact { (events : List Event) ×
            Calls (Handed (done_of done)) result events self.old self.new }
    {
        self.machine.copy_done(done)
    }

    /// A connection comes up. What it writes first is its RESTART.
    ///
    /// # Errors
    /// `Connections` where the number is above 4,096; behind a fault, that one again. Takes no
    /// memory.
    pub fn link_up(&mut self, connection: u32) -> Result<(), ProxyFault>
        requires down { self.old.fault ≡ None → self.old.live.here ≡ None }
        requires later { self.old.kept.last < connection }
        ensures exact { Calls (Up connection) result [] self.old self.new }
        ensures no_memory { IfErr result (λ fault. fault ≡ Memory → self.old.fault ≡ Some Memory) }
    {
        self.machine.link_up(connection)
    }

    /// Whether `link_up` may be called with this number: it is above those of all connections before,
    /// and none is up or the proxy has failed. Takes no memory.
    pub fn may_connect(&self, connection: u32) -> bool
        ensures exact { result ≡ may_connect self.now connection }
        ensures down { result ≡ true → self.now.fault ≡ None → self.now.live.here ≡ None }
        ensures later { result ≡ true → self.now.kept.last < connection }
    {
        self.machine.may_connect(connection)
    }

    /// The connection goes down, if one is up: what is half read and half sent on it is gone. Takes
    /// no memory.
    pub fn link_down(&mut self)
        ensures { MatchOption self.old.fault
            (self.new ≡ step Down self.old) (λ _. self.new ≡ self.old) }
    {
        self.machine.link_down();
    }

    /// Takes a piece, of any length, of what comes on the connection. All frames that are whole are
    /// heard first; then the messages of its peer that wait are treated, where an acknowledgement
    /// made room for them.
    ///
    /// # Errors
    /// `Frame` with the place and the first cause where a frame is refused; those before it count.
    /// Those of `feed_peer` for a message that waited; behind a fault, that one again.
    pub fn feed_link(&mut self, piece: &[u8]) -> Result<(), ProxyFault>
        requires { ring_made self.old.kept.ring < 2 ^ 59 }
        ensures exact { (events : List Event) ×
            Calls (Came piece.now) result events self.old self.new }
    {
        self.machine.feed_link(piece)
    }

    /// The bytes that are to be written next, lent as they stand: the rest of RESTART, of an ACK or
    /// of a frame of the ring. Empty exactly where no connection is up, the proxy has failed, or
    /// there is nothing to write. Takes no memory.
    pub fn link_out(&self) -> &[u8]
        ensures { result.now ≡ front_of self.now }
    {
        self.machine.link_out()
    }

    /// So many of the bytes that `link_out` lends are written. Takes no memory.
    pub fn link_sent(&mut self, count: usize)
        requires { count ≤ length (front_of self.old) }
        ensures { MatchOption self.old.fault
            ((events : List Event) × Row (step (Went count) self.old) events self.new Rest)
            (λ _. self.new ≡ self.old) }
    {
        self.machine.link_sent(count);
    }

    /// The next item that its peer is to be given; None exactly where there is none or the proxy has
    /// failed. Takes no memory.
    pub fn peer_out(&mut self) -> Option<PeerOut>
        ensures item { MatchOption self.old.fault
            (result ≡ next_item self.old.live) (λ _. result ≡ None) }
        ensures rest { MatchOption self.old.fault
            (self.new ≡ step Gave self.old) (λ _. self.new ≡ self.old) }
    {
        self.machine.peer_out()
    }

    /// Asks it to close: from then on it takes nothing from its peer, and makes CLOSE with this
    /// reason once no copy is awaited and no message waits. A second call asks for nothing.
    ///
    /// # Errors
    /// Those of `feed_peer` for a message that waited; behind a fault, that one again.
    pub fn close(&mut self, reason: u32) -> Result<(), ProxyFault>
        requires { ring_made self.old.kept.ring < 2 ^ 59 }
        ensures exact { (events : List Event) ×
            Calls (Asks reason) result events self.old self.new }
    {
        self.machine.close(reason)
    }

    /// Whether the other side's CLOSE was accepted. Takes no memory.
    pub fn heard_close(&self) -> bool
        ensures { result ≡ self.now.kept.heard_close }
    {
        self.machine.heard_close()
    }

    /// Whether CLOSE was made, the other side is known to have accepted all frames, its own CLOSE was
    /// accepted, and nothing is to be written. It says nothing of faults. Takes no memory.
    pub fn ended(&self) -> bool
        ensures { result ≡ has_ended self.now }
    {
        self.machine.ended()
    }

    /// What was noted next; None exactly where all was given. What was noted before a fault is given
    /// behind it too. Takes no memory.
    pub fn noted(&mut self) -> Option<Noted>
        ensures note { result ≡ slice_get self.old.kept.notes 0 }
        ensures rest { self.new ≡ step Told self.old }
    {
        self.machine.noted()
    }

    /// How many frames of the other side were accepted. Takes no memory.
    pub fn accepted(&self) -> u64
        ensures { result ≡ self.now.kept.accepted }
    {
        self.machine.accepted()
    }

    /// How many of the own frames are known to be accepted. At most 8,192 more were made. Takes no
    /// memory.
    pub fn acknowledged(&self) -> u64
        ensures exact { result ≡ self.now.kept.ring.acknowledged }
        ensures made { ring_made self.now.kept.ring ≤ result + 8192 }
    {
        self.machine.acknowledged()
    }
}
