//! The connection: it comes up and goes down, and bytes come from it and go onto it.

ghost use Rattle.std.specs.Prelude.{◌≡◌, ℕ, ◌<◌, ◌≤◌, ◌^◌, true, [], length, None, Some, OnOk, IfErr};
ghost use Rattle.std.specs.Option.{MatchOption};
ghost use Rattle.pair_model.specs.RingState.{ring_made};
ghost use Rattle.side_model.specs.declared.fault.ProxyFault.TheVariants.{Memory};
ghost use Rattle.side_model.specs.Calls.{Calls};
ghost use Rattle.side_model.specs.Events.{Up, Down, Came, Went, Asks};
ghost use Rattle.side_model.specs.Shows.{front_of, front_here};
ghost use Rattle.side_model.specs.Sound.{Sound};
ghost use Rattle.side_model.specs.Steps.{step};
ghost use Rattle.proxy_core.specs.Keeping.{AtRest, Stands};
ghost use Rattle.proxy_core.specs.Doing.{Begins, Does, Settles};
ghost use Rattle.proxy_core.specs.Offering.{may_connect};

use super::*;
use crate::fronts::SmallFront;
use crate::link::Front;
use frame_stream::FrameReader;
use half_model::Limit;

// The greatest number of a connection.
const MOST_CONNECTIONS: u32 = 4096;

impl Machine {
    /// A connection comes up; the RESTART of this side is its first front.
    ///
    /// # Errors
    /// `Connections` where its number is above 4,096; behind a fault, that one again.
    #[tactic(auto, unfolding(side_model::specs::Steps::step))]
    pub(crate) fn link_up(&mut self, connection: u32) -> Result<(), ProxyFault>
        requires down { self.old.fault ≡ None → self.old.live.here ≡ None }
        requires later { self.old.kept.last < connection }
        requires stands { Stands self.old.fault self.old }
        ensures exact { Calls (Up connection) result [] self.old self.new }
        ensures no_memory { IfErr result (λ fault. fault ≡ Memory → self.old.fault ≡ Some Memory) }
        ensures rests { OnOk result (AtRest self.new) }
        ensures goes_on { OnOk result (self.new.fault ≡ None) }
    {
        if let Some(fault) = self.fault {
            return Err(fault);
        }
        if connection > MOST_CONNECTIONS {
            let fault = ProxyFault::Limit {
                which: Limit::Connections,
            };
            self.fault = Some(fault);
            return Err(fault);
        }
        let greeting = self.counts.greet(connection);
        let accepted = self.counts.accepted();
        self.link = Some(Link {
            connection,
            received: accepted,
            answered: false,
            reader: FrameReader::new(self.alloc),
            front: Front::Small(SmallFront::new(&greeting)),
            next: 0,
            told: accepted,
        });
        self.last = connection;
        Ok(())
    }

    /// Whether a connection of this number may come up.
    pub(crate) fn may_connect(&self, connection: u32) -> bool
        ensures exact { result ≡ may_connect self.now connection }
        ensures down { result ≡ true → self.now.fault ≡ None → self.now.live.here ≡ None }
        ensures later { result ≡ true → self.now.kept.last < connection }
    {
        (self.fault.is_some() || self.link.is_none()) && self.last < connection
    }

    /// The connection goes down, with what is half read and half sent on it.
    #[tactic(auto, unfolding(side_model::specs::Steps::step))]
    pub(crate) fn link_down(&mut self)
        requires stands { Stands self.old.fault self.old }
        ensures exact { MatchOption self.old.fault
            (self.new ≡ step Down self.old) (λ _. self.new ≡ self.old) }
        ensures stands { Stands self.new.fault self.new }
    {
        if self.fault.is_some() {
            return;
        }
        self.link = None;
    }

    /// Takes a piece of what comes on the connection, and does what is due then.
    ///
    /// # Errors
    /// The fault that is due, or want of memory; behind a fault, that one again.
    pub(crate) fn feed_link(&mut self, piece: &[u8]) -> Result<(), ProxyFault>
        requires few { ring_made self.old.kept.ring < 2 ^ 59 }
        requires stands { Stands self.old.fault self.old }
        ensures exact { Does (Came piece.now) result self.old self.new }
        ensures rests { OnOk result (AtRest self.new) }
        ensures goes_on { OnOk result (self.new.fault ≡ None) }
    {
        match self.fault {
            Some(fault) => Err(fault),
            None => {
                self.read(piece)?;
                self.settle()
            }
        }
    }

    // Takes a piece of what comes on the connection.
    #[tactic(auto, unfolding(side_model::specs::Steps::step))]
    fn read(&mut self, piece: &[u8]) -> Result<(), ProxyFault>
        requires running { self.old.fault ≡ None }
        ensures { Begins result (Came piece.now) self.old self.new }
    {
        match &mut self.link {
            None => Ok(()),
            Some(link) => match link.reader.feed(piece) {
                Ok(()) => Ok(()),
                Err(_) => {
                    self.fault = Some(ProxyFault::Memory);
                    Err(ProxyFault::Memory)
                }
            },
        }
    }

    /// The bytes of the front that are still to be written, lent as they stand.
    pub(crate) fn link_out(&self) -> &[u8]
        requires stands { Stands self.now.fault self.now }
        ensures { result.now ≡ front_of self.now }
    {
        match self.fault {
            Some(_) => &[],
            None => match &self.link {
                None => &[],
                Some(link) => match &link.front {
                    Front::Nothing => &[],
                    Front::Small(left) => left.as_slice(),
                    Front::Kept { sent } => self.ring.at(link.next - 1).split_at(*sent).1,
                },
            },
        }
    }

    /// So many bytes of the front are written. Where it is wholly sent the next one is chosen.
    pub(crate) fn link_sent(&mut self, count: usize)
        requires lent { count ≤ length (front_of self.old) }
        requires stands { Stands self.old.fault self.old }
        ensures exact { MatchOption self.old.fault
            (Settles (step (Went count) self.old) self.new) (λ _. self.new ≡ self.old) }
        ensures stands { Stands self.new.fault self.new }
    {
        if self.fault.is_some() {
            return;
        }
        self.write(count);
        let _ = self.choose();
    }

    // So many bytes of the front are written.
    #[tactic(auto, unfolding(side_model::specs::Steps::step))]
    fn write(&mut self, count: usize)
        requires running { self.old.fault ≡ None }
        requires lent { count ≤ length (front_here self.old.live.here) }
        requires sound { Sound self.old }
        ensures { self.new ≡ step (Went count) self.old }
    {
        match &mut self.link {
            None => {}
            Some(link) => match &mut link.front {
                Front::Nothing => {}
                Front::Small(left) => {
                    left.give(count);
                    if left.is_empty() {
                        link.front = Front::Nothing;
                    }
                }
                Front::Kept { sent } => {
                    let _made = self.ring.made();
                    let end = self.ring.at(link.next - 1).len();
                    if count < end - *sent {
                        *sent += count;
                    } else {
                        link.front = Front::Nothing;
                        self.counts.sent_whole();
                    }
                }
            },
        }
    }

    /// Remembers that it is to close, and does what is due then.
    ///
    /// # Errors
    /// The fault that is due, or want of memory; behind a fault, that one again.
    pub(crate) fn close(&mut self, reason: u32) -> Result<(), ProxyFault>
        requires few { ring_made self.old.kept.ring < 2 ^ 59 }
        requires stands { Stands self.old.fault self.old }
        ensures exact { Does (Asks reason) result self.old self.new }
        ensures rests { OnOk result (AtRest self.new) }
        ensures goes_on { OnOk result (self.new.fault ≡ None) }
    {
        match self.fault {
            Some(fault) => Err(fault),
            None => {
                self.ask(reason);
                self.settle()
            }
        }
    }
}
