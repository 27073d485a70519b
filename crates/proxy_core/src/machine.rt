//! The proxy with its fields.

ghost use Rattle.std.specs.Prelude.{◌≡◌, ℕ, ◌<◌, ◌^◌, List, [], ◌∷◌, None, Some, IfOk, OnOk, IfErr};
ghost use Rattle.side_model.specs.Due.{group};
ghost use Rattle.side_model.specs.Events.{Rest};
ghost use Rattle.side_model.specs.State.{no_proxy};
ghost use Rattle.pair_model.specs.RingState.{ring_made};
ghost use Rattle.proxy_core.specs.Keeping.{Keeps, AtRest, MOST_MADE};
ghost use Rattle.proxy_core.specs.Doing.{Settles, Fails};

mod choosing;
mod copies;
mod ending;
mod feeding;
mod hearing;
mod links;
mod lone;
mod showing;
mod treating;

use crate::closing::Closing;
use crate::link::Link;
use crate::past::Past;
use ack_ring::Ring;
use half_model::Noted;
use handle_table::Handles;
use pipe_relay::Pipes;
use reconnect::Counts;
use send_half::SendHalf;
use side_model::ProxyFault;
use std::alloc::{AllocError, Global};
use std::collections::VecDeque;
use std::marker::Model;
use take_half::TakeHalf;
use wl_objects::Objects;
use wp_outside::Side;

/// A proxy, which contracts see as plain data. Its phases are methods of their own: to hear what has
/// come, to take what its peer put on its wire, to end, and to choose the next front. Each does the
/// events that are due in it.
///
/// What fails for want of memory stands in each of them before the first change of what is kept when
/// the proxy fails: the ring, the counts, the wish to close, the copies and the notes.
#[derive(Drop)]
pub(crate) struct Machine {
    alloc: Global,
    // For what it has failed.
    fault: Option<ProxyFault>,
    ring: Ring,
    counts: Counts,
    closing: Closing,
    // The number of the last connection, 0 before the first.
    last: u32,
    link: Option<Link>,
    // What both halves know together.
    objects: Objects,
    handles: Handles,
    pipes: Pipes,
    sending: SendHalf,
    taking: TakeHalf,
    // How many messages of the peer were taken.
    taken: u64,
    notes: VecDeque<Noted>,
    past: Option<Past>,
}

impl Model for Machine {
    ghost use Rattle.side_model.specs.State.{Now};

    ghost Value = { Now };

    ghost use Rattle.proxy_core.specs.Inside.{now_of, IsWired};

    ghost view = { now_of };

    ghost invariant = { IsWired };
}

impl Machine {
    /// A proxy to which nothing has happened. The memory of its ring is taken here.
    ///
    /// # Errors
    /// Only where memory runs out.
    pub(crate) fn new(alloc: Global, side: Side, token: [u8; 16]) -> Result<Machine, AllocError>
        ensures { IfOk result (λ machine. machine ≡ no_proxy side token) }
    {
        let ring = Ring::new(alloc)?;
        let objects = Objects::new(alloc)?;
        let sending = SendHalf::new(alloc, side)?;
        let taking = TakeHalf::new(alloc, side)?;
        Ok(Machine {
            alloc,
            fault: None,
            ring,
            counts: Counts::new(token),
            closing: Closing::Open,
            last: 0,
            link: None,
            objects,
            handles: Handles::new(alloc, side),
            pipes: Pipes::new(alloc, side),
            sending,
            taking,
            taken: 0,
            notes: VecDeque::new(alloc),
            past: None,
        })
    }

    /// Does all that is due: hears the frames that have come, takes the messages that wait, makes
    /// CLOSE, and chooses the next front.
    ///
    /// # Errors
    /// The fault that is due, or want of memory.
    pub(crate) fn settle(&mut self) -> Result<(), ProxyFault>
        requires running { self.old.fault ≡ None }
        requires keeps { Keeps self.old }
        requires groups { group self.old ≡ Rest }
        requires few { ring_made self.old.kept.ring < MOST_MADE }
        ensures row { OnOk result (Settles self.old self.new) }
        ensures rests { OnOk result (AtRest self.new) }
        ensures goes_on { OnOk result (self.new.fault ≡ None) }
        ensures fails { IfErr result (λ fault. Fails fault self.old self.new) }
    {
        self.hear_all()?;
        self.treat_all()?;
        self.end()?;
        self.choose();
        Ok(())
    }
}
