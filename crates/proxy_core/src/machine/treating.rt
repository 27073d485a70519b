//! To take the messages of the peer and make their frames.

ghost use Rattle.std.specs.Prelude.{◌≡◌, ◌<◌, None, OnOk, IfErr};
ghost use Rattle.side_model.specs.Due.{treat, is_free, fault_of};
ghost use Rattle.side_model.specs.Events.{Rest};
ghost use Rattle.proxy_core.specs.Keeping.{Keeps, MOST_MADE};
ghost use Rattle.proxy_core.specs.Doing.{Fails};
ghost use Rattle.proxy_core.specs.Treating.{IsStill, GoesOn, Treats};

use super::*;
use crate::making::{take_made, take_notes};
use half_model::HalfFault;

// The ring has room for the group of a message with so many frames, and for CLOSE.
const ROOM_WANTED: usize = 1100;

// And it is not to hold so many bytes.
const HELD_MOST: u64 = 67_108_864;

impl Machine {
    // Takes the messages that wait. Then none waits, or one is owed, or the ring has no room.
    pub(super) fn treat_all(&mut self) -> Result<(), ProxyFault>
        requires running { self.old.fault ≡ None }
        requires keeps { Keeps self.old }
        requires still { IsStill self.old }
        requires few { self.old.kept.ring.acknowledged < MOST_MADE }
        ensures went { OnOk result (GoesOn self.old self.new) }
        ensures rests { OnOk result (treat self.new ≡ Rest) }
        ensures goes_on { OnOk result (self.new.fault ≡ None) }
        ensures fails { IfErr result (λ fault. Fails fault self.old self.new) }
    {
        'messages: loop {
            if !self.treat_one()? {
                return Ok(());
            }
        }
    }

    // Takes the message at the front, if one waits and may be taken. Its frames are made at once
    // where no copy is awaited for them.
    fn treat_one(&mut self) -> Result<bool, ProxyFault>
        requires running { self.old.fault ≡ None }
        requires keeps { Keeps self.old }
        requires still { IsStill self.old }
        requires few { self.old.kept.ring.acknowledged < MOST_MADE }
        ensures treats { Treats result self.old self.new }
        ensures goes_on { OnOk result (self.new.fault ≡ None) }
    {
        if !self.is_free() {
            return Ok(false);
        }
        if self.taken == u64::MAX {
            self.fault = Some(ProxyFault::Memory);
            return Err(ProxyFault::Memory);
        }
        if self.notes.reserve(2).is_err() {
            self.fault = Some(ProxyFault::Memory);
            return Err(ProxyFault::Memory);
        }
        match self
            .sending
            .treat(&mut self.objects, &mut self.handles, &mut self.pipes)
        {
            Ok(false) => Ok(false),
            Ok(true) => {
                self.taken += 1;
                if self.sending.waiting() {
                    take_notes(&mut self.sending, &mut self.notes);
                    return Ok(true);
                }
                match take_made(
                    self.alloc,
                    &mut self.sending,
                    &mut self.notes,
                    &mut self.ring,
                ) {
                    Ok(()) => Ok(true),
                    Err(_) => {
                        self.fault = Some(ProxyFault::Memory);
                        Err(ProxyFault::Memory)
                    }
                }
            }
            Err(fault) => {
                let fault = proxy_fault(fault);
                self.fault = Some(fault);
                Err(fault)
            }
        }
    }

    // Whether no message is owed, and the ring has room for another group.
    pub(super) fn is_free(&self) -> bool
        ensures { result ≡ is_free self.now.live.sending.owes self.now.kept.ring }
    {
        !self.sending.waiting() && self.ring.room() >= ROOM_WANTED && self.ring.held() < HELD_MOST
    }
}

// The fault of a proxy whose sending half has failed.
fn proxy_fault(fault: HalfFault) -> ProxyFault
    ensures { result ≡ fault_of fault }
{
    match fault {
        HalfFault::Peer { index, cause } => ProxyFault::Peer { index, cause },
        HalfFault::Limit { which } => ProxyFault::Limit { which },
        HalfFault::Memory => ProxyFault::Memory,
    }
}
