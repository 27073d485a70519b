//! One direction of a line in memory: a ring, and where it is cut.

ghost use Rattle.std.specs.Prelude.{◌≡◌, ◌⊎◌, ◌-◌, ◌<◌, ◌≤◌, ⊤, Some, length, IfOk};
ghost use Rattle.rtrb.specs.Ring.{known_items, known_free};
ghost use Rattle.wp_outside.specs.Pieces.{IsPartOf};
ghost use Rattle.link_ends.specs.Allowances.{passing, less_by};
ghost use Rattle.link_ends.specs.Reads.{IfRead, MatchRead, count_read};
ghost use Rattle.link_ends.specs.Writes.{IfWritten, MatchWrite};

use crate::allowances::Allowance;
use crate::links::{LinkRead, LinkWrite};
use rtrb::{Consumer, Producer, RingBuffer};
use std::alloc::{AllocError, Global};

/// How many bytes a direction holds that were written and not read.
const RING_BYTES: usize = 1_048_576;

/// The end of one direction that is read.
#[derive(Drop)]
pub(crate) struct Inlet {
    ring: Consumer<u8>,
    allowance: Allowance,
}

/// The end of one direction that is written.
#[derive(Drop)]
pub(crate) struct Outlet {
    ring: Producer<u8>,
    allowance: Allowance,
}

/// Both ends of a direction of which this may pass.
pub(crate) fn open_lane(alloc: Global, allowance: Allowance) -> Result<(Outlet, Inlet), AllocError>
    ensures outlet { IfOk result (λ lane. lane.0.allowance ≡ allowance) }
    ensures inlet { IfOk result (λ lane. lane.1.allowance ≡ allowance) }
{
    let (producer, consumer) = RingBuffer::new(alloc, RING_BYTES)?;
    let outlet = Outlet {
        ring: producer,
        allowance: allowance.same(),
    };
    let inlet = Inlet {
        ring: consumer,
        allowance,
    };
    Ok((outlet, inlet))
}

impl Inlet {
    /// Gives the bytes that wait, as many as the buffer holds and may pass.
    pub(crate) fn read(&mut self, buf: &mut [u8]) -> LinkRead
        requires { 0 < length buf.old }
        ensures part { IfRead result (λ n. IsPartOf n (length buf.old)) }
        ensures cause { MatchRead result (λ _. ⊤)
            (length (known_items self.old.ring) ≡ 0)
            ((length (known_items self.old.ring) ≡ 0) ⊎ (self.old.allowance ≡ Some 0))
            ⊥ }
        ensures within { IfRead result (λ n. n ≤ passing self.old.allowance (length buf.old)) }
        ensures spent { self.new.allowance ≡ less_by (count_read result) self.old.allowance }
    {
        let most = self.allowance.passing(buf.len());
        if most == 0 {
            return LinkRead::Ended;
        }
        // Asked before the ring is: what the other end wrote before it went is in the ring by then.
        let is_alone = self.ring.is_abandoned();
        let (front, _) = buf.split_at_mut(most);
        let count = self.ring.pop_partial_slice(front);
        self.allowance.pass(count);
        if count > 0 {
            LinkRead::Bytes(count)
        } else if is_alone {
            LinkRead::Ended
        } else {
            LinkRead::Again
        }
    }
}

impl Outlet {
    /// Takes as many bytes as there are places. Past the cut it takes all, and they are lost.
    pub(crate) fn write(&mut self, bytes: &[u8]) -> LinkWrite
        requires { 0 < length bytes.now }
        ensures part { IfWritten result (λ n. IsPartOf n (length bytes.now)) }
        ensures cause { MatchWrite result (λ _. ⊤) (known_free self.old.ring ≡ 0) ⊥ }
    {
        let most = self.allowance.passing(bytes.len());
        if most == 0 {
            return LinkWrite::Bytes(bytes.len());
        }
        let (front, _) = bytes.split_at(most);
        let (pushed, _) = self.ring.push_partial_slice(front);
        let count = pushed.len();
        self.allowance.pass(count);
        if count > 0 {
            LinkWrite::Bytes(count)
        } else {
            LinkWrite::Again
        }
    }
}
