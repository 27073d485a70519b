//! The ring and its calls.

ghost use Rattle.std.specs.Prelude.{◌≡◌, ◌+◌, ◌<◌, ◌≤◌, length, Some, IfOk};
ghost use Rattle.transfer_frames.specs.declared.frame.TheConstants.{LARGEST_FRAME};
ghost use Rattle.pair_model.specs.LinkFaults.{MOST_FRAMES};
ghost use Rattle.pair_model.specs.RingState.{ring_new, ring_made, ring_held, ring_room, ring_at};
ghost use Rattle.pair_model.specs.RingState.{ring_push, ring_ack};
ghost use Rattle.ack_ring.specs.Sound.{IsSound};

use circular_buffer::HeapCircularBuffer;
use std::alloc::{AllocError, Global};
use std::marker::Model;
use wl_wire::Bytes;

// How many frames a ring can keep.
const PLACES: usize = 8192;

/// The frames that a side made and keeps until they are acknowledged, each as its bytes. A frame's
/// index is the count of frames made before it, so the kept ones are those from the acknowledged
/// count on. Only acknowledging lets a frame go: lending its bytes to be sent doesn't.
///
/// `new` takes the memory of all places and no other call takes any. `ack` takes the time of the
/// frames that it lets go, and each other call a fixed time.
#[derive(Drop)]
pub struct Ring {
    frames: HeapCircularBuffer<Bytes>,
    // How many frames are acknowledged.
    acknowledged: u64,
    // How many bytes the kept frames have together.
    held: u64,
}

impl Model for Ring {
    ghost use Rattle.pair_model.specs.RingState.{RingState};

    ghost Value = { RingState };

    ghost view = { λ ring. record {
      acknowledged = ring.acknowledged;
      frames = ring.frames.items;
    } };

    ghost use Rattle.ack_ring.specs.Sound.{IsCounted};

    ghost invariant = { λ ring. IsCounted ring.frames.capacity ring.held (record {
      acknowledged = ring.acknowledged;
      frames = ring.frames.items;
    }) };
}

impl Ring {
    /// The ring of a side that has made no frame.
    ///
    /// # Errors
    /// Only where memory runs out.
    pub fn new(alloc: Global) -> Result<Ring, AllocError>
        ensures { IfOk result (λ ring. ring ≡ ring_new) }
    {
        Ok(Ring {
            frames: HeapCircularBuffer::with_capacity(alloc, PLACES)?,
            acknowledged: 0,
            held: 0,
        })
    }

    /// Keeps one more frame that was made.
    pub fn push(&mut self, frame: Bytes)
        requires room { 0 < ring_room self.old }
        requires made { ring_made self.old < MOST_FRAMES }
        requires size { length frame ≤ LARGEST_FRAME }
        ensures { self.new ≡ ring_push frame self.old }
    {
        self.held += frame.len() as u64;
        match self.frames.try_push_back(frame) {
            Ok(()) => {}
            Err(_) => unreachable!(),
        }
    }

    /// Lets the frames below this index go: the first `count` frames made are acknowledged.
    pub fn ack(&mut self, count: u64)
        requires told { self.old.acknowledged ≤ count }
        requires made { count ≤ ring_made self.old }
        ensures { self.new ≡ ring_ack count self.old }
    {
        while self.acknowledged < count {
            self.let_go();
        }
    }

    // Lets the oldest frame go.
    fn let_go(&mut self)
        requires { 0 < length self.old.frames }
        ensures { self.new ≡ ring_ack (self.old.acknowledged + 1) self.old }
    {
        match self.frames.pop_front() {
            Some(frame) => {
                self.held -= frame.len() as u64;
                self.acknowledged += 1;
            }
            None => unreachable!(),
        }
    }

    /// The bytes of the frame at this index, as they were pushed.
    pub fn at(&self, index: u64) -> &[u8]
        requires kept { self.now.acknowledged ≤ index }
        requires made { index < ring_made self.now }
        ensures bytes { ring_at index self.now ≡ Some result.now }
        ensures size { length result.now ≤ LARGEST_FRAME }
    {
        match self.frames.get((index - self.acknowledged) as usize) {
            Some(frame) => frame.as_slice(),
            None => unreachable!(),
        }
    }

    /// How many more frames there is room for, of 8,192.
    pub fn room(&self) -> usize
        ensures exact { result ≡ ring_room self.now }
        ensures sound { IsSound self.now }
    {
        PLACES - self.frames.len()
    }

    /// How many bytes are kept: the sum of the lengths of the kept frames.
    pub fn held(&self) -> u64
        ensures exact { result ≡ ring_held self.now }
        ensures sound { IsSound self.now }
    {
        self.held
    }

    /// How many frames were made, the acknowledged ones among them.
    pub fn made(&self) -> u64
        ensures exact { result ≡ ring_made self.now }
        ensures sound { IsSound self.now }
    {
        self.acknowledged + self.frames.len() as u64
    }

    /// How many frames are acknowledged.
    pub fn acknowledged(&self) -> u64
        ensures exact { result ≡ self.now.acknowledged }
        ensures sound { IsSound self.now }
    {
        self.acknowledged
    }
}
