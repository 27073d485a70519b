//! A thread's port at a queue that several threads share.

ghost use Rattle.std.specs.Prelude.{◌≡◌, ◌+◌, ◌-◌, ◌<◌, [], ◌∷◌, ◌++◌, IsPermutation, IfOk, OnOk};
ghost use Rattle.std.specs.Prelude.{IfErr, OnErr, IfSome, IfNone};
ghost use Rattle.copy_workers.specs.Hands.{all_parts};

use crate::hands::{Absorbs, Hand, InOrder, Line, Puts, Shares, Takes};
use crossbeam_queue::Pass;
use std::alloc::{AllocError, Global};
use std::marker::Model;
use std::sync::{Arc, Wait};

/// The places of a queue.
pub const PLACES: usize = 1200;

/// A thread's port at a queue. Contracts see which queue it is, the port's parts of the right to
/// know the whole, and what was put in and taken out at it, in order; none of these takes memory.
#[derive(Drop)]
pub struct Port<T: Drop> {
    line: Arc<Line<T>, Global>,
    pass: Pass<T, Hand<T>>,
}

impl<T: Drop> Model for Port<T> {
    ghost use Rattle.std.specs.Prelude.{◌≡◌, ◌<◌};
    ghost use Rattle.std.specs.Arc.{arc_value};
    ghost use Rattle.crossbeam_queue.specs.Passes.{view as hand_of, IsPassOf, ruled_capacity};
    ghost use Rattle.copy_workers.specs.Hands.{PortState};

    ghost Value = { PortState T };

    ghost view = { λ p. record {
      queue = record { table = p.pass.table_id; places = ruled_capacity (arc_value p.line) };
      parts = (hand_of p.pass).parts;
      put = (hand_of p.pass).put;
      taken = (hand_of p.pass).taken;
    } };

    ghost invariant = { λ p. IsPassOf (arc_value p.line) p.pass × (0 < (hand_of p.pass).parts) };
}

impl<T: Drop> Port<T> {
    /// The first port at a new queue, which is empty, with every part.
    pub fn open(alloc: Global) -> Result<Port<T>, AllocError>
        ensures places { IfOk result (λ p. p.queue.places ≡ 1200) }
        ensures parts { IfOk result (λ p. p.parts ≡ all_parts) }
        ensures unused { IfOk result (λ p. (p.put ≡ []) × (p.taken ≡ [])) }
    {
        let (line, pass) = Line::ruled(alloc, PLACES)?;
        let line = Arc::new(alloc, line)?;
        Ok(Port { line, pass })
    }

    /// Another port at the same queue, with one part of this one's.
    pub fn share(&mut self) -> Result<Port<T>, AllocError>
        requires { 1 < self.old.parts }
        ensures new { IfOk result (λ p. (p.queue ≡ self.old.queue) × (p.parts ≡ 1)) }
        ensures unused { IfOk result (λ p. (p.put ≡ []) × (p.taken ≡ [])) }
        ensures rest { OnOk result (self.new ≡ record self.old { parts = self.old.parts - 1 }) }
        ensures same { OnErr result (self.new ≡ self.old) }
    {
        let line = Arc::try_clone(&self.line)?;
        let pass = line.another::<Shares>(&mut self.pass);
        Ok(Port { line, pass })
    }

    /// Puts an item in at the back, in one step. It comes back only where the queue was full at one
    /// moment of the call.
    pub fn push<W: Wait>(&mut self, rt: &W, item: T) -> Result<(), T>
        ensures ok { OnOk result (self.new ≡ record self.old { put = self.old.put ++ item ∷ [] }) }
        ensures back { IfErr result (λ x. x ≡ item) }
        ensures same { OnErr result (self.new ≡ self.old) }
    {
        self.line.push_as::<Puts, W>(rt, &mut self.pass, item)
    }

    /// Takes an item out at the front, in one step. There is none only where the queue was empty at
    /// one moment of the call.
    pub fn pop<W: Wait>(&mut self, rt: &W) -> Option<T>
        ensures some { IfSome result (λ x.
            self.new ≡ record self.old { taken = self.old.taken ++ x ∷ [] }) }
        ensures same { IfNone result (self.new ≡ self.old) }
        ensures empty { IfNone result
            (self.old.parts ≡ all_parts → IsPermutation self.old.put self.old.taken) }
    {
        self.line.pop_as::<Takes, W>(rt, &mut self.pass)
    }

    /// Takes in another port at the same queue.
    pub fn absorb(&mut self, other: Port<T>)
        requires { other.queue ≡ self.old.queue }
        ensures parts { self.new.parts ≡ self.old.parts + other.parts }
        ensures put { self.new.put ≡ self.old.put ++ other.put }
        ensures taken { self.new.taken ≡ self.old.taken ++ other.taken }
        ensures same { self.new.queue ≡ self.old.queue }
    {
        let Port { line: _, pass } = other;
        self.line.absorb::<Absorbs>(&mut self.pass, pass);
    }
}
