//! A side of a replay.

ghost use Rattle.std.specs.Prelude.{◌≡◌, IfOk, OnOk};
ghost use Rattle.pair_runs.specs.Moves.{holds};
ghost use Rattle.script_peers.specs.Peers.{Acts};
ghost use Rattle.side_model.specs.Books.{weight};
ghost use Rattle.script_sides.specs.Ready.{IsReady};
ghost use Rattle.script_sides.specs.Sided.{first_run, state_of};

mod closing;
mod giving;
mod linking;
mod loading;
mod taking;

use crate::half_copy::HalfCopy;
use proxy_trail::Trail;
use script_lang::StepKind;
use script_peers::ScriptPeer;
use std::alloc::{AllocError, Global};
use std::marker::Model;
use take_half::PeerRecord;
use wp_outside::Side;

/// The token of the session.
const TOKEN: [u8; 16] = *b"waypipe-session!";

/// A proxy with its records, its peer, and the copy whose words are being loaded.
#[derive(Drop)]
pub struct ScriptSide {
    trail: Trail,
    peer: ScriptPeer,
    half: Option<HalfCopy>,
    // Whether it was asked to close.
    asked: bool,
}

impl Model for ScriptSide {
    ghost use Rattle.script_sides.specs.Sided.{SideRun};

    ghost Value = { SideRun };

    ghost view = { λ it. record {
      trail = it.trail;
      peer = it.peer;
      half = it.half;
      asked = it.asked;
    } };
}

impl ScriptSide {
    /// A side to which nothing has happened.
    ///
    /// # Errors
    /// Only where memory runs out.
    pub fn new(alloc: Global, side: Side) -> Result<ScriptSide, AllocError>
        ensures first { IfOk result (λ it. it ≡ first_run side) }
        ensures ready { IfOk result IsReady }
    {
        let trail = Trail::new(alloc, side, TOKEN)?;
        Ok(ScriptSide {
            trail,
            peer: ScriptPeer::new(alloc, side),
            half: None,
            asked: false,
        })
    }

    /// Its peer does a line of a script, if it is one of the peer's own doing; another line does
    /// nothing.
    ///
    /// # Errors
    /// Those of the peer, each of which counts as want of memory.
    pub fn act(&mut self, what: &StepKind) -> Result<(), AllocError>
        requires { IsReady self.old }
        ensures acts { OnOk result (Acts what.now self.old.peer self.new.peer) }
        ensures same { self.new ≡ record self.old { peer = self.new.peer } }
        ensures ready { OnOk result (IsReady self.new) }
    {
        self.peer.act(what)
    }

    /// Whether it keeps frames that the other side is not known to have accepted. Takes no memory.
    pub fn holds(&self) -> bool
        ensures { result ≡ holds (state_of self.now) }
    {
        self.trail.acknowledged() < self.trail.record().made.len() as u64
    }

    /// The weight of its record, in bytes. Takes no memory.
    pub fn weight(&self) -> u64
        ensures { result ≡ weight self.now.trail.book.trail }
    {
        self.trail.weight()
    }

    /// The proxy with its records.
    pub fn trail(&self) -> &Trail
        ensures { result.now ≡ self.now.trail }
    {
        &self.trail
    }

    /// The proxy with its records, and what the peer received.
    pub fn into_parts(self) -> (Trail, PeerRecord)
        ensures trail { result.0 ≡ self.trail }
        ensures received { result.1 ≡ self.peer.received }
    {
        (self.trail, self.peer.into_received())
    }
}
