//! One peer of a replay, and its calls.

ghost use Rattle.std.specs.Prelude.{◌≡◌, ◌↔◌, [], false, IsTrue, OnOk, OnErr};
ghost use Rattle.half_model.specs.PeerState.{peer_took};
ghost use Rattle.take_half.specs.Receipts.{is_receipt};
ghost use Rattle.script_peers.specs.Owning.{AreSound, IsOwnReceipt};
ghost use Rattle.script_peers.specs.Peers.{first_peer, Acts, gave, settled_own, IsForPeer};
ghost use Rattle.script_peers.specs.Wires.{Leaves, next_of};

use crate::item_queue::{ItemQueue, WireItem};
use crate::lines::is_own;
use crate::own_files::OwnFiles;
use half_model::PeerOut;
use indexmap::IndexSet;
use pool_words::Receipt;
use script_lang::StepKind;
use std::alloc::{AllocError, Global};
use std::marker::Model;
use take_half::PeerRecord;
use wp_outside::Side;

mod doing;

/// The application or the compositor of a replay: what it owns, the wire to its proxy, and what it
/// received.
#[derive(Drop)]
pub struct ScriptPeer {
    side: Side,
    files: OwnFiles,
    pipes: IndexSet<i32>,
    wire: ItemQueue,
    received: PeerRecord,
    alloc: Global,
}

impl Model for ScriptPeer {
    ghost use Rattle.script_peers.specs.Peers.{ScriptedPeer};

    ghost Value = { ScriptedPeer };

    ghost view = { λ peer. record {
      side = peer.side;
      own = record { files = peer.files; pipes = peer.pipes.keys };
      wire = peer.wire;
      received = peer.received;
    } };
}

impl ScriptPeer {
    /// A peer that has done nothing: the application beside the near proxy, or the compositor.
    /// Takes no memory.
    pub fn new(alloc: Global, side: Side) -> ScriptPeer
        ensures { result ≡ first_peer side }
    {
        ScriptPeer {
            side,
            files: OwnFiles::new(alloc),
            pipes: IndexSet::new(alloc),
            wire: ItemQueue::new(alloc),
            received: PeerRecord::new(alloc),
            alloc,
        }
    }

    /// Does a line of a script, if it is one of its own doing; another line does nothing.
    ///
    /// # Errors
    /// Where memory runs out, and as such where a segment of a file has had 2^62 writes. What it
    /// did of the line before stays.
    pub fn act(&mut self, what: &StepKind) -> Result<(), AllocError>
        ensures { OnOk result (Acts what.now self.old self.new) }
    {
        if !is_own(self.side, what) {
            return Ok(());
        }
        self.does(what)
    }

    /// Takes the next item off its wire, where its proxy may take so many bytes yet: a piece of
    /// bytes leaves in parts of at most so many, and of at most 65,536. None exactly where no byte
    /// may be taken or the wire is empty.
    ///
    /// # Errors
    /// Only where memory runs out; nothing is changed then.
    pub fn next(&mut self, most: usize) -> Result<Option<WireItem>, AllocError>
        ensures leaves { Leaves (next_of most self.old.wire) most self.old.wire self.new.wire
            result }
        ensures same { self.new ≡ record self.old { wire = self.new.wire } }
    {
        self.wire.next(most)
    }

    /// Takes in an item that its proxy gives it. A receipt, which is of one of its own files, is
    /// settled at once with the pen of its segment: what it loaded is then known to have stood.
    ///
    /// # Errors
    /// Only where memory runs out; nothing is changed then.
    pub fn given(&mut self, item: PeerOut) -> Result<(), AllocError>
        requires { IsForPeer item self.old.own.files }
        ensures ok { OnOk result (self.new ≡ gave item self.old) }
        ensures err { OnErr result (self.new ≡ self.old) }
        ensures sound { AreSound self.new.own.files }
    {
        match item {
            PeerOut::Receipt {
                number,
                segment,
                receipt,
            } => self.settle(number, segment, receipt),
            other => self.keep(other),
        }
    }

    /// Settles a receipt with the pen of its segment, and keeps that it did.
    fn settle(&mut self, number: i32, segment: u32, receipt: Receipt) -> Result<(), AllocError>
        requires { IsOwnReceipt number segment receipt self.old.own.files }
        ensures ok { OnOk result (self.new ≡ settled_own number segment receipt self.old) }
        ensures err { OnErr result (self.new ≡ self.old) }
        ensures sound { AreSound self.new.own.files }
    {
        self.files.vouch();
        self.received.settled(number, segment)?;
        self.files.settle(number, segment, receipt);
        Ok(())
    }

    /// Keeps an item that is no receipt.
    fn keep(&mut self, item: PeerOut) -> Result<(), AllocError>
        requires { is_receipt item ≡ false }
        ensures ok { OnOk result (self.new
            ≡ record self.old { received = peer_took item self.old.received }) }
        ensures err { OnErr result (self.new ≡ self.old) }
        ensures sound { AreSound self.new.own.files }
    {
        self.files.vouch();
        self.received.take(item)
    }

    /// What it received.
    pub fn received(&self) -> &PeerRecord
        ensures received { result.now ≡ self.now.received }
        ensures sound { AreSound self.now.own.files }
    {
        self.files.vouch();
        &self.received
    }

    /// What it received, of a peer that does no more.
    pub fn into_received(self) -> PeerRecord
        ensures { result ≡ self.received }
    {
        self.received
    }

    /// Whether its proxy has taken all that it put on its wire.
    pub fn is_taken(&self) -> bool
        ensures { IsTrue result ↔ (self.now.wire ≡ []) }
    {
        self.wire.is_empty()
    }
}
