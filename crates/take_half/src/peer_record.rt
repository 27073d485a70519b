//! What one peer has received.

ghost use Rattle.std.specs.Prelude.{◌≡◌, ◌<◌, ◌+◌, ◌^◌, false, OnOk, OnErr, option_map};
ghost use Rattle.std.specs.BTreeMap.{is_at};
ghost use Rattle.std.specs.Map.{lookup};
ghost use Rattle.std.specs.Option.{SomeIff};
ghost use Rattle.std.specs.Ordering.{int_cmp};
ghost use Rattle.half_model.specs.declared.items.PeerOut.TheVariants as items;
ghost use Rattle.half_model.specs.PeerState.{no_peer, peer_took, peer_settled};
ghost use Rattle.mirror_pools.specs.Mirrors.{bytes_at};
ghost use Rattle.take_half.specs.Receipts.{is_receipt};

use crate::pipe_flows::{PipeFlow, PipeFlows};
use half_model::PeerOut;
use handle_table::Handle;
use mirror_pools::Mirrors;
use plain_lists::PlainList;
use std::alloc::{AllocError, Global};
use std::marker::Model;
use wl_wire::Bytes;

/// What one peer has received: messages, handles, the mirrors of the other peer's files, what came
/// of the other peer's pipes, and which receipts of its own files were settled.
#[derive(Drop)]
pub struct PeerRecord {
    messages: PlainList<Bytes>,
    handles: PlainList<Handle>,
    mirrors: Mirrors,
    pipes: PipeFlows,
    // The file's number and the segment of each settled receipt.
    settled: PlainList<(i32, u32)>,
}

impl Model for PeerRecord {
    ghost use Rattle.half_model.specs.PeerState.{PeerState};

    ghost Value = { PeerState };

    ghost view = { λ peer. record {
      messages = peer.messages;
      handles = peer.handles;
      mirrors = peer.mirrors;
      pipes = peer.pipes;
      settled = peer.settled;
    } };
}

impl PeerRecord {
    /// Nothing is received. Takes no memory.
    pub fn new(alloc: Global) -> PeerRecord
        ensures { result ≡ no_peer }
    {
        PeerRecord {
            messages: PlainList::new(alloc),
            handles: PlainList::new(alloc),
            mirrors: Mirrors::new(alloc),
            pipes: PipeFlows::new(alloc),
            settled: PlainList::new(alloc),
        }
    }

    /// Takes an item in, which is no receipt. An item of a file that fails a test of the sizes held
    /// changes nothing.
    ///
    /// # Errors
    /// Only where memory runs out; nothing is changed then.
    pub fn take(&mut self, item: PeerOut) -> Result<(), AllocError>
        requires { is_receipt item ≡ false }
        ensures ok { OnOk result (self.new ≡ peer_took item self.old) }
        ensures err { OnErr result (self.new ≡ self.old) }
    {
        match item {
            PeerOut::Bytes(message) => self.messages.push(message),
            PeerOut::Handle(handle) => self.handles.push(handle),
            PeerOut::Opened { rid, size } => self.open_file(rid, size),
            PeerOut::Grown { rid, size } => self.grow_file(rid, size),
            PeerOut::Filled { rid, start, bytes } => {
                self.fill_file(rid, start, bytes.as_slice());
                Ok(())
            }
            PeerOut::Pipe(item) => self.pipes.take(item),
            PeerOut::Receipt {
                number: _,
                segment: _,
                receipt: _,
            } => unreachable!(),
        }
    }

    /// Keeps that a receipt of this segment of the peer's own file was settled.
    ///
    /// # Errors
    /// Only where memory runs out; nothing is changed then.
    pub fn settled(&mut self, number: i32, segment: u32) -> Result<(), AllocError>
        ensures ok { OnOk result (self.new ≡ peer_settled number segment self.old) }
        ensures err { OnErr result (self.new ≡ self.old) }
    {
        self.settled.push((number, segment))
    }

    /// The messages received, in order, each as its bytes.
    pub fn messages(&self) -> &[Bytes]
        ensures { result.now ≡ self.now.messages }
    {
        self.messages.as_slice()
    }

    /// The handles received, in order.
    pub fn handles(&self) -> &[Handle]
        ensures { result.now ≡ self.now.handles }
    {
        self.handles.as_slice()
    }

    /// The bytes of the mirror of this rid; None exactly where there is none.
    pub fn mirror(&self, rid: i32) -> Option<&[u8]>
        ensures { option_map (λ bytes. bytes.now) result ≡ bytes_at rid self.now.mirrors }
    {
        self.mirrors.bytes(rid)
    }

    /// What came of the pipe of this rid; None exactly where nothing did.
    pub fn pipe(&self, rid: i32) -> Option<&PipeFlow>
        ensures { option_map (λ flow. flow.now) result
            ≡ lookup (is_at (int_cmp rid)) self.now.pipes }
    {
        self.pipes.get(rid)
    }

    /// The settled receipts in order, each as its file's number and its segment.
    pub fn receipts(&self) -> &[(i32, u32)]
        ensures { result.now ≡ self.now.settled }
    {
        self.settled.as_slice()
    }
}

impl PeerRecord {
    // A file is opened, where the sizes held let it.
    fn open_file(&mut self, rid: i32, size: u32) -> Result<(), AllocError>
        ensures ok { OnOk result (self.new ≡ peer_took (items.Opened rid size) self.old) }
        ensures err { OnErr result (self.new ≡ self.old) }
    {
        match self.mirrors.check_open(rid, size) {
            Ok(()) => self.mirrors.open(rid, size),
            Err(_) => Ok(()),
        }
    }

    // A file grows, where the sizes held let it.
    fn grow_file(&mut self, rid: i32, size: u32) -> Result<(), AllocError>
        ensures ok { OnOk result (self.new ≡ peer_took (items.Grown rid size) self.old) }
        ensures err { OnErr result (self.new ≡ self.old) }
    {
        match self.mirrors.check_extend(rid, size) {
            Ok(()) => self.mirrors.extend(rid, size),
            Err(_) => Ok(()),
        }
    }

    // New bytes of a file, where its size lets them.
    fn fill_file(&mut self, rid: i32, start: u32, bytes: &[u8])
        ensures { self.new ≡ peer_took (items.Filled rid start bytes.now) self.old }
    {
        if self.mirrors.size(rid).is_none() {
            return;
        }
        let Some(end) = end_of(start, bytes.len()) else {
            return;
        };
        match self.mirrors.check_fill(rid, end) {
            Ok(()) => self.mirrors.fill(rid, start, bytes),
            Err(_) => {}
        }
    }
}

// Where so many bytes from `start` on end; None exactly where that is no word.
fn end_of(start: u32, count: usize) -> Option<u32>
    ensures { SomeIff result (start + count < 2 ^ 32) (start + count) }
{
    match u32::try_from(count) {
        Ok(count) => start.checked_add(count),
        Err(_) => None,
    }
}
