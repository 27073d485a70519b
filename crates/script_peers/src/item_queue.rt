//! The wire from a peer to its proxy.

ghost use Rattle.std.specs.Prelude.{◌≡◌, ◌≤◌, ◌↔◌, [], ◌∷◌, ◌++◌, length, take, drop};
ghost use Rattle.std.specs.Prelude.{IsTrue, IfOk, OnOk, OnErr};
ghost use Rattle.half_model.specs.declared.items.PeerIn.TheVariants as items;
ghost use Rattle.script_peers.specs.Wires.{IsItem, Leaves, MayStand, next_of};
ghost use Rattle.script_peers.specs.Fronts.{Leaving, Staying};

use half_model::PeerIn;
use plain_lists::ByteQueue;
use std::alloc::{AllocError, Global};
use std::collections::VecDeque;
use std::marker::Model;
use wl_wire::Bytes;

/// The most bytes that a proxy is fed at once.
pub const LARGEST_PIECE: usize = 65_536;

/// An item that leaves a wire.
#[derive(Drop)]
pub struct WireItem {
    /// The item.
    pub item: PeerIn,
    /// How many bytes it costs of those that may be taken: its own, where it is bytes.
    pub cost: usize,
}

/// The items that a peer put on its wire and its proxy has not taken, in order. A piece of bytes
/// may leave in parts; each byte is copied once then.
#[derive(Drop)]
pub(crate) struct ItemQueue {
    // What is left of a piece of which a part has left; it stands before the items that wait.
    front: ByteQueue,
    waiting: VecDeque<PeerIn>,
    alloc: Global,
}

impl Model for ItemQueue {
    ghost use Rattle.std.specs.Prelude.{List, ◌++◌};
    ghost use Rattle.half_model.specs.declared.items.PeerIn.{PeerIn};
    ghost use Rattle.script_peers.specs.Wires.{AllMayStand, piece_of};

    ghost Value = { List PeerIn };

    ghost view = { λ queue. piece_of queue.front ++ queue.waiting.items };

    ghost invariant = { λ queue. AllMayStand queue.waiting.items };
}

impl ItemQueue {
    /// An empty wire. Takes no memory.
    pub(crate) fn new(alloc: Global) -> ItemQueue
        ensures { result ≡ [] }
    {
        ItemQueue {
            front: ByteQueue::new(alloc),
            waiting: VecDeque::new(alloc),
            alloc,
        }
    }

    /// Whether no item is left.
    pub(crate) fn is_empty(&self) -> bool
        ensures { IsTrue result ↔ (self.now ≡ []) }
    {
        self.front.is_empty() && self.waiting.is_empty()
    }

    /// Puts an item behind the others.
    pub(crate) fn put(&mut self, item: PeerIn) -> Result<(), AllocError>
        requires { MayStand item }
        ensures { OnOk result (self.new ≡ self.old ++ item ∷ []) }
    {
        self.waiting.push_back(item)?;
        Ok(())
    }

    /// Takes the next item off, where so many bytes may be taken yet.
    pub(crate) fn next(&mut self, most: usize) -> Result<Option<WireItem>, AllocError>
        ensures { Leaves (next_of most self.old) most self.old self.new result }
    {
        if most == 0 {
            return Ok(None);
        }
        let limit = most.min(LARGEST_PIECE);
        if !self.front.is_empty() {
            let piece = cut(self.alloc, &mut self.front, limit)?;
            return Ok(Some(piece));
        }
        match self.waiting.pop_front() {
            Some(item) => {
                let it = begin(self.alloc, &mut self.front, item, limit)?;
                Ok(Some(it))
            }
            None => Ok(None),
        }
    }
}

/// Takes an item that stood at the front: of bytes up to so many, and what is left of them stays.
fn begin(
    alloc: Global,
    left: &mut ByteQueue,
    item: PeerIn,
    most: usize,
) -> Result<WireItem, AllocError>
    requires none { left.old ≡ [] }
    requires stands { MayStand item }
    requires may { 1 ≤ most }
    ensures leaves { IfOk result (λ it. Leaving most item it.item left.new) }
    ensures is { IfOk result (IsItem most) }
    ensures err { OnErr result (Staying item left.new) }
{
    match item {
        PeerIn::Bytes(bytes) => begin_bytes(alloc, left, bytes, most),
        PeerIn::Handle(handle) => Ok(free(PeerIn::Handle(handle))),
        PeerIn::Note(note) => Ok(free(PeerIn::Note(note))),
        PeerIn::Pipe(piped) => Ok(free(PeerIn::Pipe(piped))),
    }
}

/// An item that costs nothing.
fn free(item: PeerIn) -> WireItem
    ensures item { result.item ≡ item }
    ensures cost { result.cost ≡ 0 }
{
    WireItem { item, cost: 0 }
}

/// Takes up to so many bytes of a piece. Where these are all, they are not copied.
fn begin_bytes(
    alloc: Global,
    left: &mut ByteQueue,
    bytes: Bytes,
    most: usize,
) -> Result<WireItem, AllocError>
    requires none { left.old ≡ [] }
    requires some { 1 ≤ length bytes }
    requires may { 1 ≤ most }
    ensures item { IfOk result (λ it. it.item ≡ items.Bytes (take most bytes)) }
    ensures is { IfOk result (IsItem most) }
    ensures rest { OnOk result (left.new ≡ drop most bytes) }
    ensures err { OnErr result (left.new ≡ bytes) }
{
    if bytes.len() <= most {
        let cost = bytes.len();
        return Ok(WireItem {
            item: PeerIn::Bytes(bytes),
            cost,
        });
    }
    *left = ByteQueue::from_vec(bytes.into_vec());
    cut(alloc, left, most)
}

/// Takes up to so many bytes off what is left of a piece.
fn cut(alloc: Global, left: &mut ByteQueue, most: usize) -> Result<WireItem, AllocError>
    requires some { 1 ≤ length left.old }
    requires may { 1 ≤ most }
    ensures item { IfOk result (λ it. it.item ≡ items.Bytes (take most left.old)) }
    ensures is { IfOk result (IsItem most) }
    ensures rest { OnOk result (left.new ≡ drop most left.old) }
    ensures err { OnErr result (left.new ≡ left.old) }
{
    let (part, _) = left.as_slice().split_at(most.min(left.len()));
    let bytes = Bytes::from_slice(alloc, part)?;
    let cost = bytes.len();
    left.give(cost);
    Ok(WireItem {
        item: PeerIn::Bytes(bytes),
        cost,
    })
}
