//! What a peer puts on its wire to a proxy, and what a proxy gives to its peer.

use handle_table::Handle;
use pool_words::Receipt;
use shm_pools::Note;
use wl_wire::Bytes;
use wp_outside::PipeItem;

/// An item that a peer puts on its wire.
#[derive(Drop)]
pub enum PeerIn {
    /// Bytes of its messages.
    Bytes(Bytes),
    /// A handle for a message whose last byte comes later.
    Handle(Handle),
    /// A note for a commit or a keymap whose last byte comes later.
    Note(Note),
    /// What it does to a pipe.
    Pipe(PipeItem),
}

/// An item that a peer is given.
#[derive(Drop)]
pub enum PeerOut {
    /// One whole message.
    Bytes(Bytes),
    /// The handle of the message that comes next.
    Handle(Handle),
    /// A file of the other peer, all zero; its size in bytes.
    Opened {
        rid: i32,
        size: u32,
    },
    /// A file has grown, with zeros behind its bytes; its new size.
    Grown {
        rid: i32,
        size: u32,
    },
    /// New bytes of a file from `start` on.
    Filled {
        rid: i32,
        start: u32,
        bytes: Bytes,
    },
    /// What happened to a pipe.
    Pipe(PipeItem),
    /// The receipt of a copy of this peer's own file.
    Receipt {
        number: i32,
        segment: u32,
        receipt: Receipt,
    },
}

/// The receipt of a copy.
#[derive(Drop)]
pub struct FileReceipt {
    /// The peer's own number for the file.
    pub number: i32,
    /// Which of the file's segments.
    pub segment: u32,
    /// What was loaded.
    pub receipt: Receipt,
}
