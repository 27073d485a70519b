//! What the lines of a script ask for.

use plain_lists::PlainList;
use wl_text::TextMessage;
use wl_wire::Bytes;
use wp_outside::{Direction, Side};

/// One line of a script.
#[derive(Drop, PartialEq, Eq)]
pub struct Step {
    /// The line's number, counted from 1; lines that are skipped count too.
    pub line: u32,
    /// What it asks for.
    pub what: StepKind,
}

/// The steps of a script, in the order of its lines.
pub type StepList = PlainList<Step>;

/// What a line asks for. The peer is `Near` for the application and `Far` for the compositor.
#[derive(Drop, PartialEq, Eq)]
pub enum StepKind {
    /// The peer puts bytes on its wire.
    Hex {
        peer: Side,
        bytes: Bytes,
    },
    /// The peer puts a message on its wire.
    Say {
        peer: Side,
        message: TextMessage,
    },
    /// The peer makes a file, of a size in bytes.
    File {
        peer: Side,
        number: i32,
        size: u32,
    },
    /// The peer adds a segment to a file; the size is the whole file's.
    Grow {
        peer: Side,
        number: i32,
        size: u32,
    },
    /// The peer writes a value to words of a file, the first one and so many.
    Fill {
        peer: Side,
        number: i32,
        first: u32,
        count: u32,
        value: u64,
    },
    /// The peer makes a pipe.
    Pipe {
        peer: Side,
        number: i32,
    },
    /// The peer puts a handle on its wire.
    Give {
        peer: Side,
        number: i32,
    },
    /// The peer writes bytes to a pipe whose write end it received.
    Put {
        peer: Side,
        pipe: i32,
        bytes: Bytes,
    },
    /// The peer closes a write end that it received.
    End {
        peer: Side,
        pipe: i32,
    },
    /// The peer closes the reading end of its own pipe.
    Shut {
        peer: Side,
        number: i32,
    },
    /// The peer waits for messages; in a replay all that waits moves.
    Await {
        peer: Side,
        count: u32,
    },
    /// The peer's proxy takes up to so many bytes from its wire.
    Take {
        peer: Side,
        bytes: u32,
    },
    /// So many words of the copies that wait are loaded.
    Load {
        words: u32,
    },
    /// The next connection is made.
    Connect,
    /// The connection ends.
    Break,
    /// Up to so many bytes are pushed into the link.
    Send {
        dir: Direction,
        bytes: u32,
    },
    /// Up to so many bytes are pulled out of it.
    Recv {
        dir: Direction,
        bytes: u32,
    },
    /// Both, one after the other.
    Both {
        dir: Direction,
        bytes: u32,
    },
    /// A byte that waits in the link is replaced.
    Spoil {
        dir: Direction,
        offset: u32,
        byte: u8,
    },
    /// A connection of a session is cut behind so many bytes.
    Cut {
        dir: Direction,
        bytes: u32,
    },
    /// The peer's proxy closes.
    Close {
        peer: Side,
    },
    /// All that waits moves, in rounds.
    Settle,
    /// The size of the rounds at the end.
    Drain {
        bytes: u32,
    },
    /// The script ends here.
    Stop,
}
