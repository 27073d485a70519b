//! How the program ended.
ghost use Rattle.std.specs.Prelude.{◌≡◌};
ghost use Rattle.waypipe_run.specs.Codes.{code_of};

use half_model::{Limit, PeerCause};
use script_lang::ScriptCause;
use transfer_frames::FrameCause;
use wp_outside::{Direction, Side};

/// Whose bytes a fault of a frame stands in.
#[derive(Clone, Copy, Debug, PartialEq, Eq)]
pub enum Reader {
    /// What the near proxy read of the link.
    Near,
    /// What the far proxy read of the link.
    Far,
    /// The program's input.
    Input,
}

/// How the program ended.
#[derive(Clone, Copy, Debug, PartialEq, Eq)]
pub enum Status {
    /// The command did its work.
    Done,
    /// Memory ran out.
    Memory,
    /// The words are no command.
    Usage,
    /// The input was not read.
    ReadFault,
    /// The output was not written whole.
    WriteFault,
    /// The first line that is no line of a script, counted from 1, and why.
    Script {
        line: u32,
        cause: ScriptCause,
    },
    /// What a peer sent is refused: the side beside it, the count of messages taken before, and
    /// why.
    Peer {
        side: Side,
        index: u64,
        cause: PeerCause,
    },
    /// A frame is refused: whose bytes it stands in, the connection, the count of bytes before it,
    /// and why.
    Frame {
        reader: Reader,
        connection: u32,
        place: u64,
        cause: FrameCause,
    },
    /// A limit was met.
    Limit {
        which: Limit,
    },
    /// The link failed.
    LinkFault,
    /// The bytes read of a direction of a connection aren't those written: the first that differs,
    /// what was written there, if anything was, and what was read.
    LinkDiffers {
        connection: u32,
        direction: Direction,
        place: u64,
        wrote: Option<u8>,
        read: u8,
    },
}

impl Status {
    /// The exit status.
    pub fn code(&self) -> u8
        ensures { result ≡ code_of self.now }
    {
        match self {
            Status::Done => 0,
            Status::Memory => 1,
            Status::Usage => 2,
            Status::ReadFault => 3,
            Status::WriteFault => 4,
            Status::Script { .. } => 5,
            Status::Peer { .. } => 6,
            Status::Frame { .. } => 7,
            Status::Limit { .. } => 8,
            Status::LinkFault => 9,
            Status::LinkDiffers { .. } => 10,
        }
    }
}
