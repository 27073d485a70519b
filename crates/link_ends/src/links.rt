//! One end of a line between the two sides.

ghost use Rattle.std.specs.Prelude.{◌<◌, length};
ghost use Rattle.wp_outside.specs.Pieces.{IsPartOf};
ghost use Rattle.link_ends.specs.Reads.{IfRead, ReadMoved};
ghost use Rattle.link_ends.specs.Writes.{IfWritten, WriteMoved};
ghost use Rattle.link_ends.specs.declared.link_counts.LinkCounts.{LinkCounts};

/// What one read of a link gave.
#[derive(Clone, Copy, Debug, PartialEq, Eq)]
pub enum LinkRead {
    /// So many bytes, at least one, at the front of the buffer.
    Bytes(usize),
    /// No byte waits now.
    Again,
    /// No byte will come any more.
    Ended,
    /// The read failed.
    Failed,
}

/// What one write to a link took.
#[derive(Clone, Copy, Debug, PartialEq, Eq)]
pub enum LinkWrite {
    /// So many bytes, at least one, from the front of the piece.
    Bytes(usize),
    /// There is no room now.
    Again,
    /// The write failed; nothing of the piece was taken.
    Failed,
}

/// One end of a line. No call waits.
pub trait Link {
    // The bytes given and taken, the pauses, the ends and the faults of this end.
    ghost counts: { Self → LinkCounts };

    /// Reads some of the next bytes into the front of a buffer that isn't empty.
    fn read(&mut self, buf: &mut [u8]) -> LinkRead
        requires { 0 < length buf.old }
        ensures part { IfRead result (λ n. IsPartOf n (length buf.old)) }
        ensures moved { ReadMoved result (counts self.old) (counts self.new) };

    /// Writes the first bytes of a piece that isn't empty.
    fn write(&mut self, bytes: &[u8]) -> LinkWrite
        requires { 0 < length bytes.now }
        ensures part { IfWritten result (λ n. IsPartOf n (length bytes.now)) }
        ensures moved { WriteMoved result (counts self.old) (counts self.new) };
}
