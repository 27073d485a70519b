//! What holds of a pipe from peer to peer.

ghost use Rattle.pipe_relay.specs.Laws.{FromPeerToPeer, OneFramePerPiece, ShutDrops};

/// A pipe's owner is given the first pieces that the other peer wrote, and its end only behind all
/// of them.
pub fn from_peer_to_peer()
    ensures { FromPeerToPeer }
{}

/// A piece that is written makes one frame, unless the reader has shut the pipe.
pub fn one_frame_per_piece()
    ensures { OneFramePerPiece }
{}

/// The owner is given all that its side accepts until it shuts the pipe, and nothing behind that.
pub fn shut_drops()
    ensures { ShutDrops }
{}
