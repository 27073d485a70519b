//! Writing the two frames that are made again on each connection, without memory.

ghost use Rattle.std.specs.Prelude.{◌≡◌, ℕ, ◌≤◌, ◌+◌, ◌++◌, length, take, drop};
ghost use Rattle.transfer_frames.specs.declared.frame.Frame.TheVariants.{Ack, Restart};
ghost use Rattle.transfer_frames.specs.Grammar.{IsReply, spelling};

use crate::frame::Frame;
use crate::kinds::FrameType;

/// Puts bytes into the buffer from this index on.
fn put_at(out: &mut [u8; 64], at: usize, bytes: &[u8])
    requires { at + length bytes.now ≤ 64 }
    ensures front { take (at + length bytes.now) out.new ≡ take at out.old ++ bytes.now }
    ensures rest { (n : ℕ) → at + length bytes.now ≤ n → drop n out.new ≡ drop n out.old }
{
    out[at..at + bytes.len()].copy_from_slice(bytes);
}

/// Writes an ACK at the front of the buffer, and answers how many bytes that are.
#[tactic(auto, unfolding(crate::specs::Grammar::spelling, crate::specs::Numbers::word_bytes, crate::specs::Numbers::long_bytes))]
fn put_ack(out: &mut [u8; 64], count: u64) -> usize
    ensures count { result ≡ 12 }
    ensures bytes { take 12 out.new ≡ spelling (Ack count) }
    ensures rest { drop 12 out.new ≡ drop 12 out.old }
{
    put_at(out, 0, &FrameType::Ack.first_word(12).to_le_bytes());
    put_at(out, 4, &count.to_le_bytes());
    12
}

/// Writes a RESTART at the front of the buffer, and answers how many bytes that are.
#[tactic(auto, unfolding(crate::specs::Grammar::spelling, crate::specs::Numbers::word_bytes, crate::specs::Numbers::long_bytes))]
fn put_restart(out: &mut [u8; 64], token: [u8; 16], connection: u32, received: u64) -> usize
    ensures count { result ≡ 32 }
    ensures length { length (spelling (Restart token connection received)) ≡ 32 }
    ensures bytes { take 32 out.new ≡ spelling (Restart token connection received) }
    ensures rest { drop 32 out.new ≡ drop 32 out.old }
{
    put_at(out, 0, &FrameType::Restart.first_word(32).to_le_bytes());
    put_at(out, 4, &token);
    put_at(out, 20, &connection.to_le_bytes());
    put_at(out, 24, &received.to_le_bytes());
    32
}

/// Writes RESTART or ACK at the front of the buffer and answers how many bytes that are, 32 or 12.
/// The rest of the buffer stays as it was. Takes no memory.
pub fn put_small(frame: &Frame, out: &mut [u8; 64]) -> usize
    requires { IsReply frame.now }
    ensures count { result ≡ length (spelling frame.now) }
    ensures bytes { take result out.new ≡ spelling frame.now }
    ensures rest { drop result out.new ≡ drop result out.old }
{
    match frame {
        Frame::Ack { count } => put_ack(out, *count),
        Frame::Restart {
            token,
            connection,
            received,
        } => put_restart(out, *token, *connection, *received),
        _ => unreachable!(),
    }
}
