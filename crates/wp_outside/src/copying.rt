//! Copying from the front of bytes.

ghost use Rattle.std.specs.Prelude.{◌≡◌, length, min, drop};
ghost use Rattle.wp_outside.specs.Pieces.{with_front};

use plain_lists::ByteQueue;

/// Copies as many bytes as both have from the front of one piece over the front of another.
pub(crate) fn copy_front(from: &[u8], to: &mut [u8]) -> usize
    ensures count { result ≡ min (length to.old) (length from.now) }
    ensures bytes { to.new ≡ with_front result from.now to.old }
{
    let count = to.len().min(from.len());
    to[..count].copy_from_slice(&from[..count]);
    count
}

/// Gives the next bytes of a queue, as many as the buffer holds, and answers how many.
pub(crate) fn give_front(queue: &mut ByteQueue, buf: &mut [u8]) -> usize
    ensures count { result ≡ min (length buf.old) (length queue.old) }
    ensures bytes { buf.new ≡ with_front result queue.old buf.old }
    ensures rest { queue.new ≡ drop result queue.old }
{
    let count = copy_front(queue.as_slice(), buf);
    queue.give(count);
    count
}
