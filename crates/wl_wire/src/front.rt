//! What stands at the front of a slice of bytes.

ghost use Rattle.std.specs.Prelude.{◌≡◌, ◌≤◌, ◌↔◌, [], length, IsTrue, IfOk, IfSome};
ghost use Rattle.wl_wire.specs.Wire.{first, cut_rest, size_of};
ghost use Rattle.wl_wire.specs.Framing.{front_of};

use crate::faults::WireFault;
use crate::message::word_from;

/// How many bytes the message at the front has, or None where bytes of it are still to come.
///
/// # Errors
/// `SizeSmall` or `SizeOdd` where the header at the front has such a size.
#[tactic(auto, unfolding(crate::specs::Wire::first))]
pub fn message_size(bytes: &[u8]) -> Result<Option<usize>, WireFault>
    ensures exact { first bytes.now ≡ front_of result bytes.now }
    ensures least { IfOk result (λ front. IfSome front (λ size. 8 ≤ size)) }
    ensures there { IfOk result (λ front. IfSome front (λ size. size ≤ length bytes.now)) }
{
    if bytes.len() < 8 {
        return Ok(None);
    }
    let size = size_from(bytes);
    if size < 8 {
        Err(WireFault::SizeSmall)
    } else if size % 4 != 0 {
        Err(WireFault::SizeOdd)
    } else if bytes.len() < size {
        Ok(None)
    } else {
        Ok(Some(size))
    }
}

/// The size in a header.
#[tactic(auto, unfolding(crate::specs::Wire::size_of))]
fn size_from(header: &[u8]) -> usize
    requires { 8 ≤ length header.now }
    ensures { result ≡ size_of header.now }
{
    (word_from(header, 4) >> 16) as usize
}

/// Whether the bytes are whole messages, one behind another, to their end. Takes no memory.
pub fn all_messages(bytes: &[u8]) -> bool
    ensures { IsTrue result ↔ (cut_rest bytes.now ≡ []) }
{
    let mut rest = bytes;
    'messages: loop {
        match message_size(rest) {
            Ok(Some(size)) => rest = rest.split_at(size).1,
            Ok(None) => return rest.is_empty(),
            Err(_) => return rest.is_empty(),
        }
    }
}

#[cfg(test)]
mod tests {
    use super::*;

    #[test]
    fn whole_to_the_end(rt: HostRuntime) {
        let two = [7, 0, 0, 0, 6, 0, 8, 0, 1, 0, 0, 0, 0, 0, 12, 0, 3, 0, 0, 0];
        for (end, whole) in [(0, true), (7, false), (8, true), (16, false), (20, true)] {
            assert_eq!(rt;
                all_messages(two.split_at(end).0),
                whole,
                "up to byte {end}"
            );
        }
        assert_eq!(rt; all_messages(&[1, 0, 0, 0, 0, 0, 10, 0, 3, 0]), false);
    }
}
