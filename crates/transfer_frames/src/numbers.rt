//! Numbers in the bytes of a frame: reading them at the front, and writing them at the end.

ghost use Rattle.std.specs.Prelude.{◌≡◌, ◌+◌, ◌≤◌, ◌++◌, length};
ghost use Rattle.std.specs.Vec.{vec_len, vec_capacity};
ghost use Rattle.transfer_frames.specs.Numbers.{word_of, long_of, rid_of, word_bytes, long_bytes};
ghost use Rattle.transfer_frames.specs.Numbers.{rid_bytes};

use plain_lists::append_reserved;

/// The word that stands at the front.
#[tactic(auto, unfolding(crate::specs::Numbers::word_of))]
pub fn word_at(bytes: &[u8]) -> u32
    requires { 4 ≤ length bytes.now }
    ensures { result ≡ word_of bytes.now }
{
    u32::from_le_bytes([bytes[0], bytes[1], bytes[2], bytes[3]])
}

/// The number of eight bytes that stands at the front.
#[tactic(auto, unfolding(crate::specs::Numbers::long_of))]
pub fn long_at(bytes: &[u8]) -> u64
    requires { 8 ≤ length bytes.now }
    ensures { result ≡ long_of bytes.now }
{
    u64::from_le_bytes([
        bytes[0], bytes[1], bytes[2], bytes[3], bytes[4], bytes[5], bytes[6], bytes[7],
    ])
}

/// The signed word that stands at the front.
#[tactic(auto, unfolding(crate::specs::Numbers::rid_of))]
pub fn rid_at(bytes: &[u8]) -> i32
    requires { 4 ≤ length bytes.now }
    ensures { result ≡ rid_of bytes.now }
{
    word_at(bytes).cast_signed()
}

/// Adds a word behind bytes that have the room for it.
#[tactic(auto, unfolding(crate::specs::Numbers::word_bytes))]
pub fn put_word(out: &mut Vec<u8>, number: u32)
    requires { vec_len out.old + 4 ≤ vec_capacity out.old }
    ensures items { out.new.items ≡ out.old.items ++ word_bytes number }
    ensures len { vec_len out.new ≡ vec_len out.old + 4 }
    ensures room { vec_capacity out.old ≤ vec_capacity out.new }
{
    append_reserved(out, &number.to_le_bytes());
}

/// Adds a number of eight bytes behind bytes that have the room for it.
#[tactic(auto, unfolding(crate::specs::Numbers::long_bytes))]
pub fn put_long(out: &mut Vec<u8>, number: u64)
    requires { vec_len out.old + 8 ≤ vec_capacity out.old }
    ensures items { out.new.items ≡ out.old.items ++ long_bytes number }
    ensures len { vec_len out.new ≡ vec_len out.old + 8 }
    ensures room { vec_capacity out.old ≤ vec_capacity out.new }
{
    append_reserved(out, &number.to_le_bytes());
}

/// Adds a signed word behind bytes that have the room for it.
#[tactic(auto, unfolding(crate::specs::Numbers::rid_bytes))]
pub fn put_rid(out: &mut Vec<u8>, rid: i32)
    requires { vec_len out.old + 4 ≤ vec_capacity out.old }
    ensures items { out.new.items ≡ out.old.items ++ rid_bytes rid }
    ensures len { vec_len out.new ≡ vec_len out.old + 4 }
    ensures room { vec_capacity out.old ≤ vec_capacity out.new }
{
    put_word(out, rid.cast_unsigned());
}
