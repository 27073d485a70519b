//! The bytes that the words of a line stand for.

use crate::trouble::Trouble;
use side_model::ProxyFault;
use std::alloc::Global;
use wl_tables::Way;
use wl_text::{TextFault, read_message};
use wl_wire::Bytes;

/// The session's token.
pub const TOKEN: [u8; 16] = *b"of this session.";

// Words that stand for bytes. All others are hexadecimal digits.
const WORDS: [(&str, &[u8]); 32] = [
    // RESTART of a connection, with a count of accepted frames.
    (
        "restart-1",
        b"\x11\x04\0\0of this session.\x01\0\0\0\0\0\0\0\0\0\0\0",
    ),
    (
        "restart-2",
        b"\x11\x04\0\0of this session.\x02\0\0\0\0\0\0\0\0\0\0\0",
    ),
    (
        "restart-3",
        b"\x11\x04\0\0of this session.\x03\0\0\0\0\0\0\0\0\0\0\0",
    ),
    (
        "restart-1-1",
        b"\x11\x04\0\0of this session.\x01\0\0\0\x01\0\0\0\0\0\0\0",
    ),
    (
        "restart-2-1",
        b"\x11\x04\0\0of this session.\x02\0\0\0\x01\0\0\0\0\0\0\0",
    ),
    (
        "restart-3-1",
        b"\x11\x04\0\0of this session.\x03\0\0\0\x01\0\0\0\0\0\0\0",
    ),
    (
        "restart-other",
        b"\x11\x04\0\0of this session!\x01\0\0\0\0\0\0\0\0\0\0\0",
    ),
    // ACK of a count, and CLOSE.
    ("ack-0", b"\x90\x01\0\0\0\0\0\0\0\0\0\0"),
    ("ack-1", b"\x90\x01\0\0\x01\0\0\0\0\0\0\0"),
    ("ack-2", b"\x90\x01\0\0\x02\0\0\0\0\0\0\0"),
    ("close-7", b"\x12\x01\0\0\x07\0\0\0"),
    // The first word of PROTOCOL with one message of 8 or of 12 bytes.
    ("protocol-8", b"\x80\x01\0\0"),
    ("protocol-12", b"\0\x02\0\0"),
    // `wl_display.sync`, each with a new id.
    ("sync-2", b"\x01\0\0\0\0\0\x0c\0\x02\0\0\0"),
    ("sync-3", b"\x01\0\0\0\0\0\x0c\0\x03\0\0\0"),
    ("sync-8", b"\x01\0\0\0\0\0\x0c\0\x08\0\0\0"),
    // `wl_display.delete_id`.
    ("delete-12", b"\x01\0\0\0\x01\0\x0c\0\x0c\0\0\0"),
    ("delete-13", b"\x01\0\0\0\x01\0\x0c\0\x0d\0\0\0"),
    ("delete-14", b"\x01\0\0\0\x01\0\x0c\0\x0e\0\0\0"),
    // `get_registry` of object 2, of this `bind` of `wl_compositor` as object 3 and of `wl_shm` as
    // object 4, and `create_surface` of object 5.
    ("registry", b"\x01\0\0\0\x01\0\x0c\0\x02\0\0\0"),
    (
        "compositor",
        b"\x02\0\0\0\0\0\x28\0\x01\0\0\0\x0e\0\0\0wl_compositor\0\0\0\x06\0\0\0\x03\0\0\0",
    ),
    (
        "shm",
        b"\x02\0\0\0\0\0\x20\0\x02\0\0\0\x07\0\0\0wl_shm\0\0\x01\0\0\0\x04\0\0\0",
    ),
    ("surface", b"\x03\0\0\0\0\0\x0c\0\x05\0\0\0"),
    // `create_pool` of 64 bytes as object 6, of this `create_buffer` of 4 by 4 pixels as object 7;
    // `attach` of the buffer to the surface, `damage_buffer` of its first pixel, `damage` of 640 by
    // 480 pixels, `commit`.
    ("pool", b"\x04\0\0\0\0\0\x10\0\x06\0\0\0\x40\0\0\0"),
    (
        "buffer",
        b"\x06\0\0\0\0\0\x20\0\x07\0\0\0\0\0\0\0\x04\0\0\0\x04\0\0\0\x10\0\0\0\0\0\0\0",
    ),
    (
        "attach",
        b"\x05\0\0\0\x01\0\x14\0\x07\0\0\0\0\0\0\0\0\0\0\0",
    ),
    (
        "damage",
        b"\x05\0\0\0\x09\0\x18\0\0\0\0\0\0\0\0\0\x01\0\0\0\x01\0\0\0",
    ),
    (
        "damage-image",
        b"\x05\0\0\0\x02\0\x18\0\0\0\0\0\0\0\0\0\x80\x02\0\0\xe0\x01\0\0",
    ),
    ("commit", b"\x05\0\0\0\x06\0\x08\0"),
    // `bind` of `wl_data_device_manager` as object 3, of this `create_data_source` of object 7, and
    // of this `send`, which carries a pipe.
    (
        "manager",
        b"\x02\0\0\0\0\0\x30\0\x01\0\0\0\x17\0\0\0wl_data_device_manager\0\0\x01\0\0\0\x03\0\0\0",
    ),
    ("source", b"\x03\0\0\0\0\0\x0c\0\x07\0\0\0"),
    ("send", b"\x07\0\0\0\x01\0\x10\0\x02\0\0\0a\0\0\0"),
];

/// The bytes of a row of words, one behind the other, so many times.
pub fn bytes_of(alloc: Global, times: u32, words: &str) -> Result<Bytes, Trouble> {
    let mut row = Bytes::new(alloc);
    add_all(alloc, &mut row, words)?;
    let mut bytes = Bytes::new(alloc);
    for _ in 0..times {
        bytes.append(row.as_slice())?;
    }
    Ok(bytes)
}

/// The bytes of a message, by its text.
pub fn message_of(alloc: Global, way: Way, text: &str) -> Result<Bytes, Trouble> {
    match read_message(alloc, text.as_bytes(), way) {
        Ok(read) => Ok(read.message.into_bytes()),
        Err(TextFault::Form) => Err(Trouble::NoWord),
        Err(TextFault::Memory) => Err(Trouble::Fault(ProxyFault::Memory)),
    }
}

fn add_all(alloc: Global, bytes: &mut Bytes, words: &str) -> Result<(), Trouble> {
    for word in words.split_whitespace() {
        match named(word) {
            Some(known) => bytes.append(known)?,
            None => add_digits(alloc, bytes, word)?,
        }
    }
    Ok(())
}

fn named(word: &str) -> Option<&'static [u8]> {
    for (name, bytes) in WORDS {
        if name == word {
            return Some(bytes);
        }
    }
    None
}

fn add_digits(alloc: Global, bytes: &mut Bytes, word: &str) -> Result<(), Trouble> {
    match hex::decode(alloc, word) {
        Ok(more) => {
            bytes.append(more.as_slice())?;
            Ok(())
        }
        Err(hex::FromHexError::OutOfMemory) => Err(Trouble::Fault(ProxyFault::Memory)),
        Err(_) => Err(Trouble::NoWord),
    }
}
