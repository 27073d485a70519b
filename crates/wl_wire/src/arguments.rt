//! The arguments of a message.

use crate::lists::Bytes;

/// One argument of a message.
#[derive(Debug, Drop, PartialEq, Eq)]
pub enum Arg {
    /// A signed number.
    Int(i32),
    /// An unsigned number.
    Uint(u32),
    /// A signed number in 1/256.
    Fixed(i32),
    /// The bytes of a string before its NUL, whatever they are.
    Str(Bytes),
    /// The null string.
    NullStr,
    /// The id of an object, 0 for null.
    Object(u32),
    /// The id of a new object.
    NewId(u32),
    /// A new object, as `wl_registry.bind` names it.
    Bind {
        /// The bytes of the interface's name.
        interface: Bytes,
        /// The version that is bound.
        version: u32,
        /// The id of the new object.
        id: u32,
    },
    /// The bytes of an array.
    Array(Bytes),
    /// A file descriptor, which travels beside the bytes.
    Handle,
}
