//! Where two sides differ on the bytes of their link.

use thiserror::Error;
use wp_outside::Direction;

/// The first place where the bytes that one side read are not those that the other one wrote.
#[derive(Clone, Copy, Debug, PartialEq, Eq, Error)]
#[error("{direction:?} on connection {connection} byte {place} was read as {read}, not {wrote:?}")]
pub struct Differs {
    /// The connection.
    pub connection: u32,
    /// The direction.
    pub direction: Direction,
    /// How many bytes stand before it.
    pub place: u64,
    /// The byte that was written there, if one was.
    pub wrote: Option<u8>,
    /// The byte that was read.
    pub read: u8,
}
