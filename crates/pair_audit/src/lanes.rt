//! One lane of a connection: what was read of it beside what was written.

ghost use Rattle.std.specs.Prelude.{◌≡◌, ◌==◌, length, take_while};
ghost use Rattle.std.specs.List.{zip};
ghost use Rattle.pair_audit.specs.Lanes.{AuditsLane};

use pair_laws::Differs;
use wp_outside::Direction;

/// Whether the bytes that were read of a lane begin those that were written.
///
/// # Errors
/// The first byte that was read and not written at its place.
pub(crate) fn audit_lane(
    connection: u32,
    direction: Direction,
    written: &[u8],
    read: &[u8],
) -> Result<(), Differs>
    ensures { AuditsLane connection direction written.now read.now result }
{
    let place = shared_count(written, read);
    match read.get(place) {
        None => Ok(()),
        Some(byte) => Err(Differs {
            connection,
            direction,
            place: place as u64,
            wrote: written.get(place).copied(),
            read: *byte,
        }),
    }
}

// How many bytes are the same at the beginning of both.
fn shared_count(written: &[u8], read: &[u8]) -> usize
    ensures { result ≡ length (take_while (λ pair. pair.0 == pair.1) (zip read.now written.now)) }
{
    read.iter()
        .zip(written)
        .take_while(|(read, wrote)| read == wrote)
        .count()
}
