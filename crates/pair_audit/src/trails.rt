//! The records of both proxies, one beside the other.

ghost use Rattle.std.specs.Prelude.{MatchResult};
ghost use Rattle.pair_model.specs.Lines.{Agrees};
ghost use Rattle.pair_laws.specs.Differences.{FirstDiffers};
ghost use Rattle.pair_audit.specs.Trails.{rows_of};

use crate::lines::audit_lines;
use pair_laws::Differs;
use proxy_trail::Trail;

/// That two sides agree on the bytes of their link.
#[derive(Clone, Copy, Debug, PartialEq, Eq)]
pub struct Agreed;

/// Whether two sides agree on the bytes of their link, by their records: on each connection, both
/// ways, the bytes that one side read begin those that the other one wrote. A side that lacks a
/// connection wrote and read nothing there. Takes no memory, and the time of one walk along both.
///
/// # Errors
/// The first byte that was read and not written at its place, where connections are compared by
/// their rising numbers, and on each one what goes up before what goes down.
pub fn audit(near: &Trail, far: &Trail) -> Result<Agreed, Differs>
    ensures { MatchResult result (λ _. Agrees (rows_of near.now) (rows_of far.now))
        (λ it. FirstDiffers (rows_of near.now) (rows_of far.now) it) }
{
    near.stands();
    far.stands();
    audit_lines(&near.record().lines, &far.record().lines)?;
    Ok(Agreed)
}
