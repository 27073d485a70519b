//! The bytes that are to be written next, lent.

ghost use Rattle.std.specs.Prelude.{◌≡◌, ⊤, Ok, Err, MatchResult};
ghost use mathlib.Core.Option.{none};
ghost use Rattle.std.specs.Borrow.{sem, follows_so};
ghost use Rattle.side_model.specs.Trails.{Lends};
ghost use Rattle.proxy_trail.specs.contracts.trail.Trail.{the_row};
ghost use Rattle.proxy_trail.specs.Kept.{lent_bytes};

use super::Trail;
use side_model::ProxyFault;

impl Trail {
    /// Lends the bytes that are to be written next, as they stand, and makes room for them in the
    /// records first. Empty exactly where no connection is up, or there is nothing to write.
    ///
    /// # Errors
    /// The limit of the records where these bytes are too heavy, or want of memory; behind a fault, that
    /// one again.
    pub fn link_out(&mut self) -> Result<&[u8], ProxyFault>
        ensures* { sem 𝓛 (follows_so the_row the_row self.entry.ghost_name none (λ _ _. ⊤)
            (λ last. MatchResult result
            (λ bytes. (bytes.now ≡ lent_bytes self.old) × Lends (Ok tt) self.old last)
            (λ fault. Lends (Err fault) self.old last))) }
    {
        self.make_room()?;
        Ok(self.lent())
    }
}
