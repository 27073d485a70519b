//! Where bytes go to.

ghost use Rattle.std.specs.Prelude.{◌≡◌, ℕ, ◌<◌, ◌≤◌, Option, List, length, take, IfOk, OnErr, MatchResult};
ghost use Rattle.wp_outside.specs.Counts.{Rose};
ghost use Rattle.wp_outside.specs.Pieces.{IsPartOf, held_with};

/// A write failed; nothing of the piece was taken.
#[derive(Clone, Copy, Debug, PartialEq, Eq)]
pub struct Failed;

/// Something that bytes are written to.
pub trait Sink {
    // The bytes that were written so far, where the sink tells them.
    ghost held: { Self → Option (List ℕ) };

    // How many writes failed, at least.
    ghost faults: { Self → ℕ };

    /// Writes the first bytes of a piece that isn't empty, and answers how many, at least one.
    fn write(&mut self, bytes: &[u8]) -> Result<usize, Failed>
        requires { 0 < length bytes.now }
        ensures part { IfOk result (λ n. IsPartOf n (length bytes.now)) }
        ensures content { MatchResult result
            (λ n. held self.new ≡ held_with (held self.old) (take n bytes.now))
            (λ _. held self.new ≡ held self.old) }
        ensures cause { OnErr result (Rose (faults self.old) (faults self.new)) }
        ensures kept { faults self.old ≤ faults self.new };
}
