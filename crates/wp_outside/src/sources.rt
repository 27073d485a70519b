//! Where bytes come from.

ghost use Rattle.std.specs.Prelude.{◌≡◌, ℕ, ◌<◌, ◌≤◌, Option, List, length};
ghost use Rattle.wp_outside.specs.Counts.{Rose};
ghost use Rattle.wp_outside.specs.Pieces.{IfBytes, MatchFailed, IsPartOf, IfTold, Gives, left_after};

/// What one read gave.
#[derive(Clone, Copy, Debug, PartialEq, Eq)]
pub enum Taken {
    /// So many bytes, at least one, at the front of the buffer.
    Bytes(usize),
    /// No byte is left.
    End,
    /// The read failed.
    Failed,
}

/// Something that bytes are read from.
pub trait Source {
    // The bytes that are left, where the source tells them.
    ghost left: { Self → Option (List ℕ) };

    // How many reads failed.
    ghost faults: { Self → ℕ };

    /// Reads some of the next bytes into the front of a buffer that isn't empty.
    fn read(&mut self, buf: &mut [u8]) -> Taken
        requires { 0 < length buf.old }
        ensures part { IfBytes result (λ n. IsPartOf n (length buf.old)) }
        ensures content { IfTold (left self.old) (λ bytes. Gives result bytes buf.old buf.new) }
        ensures rest { left self.new ≡ left_after result (left self.old) }
        ensures cause { MatchFailed result (Rose (faults self.old) (faults self.new))
            (faults self.new ≡ faults self.old) }
        ensures kept { faults self.old ≤ faults self.new };
}
