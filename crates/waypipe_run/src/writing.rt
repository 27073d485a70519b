//! Writing a whole text.
ghost use Rattle.std.specs.Prelude.{◌≡◌, ◌≤◌, OnOk, OnErr};
ghost use Rattle.wp_outside.specs.Counts.{Rose};
ghost use Rattle.wp_outside.specs.Pieces.{held_with};
ghost use Rattle.waypipe_run.specs.Moving.{WroteFront};

use wp_outside::{Failed, Sink};

/// Writes a text in order, each byte once, over writes that take a part. Where a write fails, the
/// rest isn't written.
pub fn write_all<K: Sink>(output: &mut K, text: &[u8]) -> Result<(), Failed>
    ensures ok { OnOk result (K.held output.new ≡ held_with (K.held output.old) text.now) }
    ensures cause { OnErr result (Rose (K.faults output.old) (K.faults output.new)) }
    ensures front { WroteFront (K.held output.old) (K.held output.new) text.now }
    ensures kept { K.faults output.old ≤ K.faults output.new }
{
    let mut written = 0usize;
    while written < text.len() {
        match output.write(text.split_at(written).1) {
            Ok(count) => written += count,
            Err(failed) => return Err(failed),
        }
    }
    Ok(())
}
