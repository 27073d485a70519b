//! What a side accepted and what it was told, computed from the bytes that it read, frame by frame.

ghost use Rattle.std.specs.Prelude.{◌≡◌, ◌++◌, List, [], ◌∷◌, max, map, IfOk, OnOk};
ghost use Rattle.transfer_frames.specs.Grammar.{role};
ghost use Rattle.pair_model.specs.Rows.{counted, count_in};
ghost use Rattle.pair_model.specs.Lines.{Rising};
ghost use Rattle.pair_model.specs.Plain.{line_of, HearsLine, Hears};

use std::alloc::{AllocError, Global};
use transfer_frames::{DecodeFault, Frame, FrameRole, first_frame, part_of};
use wl_wire::Bytes;

/// One connection as a side keeps it.
#[derive(Debug, Drop)]
pub struct PlainLine {
    /// Its number.
    pub connection: u32,
    /// The bytes written on it.
    pub written: Bytes,
    /// The bytes read from it.
    pub read: Bytes,
}

/// What a side heard from the other.
#[derive(Debug, Drop)]
pub struct Heard {
    /// The counted frames that it accepted, in order.
    pub frames: Vec<Frame>,
    /// The greatest count of its own frames that the other told it, 0 where it told none.
    pub acknowledged: u64,
}

impl Heard {
    /// Takes the next frame, by its part on the connection.
    fn take(&mut self, frame: Frame) -> Result<(), AllocError>
        ensures frames { OnOk result (self.new.frames.items ≡ self.old.frames.items ++ counted (frame ∷ [])) }
        ensures told { OnOk result (self.new.acknowledged ≡ max self.old.acknowledged (count_in (role frame))) }
    {
        match part_of(&frame) {
            FrameRole::Counted { .. } => self.frames.push(frame)?,
            FrameRole::Tells { count } => self.acknowledged = self.acknowledged.max(count),
            FrameRole::Greets { received, .. } => {
                self.acknowledged = self.acknowledged.max(received)
            }
        }
        Ok(())
    }

    /// Takes the whole frames of the bytes read on one connection, up to the first place where none
    /// stands.
    #[tactic(auto, using(crate::proofs::Hearing::hears_first, crate::proofs::Hearing::hears_more, crate::proofs::Hearing::takes_some, crate::proofs::Hearing::heard_none, crate::proofs::Hearing::heard_fault))]
    fn take_line(&mut self, alloc: Global, read: &[u8]) -> Result<(), AllocError>
        ensures { OnOk result (HearsLine read.now self.old.frames.items self.old.acknowledged
            self.new.frames.items self.new.acknowledged) }
    {
        let mut rest = read;
        'frames: loop {
            match first_frame(alloc, rest) {
                Ok(Some((frame, length))) => {
                    self.take(frame)?;
                    let (_, behind) = rest.split_at(length);
                    rest = behind;
                }
                Ok(None) => return Ok(()),
                Err(DecodeFault::Frame(_)) => return Ok(()),
                Err(DecodeFault::Memory) => return Err(AllocError),
            }
        }
    }
}

/// What a side with these lines heard: the counted frames that it accepted, connection by
/// connection, and the greatest count that it was told. A connection is read up to the first place
/// where no whole frame stands.
///
/// # Errors
/// Only where memory runs out.
#[tactic(auto, using(crate::proofs::Hearing::hears_nothing, crate::proofs::Hearing::hears_next, crate::proofs::Hearing::hears_all))]
pub fn hear_lines(alloc: Global, lines: &[PlainLine]) -> Result<Heard, AllocError>
    requires { Rising 0 (map line_of lines.now) }
    ensures { IfOk result (λ heard. Hears (map line_of lines.now) heard.frames.items heard.acknowledged) }
{
    let mut heard = Heard {
        frames: Vec::new(alloc),
        acknowledged: 0,
    };
    for line in lines {
        heard.take_line(alloc, line.read.as_slice())?;
    }
    Ok(heard)
}
