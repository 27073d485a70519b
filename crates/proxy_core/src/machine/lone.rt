//! To make a frame that is no message's.

ghost use Rattle.std.specs.Prelude.{◌≡◌, ◌∷◌, [], None, OnOk, IfOk, IfErr};
ghost use Rattle.half_model.specs.declared.notes.Noted.TheVariants.{Group};
ghost use Rattle.transfer_frames.specs.Grammar.{IsFrame, spelling};
ghost use Rattle.side_model.specs.declared.fault.ProxyFault.TheVariants.{Memory};
ghost use Rattle.side_model.specs.Calls.{Halted};
ghost use Rattle.side_model.specs.Steps.{with_kept, made, alone};
ghost use Rattle.side_model.specs.Sound.{Sound};
ghost use Rattle.proxy_core.specs.Making.{HasPlaces};

use super::*;
use half_model::{CopyList, FrameList};
use transfer_frames::{Frame, encode};
use wl_wire::Bytes;

impl Machine {
    // Makes one frame: it goes into the ring and is noted.
    //
    // Errors: only where memory runs out.
    pub(super) fn make_lone(&mut self, frame: Frame) -> Result<(), ProxyFault>
        requires running { self.old.fault ≡ None }
        requires sound { Sound self.old }
        requires frame { IsFrame frame }
        requires places { HasPlaces self.old.kept.ring (spelling frame ∷ []) }
        ensures ok { OnOk result (self.new ≡ with_kept (made (alone frame)) self.old) }
        ensures err { IfErr result (λ fault. Halted Memory self.old self.new) }
        ensures memory { IfErr result (λ fault. fault ≡ Memory) }
    {
        match lone_group(self.alloc, frame) {
            Ok((spelled, group)) => match self.notes.push_back(group) {
                Ok(()) => {
                    self.ring.push(spelled);
                    Ok(())
                }
                Err(_) => {
                    self.fault = Some(ProxyFault::Memory);
                    Err(ProxyFault::Memory)
                }
            },
            Err(_) => {
                self.fault = Some(ProxyFault::Memory);
                Err(ProxyFault::Memory)
            }
        }
    }
}

// The bytes of a frame, and the note of it alone.
fn lone_group(alloc: Global, frame: Frame) -> Result<(Bytes, Noted), AllocError>
    requires { IsFrame frame }
    ensures spelled { IfOk result (λ it. it.0 ≡ spelling frame) }
    ensures group { IfOk result (λ it. it.1 ≡ Group (frame ∷ []) []) }
{
    let spelled = encode(alloc, &frame)?;
    let mut frames = FrameList::new(alloc);
    frames.push(frame)?;
    Ok((
        spelled,
        Noted::Group {
            frames,
            copies: CopyList::new(alloc),
        },
    ))
}
