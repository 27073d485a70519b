//! To hear the frames that have come.

ghost use Rattle.std.specs.Prelude.{◌≡◌, ◌<◌, true, length, None, Some, OnOk, IfOk, IfErr};
ghost use Rattle.transfer_frames.specs.declared.frame.Frame.TheVariants.{Ack, Restart};
ghost use Rattle.transfer_frames.specs.declared.frame.FrameRole.TheVariants.{Counted};
ghost use Rattle.transfer_frames.specs.Grammar.{role, IsFrame};
ghost use Rattle.side_model.specs.Due.{hear, group};
ghost use Rattle.side_model.specs.Events.{Rest};
ghost use Rattle.proxy_core.specs.Keeping.{Keeps};
ghost use Rattle.proxy_core.specs.Doing.{Did, Fails};
ghost use Rattle.proxy_core.specs.Hearing.{Takes, Hears, IsUp, unread_left, HearsAll};
ghost use Rattle.proxy_core.specs.Hearing.{fault_at, MayHear, CountsIn, counted};
ghost use Rattle.side_model.specs.Steps.{with_kept};
ghost use Rattle.side_model.specs.Sound.{Sound};

use super::*;
use crate::counting::messages_in;
use crate::link::{Came, Place};
use half_model::TakeFault;
use transfer_frames::{DecodeFault, Frame, FrameCause, FrameRole, part_of};

impl Machine {
    // Hears all frames that have come. Then none stands whole at the front of the bytes read.
    pub(super) fn hear_all(&mut self) -> Result<(), ProxyFault>
        requires running { self.old.fault ≡ None }
        requires keeps { Keeps self.old }
        requires groups { group self.old ≡ Rest }
        ensures all { OnOk result (HearsAll self.old self.new) }
        ensures goes_on { OnOk result (self.new.fault ≡ None) }
        ensures fails { IfErr result (λ fault. Fails fault self.old self.new) }
    {
        'frames: loop {
            if !self.hear_one()? {
                return Ok(());
            }
        }
    }

    // Hears the frame at the front of the bytes read, if a whole one stands there.
    fn hear_one(&mut self) -> Result<bool, ProxyFault>
        requires running { self.old.fault ≡ None }
        requires sound { Sound self.old }
        ensures did { Did result (hear self.old) self.old self.new }
        ensures less { IfOk result (λ went. went ≡ true
            → unread_left self.new < unread_left self.old) }
        ensures goes_on { OnOk result (self.new.fault ≡ None) }
    {
        match self.take_frame() {
            Ok(None) => Ok(false),
            Ok(Some(came)) => match self.hear_frame(came) {
                Ok(()) => Ok(true),
                Err(fault) => Err(fault),
            },
            Err(fault) => Err(fault),
        }
    }

    // Takes the frame at the front out of the bytes read.
    #[tactic(auto, unfolding(side_model::specs::Due::hear))]
    fn take_frame(&mut self) -> Result<Option<Came>, ProxyFault>
        requires running { self.old.fault ≡ None }
        ensures { Takes result self.old self.new }
    {
        match &mut self.link {
            None => Ok(None),
            Some(link) => {
                let at = Place {
                    connection: link.connection,
                    place: link.reader.place(),
                };
                match link.reader.next_frame() {
                    Ok(None) => Ok(None),
                    Ok(Some(frame)) => Ok(Some(Came { frame, at })),
                    Err(DecodeFault::Frame(cause)) => {
                        let fault = fault_at(at, cause);
                        self.fault = Some(fault);
                        Err(fault)
                    }
                    Err(DecodeFault::Memory) => {
                        self.fault = Some(ProxyFault::Memory);
                        Err(ProxyFault::Memory)
                    }
                }
            }
        }
    }

    // Hears a frame that was taken out.
    fn hear_frame(&mut self, came: Came) -> Result<(), ProxyFault>
        requires running { self.old.fault ≡ None }
        requires sound { Sound self.old }
        requires frame { IsFrame came.frame }
        requires up { IsUp came.at.connection self.old.live.here }
        ensures { Hears result came.frame came.at self.old self.new }
    {
        let Came { frame, at } = came;
        match part_of(&frame) {
            FrameRole::Tells { count } => self.hear_ack(count, at),
            FrameRole::Greets {
                token,
                connection,
                received,
            } => self.hear_restart(token, connection, received, at),
            FrameRole::Counted { closes } => self.hear_counted(frame, closes, at),
        }
    }

    // Hears an ACK.
    fn hear_ack(&mut self, count: u64, at: Place) -> Result<(), ProxyFault>
        requires running { self.old.fault ≡ None }
        requires sound { Sound self.old }
        requires up { IsUp at.connection self.old.live.here }
        ensures { Hears result (Ack count) at self.old self.new }
    {
        match self.counts.on_ack(count, &self.ring) {
            Ok(()) => {
                self.ring.ack(count);
                Ok(())
            }
            Err(cause) => {
                let fault = fault_at(at, cause);
                self.fault = Some(fault);
                Err(fault)
            }
        }
    }

    // Hears a RESTART.
    fn hear_restart(
        &mut self,
        token: [u8; 16],
        connection: u32,
        received: u64,
        at: Place,
    ) -> Result<(), ProxyFault>
        requires running { self.old.fault ≡ None }
        requires sound { Sound self.old }
        requires up { IsUp at.connection self.old.live.here }
        ensures { Hears result (Restart token connection received) at self.old self.new }
    {
        match &mut self.link {
            None => Ok(()),
            Some(link) => match self
                .counts
                .on_restart(token, connection, received, &self.ring)
            {
                Ok(()) => {
                    link.answered = true;
                    link.next = received;
                    self.ring.ack(received);
                    Ok(())
                }
                Err(cause) => {
                    let fault = fault_at(at, cause);
                    self.fault = Some(fault);
                    Err(fault)
                }
            },
        }
    }

    // Hears a counted frame.
    fn hear_counted(&mut self, frame: Frame, closes: bool, at: Place) -> Result<(), ProxyFault>
        requires running { self.old.fault ≡ None }
        requires sound { Sound self.old }
        requires frame { IsFrame frame }
        requires counted { role frame ≡ Counted closes }
        requires up { IsUp at.connection self.old.live.here }
        ensures { Hears result frame at self.old self.new }
    {
        match self.counts.refuses() {
            Some(cause) => {
                drop(frame);
                let fault = fault_at(at, cause);
                self.fault = Some(fault);
                Err(fault)
            }
            None => self.accept(frame, closes, at),
        }
    }

    // Accepts a counted frame, which the connection doesn't refuse.
    fn accept(&mut self, frame: Frame, closes: bool, at: Place) -> Result<(), ProxyFault>
        requires running { self.old.fault ≡ None }
        requires frame { IsFrame frame }
        requires counted { role frame ≡ Counted closes }
        requires passes { MayHear (Counted closes) self.old }
        ensures { Hears result frame at self.old self.new }
    {
        let messages = messages_in(&frame);
        match self.taking.accept(frame, &mut self.objects, &mut self.handles, &mut self.pipes) {
            Ok(()) => self.count(messages, closes),
            Err(TakeFault::Frame(cause)) => {
                let fault = fault_at(at, cause);
                self.fault = Some(fault);
                Err(fault)
            }
            Err(TakeFault::Memory) => {
                self.fault = Some(ProxyFault::Memory);
                Err(ProxyFault::Memory)
            }
        }
    }

    // Counts an accepted frame, and notes how many messages it has.
    fn count(&mut self, messages: Option<u32>, closes: bool) -> Result<(), ProxyFault>
        requires running { self.old.fault ≡ None }
        requires passes { MayHear (Counted closes) self.old }
        ensures { CountsIn result messages closes self.old self.new }
    {
        match messages {
            None => {
                self.count_alone(closes);
                Ok(())
            }
            Some(messages) => match self.notes.push_back(Noted::Received { messages }) {
                Ok(()) => {
                    self.count_alone(closes);
                    Ok(())
                }
                Err(_) => {
                    self.fault = Some(ProxyFault::Memory);
                    Err(ProxyFault::Memory)
                }
            },
        }
    }

    // Counts an accepted frame.
    fn count_alone(&mut self, closes: bool)
        requires passes { MayHear (Counted closes) self.old }
        ensures { self.new ≡ with_kept (counted closes) self.old }
    {
        match self.counts.on_counted(closes) {
            Ok(()) => {}
            Err(_) => unreachable!(),
        }
    }
}

// The fault of a frame that is refused there.
fn fault_at(at: Place, cause: FrameCause) -> ProxyFault
    ensures { result ≡ fault_at at cause }
{
    ProxyFault::Frame {
        connection: at.connection,
        place: at.place,
        cause,
    }
}
