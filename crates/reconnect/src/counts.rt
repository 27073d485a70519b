//! The counts and their calls.

ghost use Rattle.std.specs.Prelude.{◌≡◌, ◌+◌, ◌<◌, ◌≤◌, Bool, None, IsSome, OnOk, OnErr};
ghost use Rattle.std.specs.Option.{ForSome};
ghost use Rattle.transfer_frames.specs.declared.frame.Frame.TheVariants.{Restart};
ghost use Rattle.transfer_frames.specs.declared.frame.FrameRole.TheVariants.{Counted, Tells};
ghost use Rattle.transfer_frames.specs.declared.frame.FrameRole.TheVariants.{Greets};
ghost use Rattle.transfer_frames.specs.Grammar.{IsFrame};
ghost use Rattle.pair_model.specs.LinkFaults.{MOST_FRAMES};
ghost use Rattle.pair_model.specs.RingState.{RingState};
ghost use Rattle.pair_model.specs.Tally.{tally_new, tally_greet, tally_answered, tally_counted};
ghost use Rattle.pair_model.specs.Tally.{tally_whole};
ghost use Rattle.reconnect.specs.Judging.{fault_of, Judges};

use ack_ring::Ring;
use std::marker::Model;
use transfer_frames::{Frame, FrameCause};

// How many frames can be counted.
const COUNTABLE: u64 = 1 << 60;

/// The counts of a side on the connections of one session: how many frames of the other side it
/// accepted, and on the connection that was begun last, what the other side's RESTART told and how
/// many counted frames are wholly sent.
///
/// A frame of the connection is judged by the call for its part, which changes nothing where it
/// refuses. No call takes memory.
#[derive(Debug, Drop)]
pub struct Counts {
    token: [u8; 16],
    accepted: u64,
    // Whether CLOSE is among the accepted frames.
    closed: bool,
    // The number of the connection that was begun last.
    connection: Option<u32>,
    // The received count of the RESTART that was read on it.
    answer: Option<u64>,
    // How many counted frames are wholly sent on it.
    whole: u64,
}

impl Model for Counts {
    ghost use Rattle.pair_model.specs.Tally.{Tally};

    ghost Value = { Tally };

    ghost view = { λ counts. record {
      token = counts.token;
      accepted = counts.accepted;
      closed = counts.closed;
      connection = counts.connection;
      answer = counts.answer;
      whole = counts.whole;
    } };

    ghost use Rattle.reconnect.specs.Bounds.{IsBounded};

    ghost invariant = { λ counts. IsBounded counts.accepted counts.answer counts.whole };
}

impl Counts {
    /// The counts of a session that has had no connection.
    pub fn new(token: [u8; 16]) -> Counts
        ensures { result ≡ tally_new token }
    {
        Counts {
            token,
            accepted: 0,
            closed: false,
            connection: None,
            answer: None,
            whole: 0,
        }
    }

    /// Begins a connection, and answers the RESTART that greets on it.
    #[tactic(auto, using(crate::proofs::CountLemmas::greeting_is_frame))]
    pub fn greet(&mut self, connection: u32) -> Frame
        ensures frame { result ≡ Restart self.old.token connection self.old.accepted }
        ensures grammar { IsFrame result }
        ensures begun { self.new ≡ tally_greet connection self.old }
    {
        self.connection = Some(connection);
        self.answer = None;
        self.whole = 0;
        Frame::Restart {
            token: self.token,
            connection,
            received: self.accepted,
        }
    }

    /// Judges a RESTART, and keeps its received count.
    ///
    /// # Errors
    /// `RestartAgain` where one was read on this connection, else `Token`, `Connection`,
    /// `RestartBehind` or `RestartAhead`, the first that is so.
    pub fn on_restart(
        &mut self,
        token: [u8; 16],
        connection: u32,
        received: u64,
        ring: &Ring,
    ) -> Result<(), FrameCause>
        requires { IsSome self.old.connection }
        ensures exact { Judges result
            (fault_of ring.now self.old (Greets token connection received)) }
        ensures ok { OnOk result (self.new ≡ tally_answered received self.old) }
        ensures err { OnErr result (self.new ≡ self.old) }
    {
        if self.answer.is_some() {
            return Err(FrameCause::RestartAgain);
        }
        if token != self.token {
            return Err(FrameCause::Token);
        }
        if Some(connection) != self.connection {
            return Err(FrameCause::Connection);
        }
        if received < ring.acknowledged() {
            return Err(FrameCause::RestartBehind);
        }
        if ring.made() < received {
            return Err(FrameCause::RestartAhead);
        }
        self.answer = Some(received);
        Ok(())
    }

    /// Judges an ACK, which changes nothing here.
    ///
    /// # Errors
    /// `RestartMissing` where no RESTART was read on this connection, else `AckBehind` where the
    /// count is below the acknowledged one, or `AckAhead` where it is above the received count of
    /// RESTART and the frames wholly sent on this connection together.
    pub fn on_ack(&mut self, count: u64, ring: &Ring) -> Result<(), FrameCause>
        requires { IsSome self.old.connection }
        ensures exact { Judges result (fault_of ring.now self.old (Tells count)) }
        ensures same { self.new ≡ self.old }
    {
        let Some(received) = self.answer else {
            return Err(FrameCause::RestartMissing);
        };
        if count < ring.acknowledged() {
            return Err(FrameCause::AckBehind);
        }
        if received + self.whole < count {
            return Err(FrameCause::AckAhead);
        }
        Ok(())
    }

    /// Judges a counted frame, CLOSE or another one, and counts it.
    ///
    /// # Errors
    /// What `refuses` answers.
    pub fn on_counted(&mut self, is_close: bool) -> Result<(), FrameCause>
        requires { IsSome self.old.connection }
        ensures exact { (ring : RingState) →
            Judges result (fault_of ring self.old (Counted is_close)) }
        ensures ok { OnOk result (self.new ≡ tally_counted is_close self.old) }
        ensures err { OnErr result (self.new ≡ self.old) }
    {
        match self.refuses() {
            Some(cause) => Err(cause),
            None => {
                self.accepted += 1;
                self.closed |= is_close;
                Ok(())
            }
        }
    }

    /// Why a counted frame, CLOSE or another one, would be refused now: `RestartMissing` where no
    /// RESTART was read on this connection, else `AfterClose` where a CLOSE was accepted, or
    /// `CountSpent` where 2^60 frames were.
    pub fn refuses(&self) -> Option<FrameCause>
        requires { IsSome self.now.connection }
        ensures { (ring : RingState) (closes : Bool) →
            result ≡ fault_of ring self.now (Counted closes) }
    {
        if self.answer.is_none() {
            Some(FrameCause::RestartMissing)
        } else if self.closed {
            Some(FrameCause::AfterClose)
        } else if self.accepted >= COUNTABLE {
            Some(FrameCause::CountSpent)
        } else {
            None
        }
    }

    /// Counts one more counted frame as wholly sent on this connection.
    pub fn sent_whole(&mut self)
        requires read { IsSome self.old.answer }
        requires few { ForSome self.old.answer
            (λ received. received + self.old.whole < MOST_FRAMES) }
        ensures { self.new ≡ tally_whole self.old }
    {
        self.whole += 1;
    }

    /// How many frames of the other side were accepted, on all connections together.
    pub fn accepted(&self) -> u64
        ensures exact { result ≡ self.now.accepted }
        ensures few { result ≤ MOST_FRAMES }
    {
        self.accepted
    }

    /// Whether the other side's CLOSE was accepted.
    pub fn closed(&self) -> bool
        ensures { result ≡ self.now.closed }
    {
        self.closed
    }
}

#[cfg(test)]
impl Counts {
    /// The counts of a side that accepted as many frames as can be counted.
    pub(crate) fn all_counted(token: [u8; 16]) -> Counts {
        Counts {
            accepted: COUNTABLE,
            ..Counts::new(token)
        }
    }
}
