//! One side of a pair, whatever it has done so far.

ghost use Rattle.std.specs.Prelude.{◌≡◌, ◌<◌, false};

use super::streams::{Answer, Seen, Stream};
use crate::{Dial, Dialled, Link};

/// A dial that hasn't left.
#[derive(Drop)]
pub struct Caller<D: Dial + Drop> {
    dial: D,
    ghost stays: { D.has_left dial ≡ false },
}

/// A dial that hasn't left and has a line out.
#[derive(Drop)]
pub struct Holder<D: Dial + Drop> {
    dial: D,
    ghost stays: { D.has_left dial ≡ false },
    ghost out: { 0 < (D.dial_counts dial).lines_out },
}

/// One side: its dial, and its line where it has one.
#[derive(Drop)]
pub enum Party<D: Dial<Line = K> + Drop, K: Link + Drop> {
    Alone(Caller<D>),
    Connected(Holder<D>, Stream<K>),
    Left(D),
}

impl<D: Dial<Line = K> + Drop, K: Link + Drop> Party<D, K> {
    /// The side of a dial that hasn't left.
    pub fn new(dial: D) -> Party<D, K>
        requires { D.has_left dial ≡ false }
    {
        Party::Alone(Caller { dial })
    }

    /// Dials for the next line.
    pub fn dial(self, heard: bool) -> (Party<D, K>, Seen) {
        match self {
            Party::Alone(caller) => caller.dial(heard),
            other => (other, (Answer::Unfit, 0)),
        }
    }

    /// Hands its line back.
    pub fn back(self) -> (Party<D, K>, Seen) {
        match self {
            Party::Connected(holder, stream) => (
                Party::Alone(holder.back(stream.line)),
                (Answer::Done, 0),
            ),
            other => (other, (Answer::Unfit, 0)),
        }
    }

    /// Dials no more.
    pub fn leave(self) -> (Party<D, K>, Seen) {
        match self {
            Party::Alone(caller) => (Party::Left(caller.leave()), (Answer::Done, 0)),
            other => (other, (Answer::Unfit, 0)),
        }
    }

    /// Its dial, whatever state that is in.
    pub fn into_dial(self) -> D {
        match self {
            Party::Alone(caller) => caller.dial,
            Party::Connected(holder, _) => holder.dial,
            Party::Left(dial) => dial,
        }
    }
}

impl<D: Dial<Line = K> + Drop, K: Link + Drop> Caller<D> {
    fn dial(self, heard: bool) -> (Party<D, K>, Seen) {
        let mut dial = self.dial;
        match dial.dial(heard) {
            Dialled::Link { connection, link } => {
                let stream = Stream {
                    line: link,
                    sent: 0,
                    got: 0,
                };
                (
                    Party::Connected(Holder { dial }, stream),
                    (Answer::Line, u64::from(connection)),
                )
            }
            Dialled::Gone => (Party::Alone(Caller { dial }), (Answer::Gone, 0)),
            Dialled::Failed => (Party::Alone(Caller { dial }), (Answer::Failed, 0)),
            Dialled::Memory => (Party::Alone(Caller { dial }), (Answer::Unfit, 0)),
        }
    }

    fn leave(self) -> D {
        let mut dial = self.dial;
        dial.leave();
        dial
    }
}

impl<D: Dial<Line = K> + Drop, K: Link + Drop> Holder<D> {
    fn back(self, line: K) -> Caller<D> {
        let mut dial = self.dial;
        dial.back(line);
        Caller { dial }
    }
}
