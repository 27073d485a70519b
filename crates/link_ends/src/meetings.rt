//! Where the two dials of a pair meet.

ghost use Rattle.std.specs.Prelude.{◌<◌};
ghost use Rattle.link_ends.specs.Meetings.{IfMet};

use crate::allowances::Allowance;
use crate::dial_pairs::Cut;
use crate::memory_lines::open_line;
use crate::new_ends::NewEnd;
use std::alloc::Global;
use std::sync::{Condvar, Mutex, Wait};
use wp_outside::{Direction, Side};

/// What a dial found.
#[derive(Drop)]
pub(crate) enum Met {
    /// A line.
    Line(NewEnd),
    /// The other side has left, and no line waits.
    Alone,
    /// Memory ran out, or the numbers of connections did.
    Memory,
}

// What is known of one side's dial.
#[derive(Drop)]
struct Place {
    is_waiting: bool,
    has_left: bool,
    line: Option<NewEnd>,
}

impl Place {
    fn new() -> Place {
        Place {
            is_waiting: false,
            has_left: false,
            line: None,
        }
    }
}

// Both sides' dials, and the lines that they are given.
#[derive(Drop)]
struct Meeting {
    near: Place,
    far: Place,
    // The number of the last connection, 0 before the first.
    latest: u32,
    cuts: Vec<Cut>,
    alloc: Global,
}

impl Meeting {
    fn place(&mut self, side: Side) -> &mut Place {
        match side {
            Side::Near => &mut self.near,
            Side::Far => &mut self.far,
        }
    }

    // Whether there is neither a line for this side, nor another side to make one with, nor word that
    // it has left.
    fn must_wait(&mut self, side: Side) -> bool {
        let other = self.place(other_side(side));
        if other.is_waiting || other.has_left {
            return false;
        }
        self.place(side).line.is_none()
    }

    // The line that waits, or a new one where the other side waits.
    fn answer(&mut self, side: Side, above: u32) -> Met
        ensures { IfMet result (λ end. above < end.connection) }
    {
        let own = self.place(side);
        own.is_waiting = false;
        if let Some(end) = own.line.take() {
            if end.connection > above {
                return Met::Line(end);
            }
        }
        if self.place(other_side(side)).is_waiting {
            return self.make(side, above);
        }
        Met::Alone
    }

    // A new line: one end for this side, and the other one left for the side that waits.
    fn make(&mut self, side: Side, above: u32) -> Met
        ensures { IfMet result (λ end. above < end.connection) }
    {
        let Some(connection) = self.latest.max(above).checked_add(1) else {
            return Met::Memory;
        };
        let up = Allowance::on(self.cuts.as_slice(), connection, Direction::Up);
        let down = Allowance::on(self.cuts.as_slice(), connection, Direction::Down);
        let Ok((near, far)) = open_line(self.alloc, up, down) else {
            return Met::Memory;
        };
        let near = NewEnd {
            connection,
            line: near,
        };
        let far = NewEnd {
            connection,
            line: far,
        };
        let (own, others) = match side {
            Side::Near => (near, far),
            Side::Far => (far, near),
        };
        self.latest = connection;
        let place = self.place(other_side(side));
        place.is_waiting = false;
        place.line = Some(others);
        Met::Line(own)
    }
}

fn other_side(side: Side) -> Side {
    match side {
        Side::Near => Side::Far,
        Side::Far => Side::Near,
    }
}

/// The meeting of a pair of dials, which both share.
#[derive(Drop)]
pub(crate) struct MeetingPoint {
    meeting: Mutex<Meeting>,
    changed: Condvar,
}

impl MeetingPoint {
    /// A meeting of two dials, with the cuts of their connections.
    pub(crate) fn new(alloc: Global, cuts: Vec<Cut>) -> MeetingPoint {
        MeetingPoint {
            meeting: Mutex::new(Meeting {
                near: Place::new(),
                far: Place::new(),
                latest: 0,
                cuts,
                alloc,
            }),
            changed: Condvar::new(),
        }
    }

    /// Waits until there is a line or the other side has left. The line's number is above the given
    /// one, that of this side's last line.
    pub(crate) fn dial<R: Wait>(&self, rt: &R, side: Side, above: u32) -> Met
        ensures { IfMet result (λ end. above < end.connection) }
    {
        let mut meeting = self.meeting.lock(rt);
        meeting.place(side).is_waiting = true;
        let mut meeting = self
            .changed
            .wait_while(rt, meeting, |meeting| meeting.must_wait(side));
        let met = meeting.answer(side, above);
        drop(meeting);
        self.changed.notify_all();
        met
    }

    /// This side dials no more.
    pub(crate) fn leave<R: Wait>(&self, rt: &R, side: Side) {
        let mut meeting = self.meeting.lock(rt);
        meeting.place(side).has_left = true;
        drop(meeting);
        self.changed.notify_all();
    }
}
