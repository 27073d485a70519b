//! The calls of the link but for what comes on it.

ghost use Rattle.std.specs.Prelude.{◌≡◌, ◌<◌, ◌≤◌, None, MatchOption, OnErr};
ghost use Rattle.side_model.specs.Events.{Up, Down};
ghost use Rattle.side_model.specs.Trails.{TrailCalls, trail_step, Sends, Lends};
ghost use Rattle.proxy_trail.specs.Kept.{lent_bytes};

use super::Trail;
use crate::recording::{fault_in, reason_of, record_line, record_sent};
use side_model::ProxyFault;

impl Trail {
    /// A connection comes up.
    ///
    /// # Errors
    /// `Connections` where the number is above 4,096; else the limit of the records, or want of memory;
    /// behind a fault, that one again. No line is added then.
    pub fn link_up(&mut self, connection: u32) -> Result<(), ProxyFault>
        requires down { self.old.fault ≡ None → self.old.now.live.here ≡ None }
        requires later { self.old.now.kept.last < connection }
        ensures calls { TrailCalls (Up connection) result self.old self.new }
        ensures no_line { OnErr result (self.new.book.trail.lines.rows ≡ self.old.book.trail.lines.rows) }
    {
        if let Some(fault) = self.fault {
            return Err(fault);
        }
        self.book.close_room();
        match record_line(&mut self.book, connection) {
            Ok(()) => {
                let result = self.proxy.link_up(connection);
                self.fault = fault_in(result);
                self.up = true;
                result
            }
            Err(why) => {
                let fault = reason_of(why);
                self.fault = Some(fault);
                Err(fault)
            }
        }
    }

    /// The connection goes down, if one is up. Takes no memory.
    pub fn link_down(&mut self)
        ensures { MatchOption self.old.fault
            (self.new ≡ trail_step Down self.old) (λ _. self.new ≡ self.old) }
    {
        if self.fault.is_some() {
            return;
        }
        self.book.close_room();
        self.proxy.link_down();
        self.up = false;
    }

    /// Makes room in the records for the bytes that are to be written next.
    ///
    /// # Errors
    /// The limit of the records where these bytes are too heavy, or want of memory; behind a fault, that
    /// one again.
    pub fn make_room(&mut self) -> Result<(), ProxyFault>
        ensures { Lends result self.old self.new }
    {
        if let Some(fault) = self.fault {
            return Err(fault);
        }
        self.book.close_room();
        match self.book.make_room(self.proxy.link_out().len()) {
            Ok(()) => Ok(()),
            Err(why) => {
                let fault = reason_of(why);
                self.fault = Some(fault);
                Err(fault)
            }
        }
    }

    /// The bytes that are to be written next; none behind a fault. Takes no memory.
    pub fn lent(&self) -> &[u8]
        ensures { result.now ≡ lent_bytes self.now }
    {
        match self.fault {
            None => self.proxy.link_out(),
            Some(_) => &[],
        }
    }

    /// So many of the bytes that were lent are written. No other call may have changed anything since.
    /// Takes no memory.
    pub fn link_sent(&mut self, count: usize)
        requires { count ≤ self.old.book.trail.lines.room }
        ensures { MatchOption self.old.fault
            (Sends count self.old self.new) (λ _. self.new ≡ self.old) }
    {
        if self.fault.is_some() {
            return;
        }
        record_sent(
            &mut self.book,
            self.up,
            self.proxy.link_out().split_at(count).0,
        );
        self.proxy.link_sent(count);
    }
}
