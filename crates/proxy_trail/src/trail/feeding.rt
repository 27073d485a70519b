//! The calls that bring something from the peer, from the workers and from the link.

ghost use Rattle.std.specs.Prelude.{◌≡◌, true};
ghost use Rattle.half_model.specs.Jobs.{awaits};
ghost use Rattle.owed_groups.specs.Lending.{done_of};
ghost use Rattle.side_model.specs.Events.{Fed, Handed, Came, Asks};
ghost use Rattle.side_model.specs.Sound.{IsItem};
ghost use Rattle.side_model.specs.Trails.{TrailCalls};
ghost use Rattle.proxy_trail.specs.Kept.{wants_peer};

use super::Trail;
use crate::recording::{fault_in, reason_of, record_read, settle};
use copy_workers::CopyDone;
use half_model::PeerIn;
use side_model::ProxyFault;

impl Trail {
    /// Takes an item that its peer put on its wire, and treats the messages that are whole then.
    ///
    /// # Errors
    /// Those of its proxy, the limit of the records, or want of memory.
    pub fn feed_peer(&mut self, item: PeerIn) -> Result<(), ProxyFault>
        requires wants { wants_peer self.old ≡ true }
        requires item { IsItem item }
        ensures { TrailCalls (Fed item) result self.old self.new }
    {
        if let Some(fault) = self.fault {
            return Err(fault);
        }
        self.book.close_room();
        let answer = self.proxy.feed_peer(item);
        let result = settle(&mut self.proxy, &mut self.book, answer);
        self.fault = fault_in(result);
        result
    }

    /// Takes a copy back. With the last copy of a message its frames are made, and the messages that
    /// wait are treated.
    ///
    /// # Errors
    /// Those of its proxy, the limit of the records, or want of memory; behind a fault, that one again.
    pub fn copy_done(&mut self, done: CopyDone) -> Result<(), ProxyFault>
        requires { awaits self.old.now.kept.jobs (done_of done) ≡ true }
        ensures { TrailCalls (Handed (done_of done)) result self.old self.new }
    {
        if let Some(fault) = self.fault {
            return Err(fault);
        }
        self.book.close_room();
        // Its receipt stands for just its words, which its type tells where a field is read.
        let _receipt = &done.receipt;
        let answer = self.proxy.copy_done(done);
        let result = settle(&mut self.proxy, &mut self.book, answer);
        self.fault = fault_in(result);
        result
    }

    /// Takes a piece, of any length, of what comes on the connection.
    ///
    /// # Errors
    /// The limit of the records where the piece is too heavy, and it is not read then; those of its
    /// proxy, the limit of the records for what was made of it, or want of memory; behind a fault, that
    /// one again.
    pub fn feed_link(&mut self, piece: &[u8]) -> Result<(), ProxyFault>
        ensures { TrailCalls (Came piece.now) result self.old self.new }
    {
        if let Some(fault) = self.fault {
            return Err(fault);
        }
        self.book.close_room();
        match record_read(&mut self.book, self.up, piece) {
            Ok(()) => {
                let answer = self.proxy.feed_link(piece);
                let result = settle(&mut self.proxy, &mut self.book, answer);
                self.fault = fault_in(result);
                result
            }
            Err(why) => {
                let fault = reason_of(why);
                self.fault = Some(fault);
                Err(fault)
            }
        }
    }

    /// Asks it to close.
    ///
    /// # Errors
    /// Those of its proxy, the limit of the records, or want of memory; behind a fault, that one again.
    pub fn close(&mut self, reason: u32) -> Result<(), ProxyFault>
        ensures { TrailCalls (Asks reason) result self.old self.new }
    {
        if let Some(fault) = self.fault {
            return Err(fault);
        }
        self.book.close_room();
        let answer = self.proxy.close(reason);
        let result = settle(&mut self.proxy, &mut self.book, answer);
        self.fault = fault_in(result);
        result
    }
}
