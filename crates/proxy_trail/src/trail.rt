//! A proxy with its records.

ghost use Rattle.std.specs.Prelude.{◌≡◌, ◌<◌, ◌≤◌, IfOk, MatchOption, length, None, Some, true, false};
ghost use Rattle.half_model.specs.Jobs.{awaits};
ghost use Rattle.owed_groups.specs.Lending.{done_of};
ghost use Rattle.side_model.specs.Books.{weight};
ghost use Rattle.side_model.specs.Shows.{has_ended};
ghost use Rattle.side_model.specs.Trails.{no_records, Keeps};
ghost use Rattle.trail_records.specs.Noting.{trail_of};
ghost use Rattle.proxy_core.specs.Offering.{may_connect};
ghost use Rattle.proxy_trail.specs.Kept.{wants_peer};

mod feeding;
mod giving;
mod lending;
mod links;

use copy_workers::CopyDone;
use proxy_core::Proxy;
use side_model::ProxyFault;
use std::alloc::{AllocError, Global};
use std::marker::Model;
use trail_records::{Book, TrailRecord};
use wl_tables::Way;
use wp_outside::Side;

/// A proxy that keeps its records: what it took from its peer, the frames that it made, what it wrote
/// and read on each connection, how many messages it gave, and the order in which messages passed.
///
/// Its calls are those of the proxy. What a call would add to the records is weighed first: where the
/// weight would pass 268,435,456 it answers `Limit` with `Trail`, for good. Of a call that is stopped
/// so, all that came before what is too heavy is recorded.
#[derive(Drop)]
pub struct Trail {
    proxy: Proxy,
    book: Book,
    // For what it has failed.
    fault: Option<ProxyFault>,
    // Whether a connection is up, while it has not failed.
    up: bool,
}

impl Model for Trail {
    ghost use Rattle.side_model.specs.Trails.{TrailState};

    ghost Value = { TrailState };

    ghost use Rattle.proxy_trail.specs.Kept.{state_of, IsKept};

    ghost view = { λ trail. state_of trail.proxy trail.book trail.fault };

    ghost invariant = { λ trail. IsKept trail.up (state_of trail.proxy trail.book trail.fault) };
}

impl Trail {
    /// A proxy to which nothing has happened, with empty records, of the session with this token.
    ///
    /// # Errors
    /// Only where memory runs out.
    pub fn new(alloc: Global, side: Side, token: [u8; 16]) -> Result<Trail, AllocError>
        ensures { IfOk result (λ trail. trail ≡ no_records side token) }
    {
        let proxy = Proxy::new(alloc, side, token)?;
        Ok(Trail {
            proxy,
            book: Book::new(alloc, side),
            fault: None,
            up: false,
        })
    }

    /// What its records keep, whatever was called. Does nothing.
    pub fn stands(&self)
        ensures { Keeps self.now }
    {
        let _fault = &self.fault;
    }

    /// Whether it takes from its peer: false behind a fault, else as its proxy. Takes no memory.
    pub fn wants_peer(&self) -> bool
        ensures { result ≡ wants_peer self.now }
    {
        match self.fault {
            None => self.proxy.wants_peer(),
            Some(_) => false,
        }
    }

    /// Whether a copy with this number is out, and this is that copy. Takes no memory.
    pub fn awaits(&self, done: &CopyDone) -> bool
        ensures { result ≡ awaits self.now.now.kept.jobs (done_of done.now) }
    {
        self.proxy.awaits(done)
    }

    /// Whether `link_up` may be called with this number, as its proxy tells it. Takes no memory.
    pub fn may_connect(&self, connection: u32) -> bool
        ensures exact { result ≡ may_connect self.now.now connection }
        ensures down { result ≡ true → self.now.fault ≡ None → self.now.now.live.here ≡ None }
        ensures later { result ≡ true → self.now.now.kept.last < connection }
    {
        self.proxy.may_connect(connection)
    }

    /// Whether the other side's CLOSE was accepted. Takes no memory.
    pub fn heard_close(&self) -> bool
        ensures { result ≡ self.now.now.kept.heard_close }
    {
        self.proxy.heard_close()
    }

    /// Whether its proxy has ended well. It says nothing of faults. Takes no memory.
    pub fn ended(&self) -> bool
        ensures { result ≡ has_ended self.now.now }
    {
        self.proxy.ended()
    }

    /// How many frames of the other side were accepted, by its record. Takes no memory.
    pub fn accepted(&self) -> u64
        ensures { result ≡ self.now.book.trail.accepted }
    {
        self.book.record().accepted
    }

    /// How many of the own frames are known to be accepted, by its record. Takes no memory.
    pub fn acknowledged(&self) -> u64
        ensures { result ≡ self.now.book.trail.acknowledged }
    {
        self.book.record().acknowledged
    }

    /// For how many bytes that were lent there is room in its records: `link_sent` takes no more. Takes
    /// no memory.
    pub fn room(&self) -> usize
        ensures { result ≡ self.now.book.trail.lines.room }
    {
        self.book.room()
    }

    /// The weight of its record, in bytes: at most 268,435,456. Takes no memory.
    pub fn weight(&self) -> u64
        ensures { result ≡ weight self.now.book.trail }
    {
        self.book.weight()
    }

    /// The record.
    pub fn record(&self) -> &TrailRecord
        ensures { trail_of result.now ≡ self.now.book.trail }
    {
        self.book.record()
    }

    /// Which way each message went that its tracking passed, in order.
    pub fn order(&self) -> &[Way]
        ensures { result.now ≡ self.now.book.order }
    {
        self.book.order()
    }
}
