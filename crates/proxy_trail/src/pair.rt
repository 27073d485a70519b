//! What is kept of a run of both proxies of a pair.

use crate::trail::Trail;
use plain_lists::PlainList;
use side_model::ProxyFault;
use take_half::PeerRecord;
use wp_outside::Side;

/// How a run of a pair ended.
#[derive(Clone, Copy, Debug, PartialEq, Eq)]
pub enum PairEnd {
    /// Nothing moved any more.
    Drained,
    /// It was stopped.
    Stopped,
    /// Both sides ended well.
    Closed,
    /// A dial failed.
    LinkFault,
    /// A side failed.
    Fault { side: Side, fault: ProxyFault },
}

/// Both proxies with their records, what their peers received, and how the run ended.
#[derive(Drop)]
pub struct PairRecord {
    pub near: Trail,
    pub far: Trail,
    pub application: PeerRecord,
    pub compositor: PeerRecord,
    /// The greatest number of a connection.
    pub connections: u32,
    pub end: PairEnd,
}

/// Runs of pairs.
pub type PairList = PlainList<PairRecord>;
