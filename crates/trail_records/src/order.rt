//! The order in which messages passed.

use plain_lists::PlainList;
use wl_tables::Way;

/// Which way each message went, in order.
pub type WayList = PlainList<Way>;
