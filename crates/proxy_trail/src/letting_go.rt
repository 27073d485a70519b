//! How a pair of proxies with their records is let go.

use crate::pair::PairRecord;

/// Lets a pair go. Who owns one and calls this has not to show again how each of its parts is let
/// go.
pub fn let_go(pair: PairRecord) {
    let _pair = pair;
}
