//! Whether a proxy is to close.

/// Whether a proxy was asked to close, with which reason, and whether it made CLOSE then.
#[derive(Clone, Copy, Debug, PartialEq, Eq)]
pub(crate) enum Closing {
    Open,
    Asked { reason: u32 },
    Made,
}
