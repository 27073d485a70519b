//! What a report holds.

/// How the messages are shown that were received.
#[derive(Clone, Copy, Debug, PartialEq, Eq)]
pub enum Got {
    /// Each as hexadecimal digits.
    Hexadecimal,
    /// Each as its text.
    Text,
    /// Not at all.
    LeftOut,
}

/// What a report holds beside the counts of messages.
#[derive(Clone, Copy, Debug, PartialEq, Eq)]
pub struct ReportOptions {
    /// The frames, the bytes of each connection, the mirrors and the pipes.
    pub long: bool,
    /// The messages.
    pub got: Got,
}
