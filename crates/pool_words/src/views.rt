//! What each seat at the table of a pool knows. No value of these types is made: they stand in
//! contracts alone.
use std::collections::LinkedList;

/// A write: this word got this value.
pub struct Write {
    pub word: u32,
    pub value: u64,
}

/// A load of an eye: this word had this value.
pub struct Sight {
    pub word: u32,
    pub value: u64,
}

/// A load of a finished eye, with the counts of writes at its note and at its finish.
pub struct Load {
    pub word: u32,
    pub value: u64,
    pub low: u64,
    pub high: u64,
}

/// What one seat knows.
pub enum View {
    /// The pen: its writes, how many of them are stored, and the loads that it settled.
    Writing(LinkedList<Write>, u64, LinkedList<Load>),
    /// An eye: the count of writes at its note, and its loads in order.
    Seeing(u64, LinkedList<Sight>),
    /// A receipt: the greatest count at a finish, and the loads of its eyes.
    Shown(u64, LinkedList<Load>),
    /// It was joined to another one.
    Spent,
}
