//! The two sides, the two directions between them, and the kinds of handle.

/// A direction of the link.
#[derive(Clone, Copy, Debug, PartialEq, Eq)]
pub enum Direction {
    /// From the near side to the far one.
    Up,
    /// From the far side to the near one.
    Down,
}

/// One of the two proxies.
#[derive(Clone, Copy, Debug, PartialEq, Eq)]
pub enum Side {
    /// Beside the application.
    Near,
    /// Beside the compositor.
    Far,
}

/// What a handle, which stands for a Wayland `fd` argument, leads to.
#[derive(Clone, Copy, Debug, PartialEq, Eq, Hash)]
pub enum HandleKind {
    /// A file of shared memory.
    File,
    /// The write end of a pipe.
    PipeWrite,
}
