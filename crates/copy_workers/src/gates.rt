//! What is told around each copy that a crew makes.

/// What a worker tells around each copy. It is shared by all workers of a crew.
pub trait Gate: Sync {
    /// Called before the job with this id is copied.
    fn enter(&self, job: u64);

    /// Called when the copy is done.
    fn leave(&self, job: u64);
}

/// A gate that does nothing.
#[derive(Clone, Copy, Debug)]
pub struct OpenGate;

impl Gate for OpenGate {
    fn enter(&self, _job: u64) {}

    fn leave(&self, _job: u64) {}
}
