//! What a thread passes between its deeds.

/// A place that a thread passes between what it does, so that another may say when it goes on. No contract says when that is.
pub trait Gate: Send + Drop {
    /// Passes, once n deeds were done. It may wait.
    fn pass(&mut self, count: u64);
}

/// A gate that is always open.
#[derive(Debug, Drop)]
pub struct OpenGate;

impl Gate for OpenGate {
    fn pass(&mut self, _count: u64) {}
}
