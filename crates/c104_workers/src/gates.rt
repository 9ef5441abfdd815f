//! What workers ask on their way.

/// What each worker asks before each of its turns and inside each of its events. It may make a worker wait for others, and
/// changes nothing that a worker does.
pub trait Gate {
    /// The worker of this number is about to begin a turn; turns are counted from 0. It holds no lock.
    fn before(&self, worker: usize, turn: u64);

    /// The worker of this number has the lock of the node at this place, for an event that this node isn't ready for or that
    /// is of this node alone, or the locks of both nodes at the ends of a wire, of which this is the lower. The event isn't
    /// done yet, and may not be ready.
    fn inside(&self, worker: usize, node: usize);
}

/// A gate that keeps nobody.
#[derive(Clone, Copy)]
pub struct OpenGate;

impl Gate for OpenGate {
    fn before(&self, _worker: usize, _turn: u64) {}

    fn inside(&self, _worker: usize, _node: usize) {}
}
