//! Why a network isn't shared, and why workers on it stop.

use c104_event::EventFault;
use thiserror::Error;

/// Why there is no shared network.
#[derive(Clone, Copy, Debug, PartialEq, Eq, Error)]
pub enum FabricFault {
    /// There are no seats, or more than 64.
    #[error("a fabric has 1 to 64 seats")]
    SeatCount = 1,
    /// Out of memory.
    #[error("out of memory")]
    NoMemory = 2,
}

/// Why workers didn't do all their turns.
#[derive(Clone, Copy, Debug, PartialEq, Eq, Error)]
pub enum RunFault {
    /// The worker of this number stopped at an event that was refused for this, or out of memory between events. It is
    /// the lowest of those that stopped.
    #[error("worker {0} stopped: {1}")]
    Event(usize, EventFault),
}
