//! What is kept of an event that was done by one of several.

use crate::events::Event;
use c104_switch::Reply;

/// An event that was done through a seat, that of one of those who share a network.
#[derive(Drop)]
pub struct Call {
    /// The place of the event among all that were done.
    pub ticket: u64,
    pub event: Event,
    pub reply: Reply,
}
