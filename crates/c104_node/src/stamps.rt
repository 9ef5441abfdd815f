//! Stamps of events.
//!
//! Tickets of a record rise, but may leave gaps, so that several seats can draw them. A network that events are asked of
//! directly stamps each with its number, and no seat (`seatless`).

/// What the entries of an event bear beside its acts: the event's place among all that were done, and who asked for it.
#[derive(Clone, Copy, Debug, PartialEq, Eq)]
pub struct Stamp {
    pub ticket: u64,
    pub seat: Option<u8>,
}
