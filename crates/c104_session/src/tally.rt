//! What the lines of a run have done, as far as messages tell of it.
//!
//! It is counted by the lines that send packets, and only where anyone reads messages; the network itself keeps no entry.

use crate::resets::is_reset;
use c104_event::{Event, EventFault};

/// What the lines of a run have done.
#[derive(Drop)]
pub(crate) struct Tally {
    sent: Option<usize>,
    // Whether a line had words.
    has_lines: bool,
    // Whether it was told that a trace is full, and that an inbox is.
    told_trace: bool,
    told_inbox: bool,
}

impl Tally {
    /// Nothing was done so far.
    pub(crate) fn new() -> Self {
        Tally {
            sent: Some(0),
            has_lines: false,
            told_trace: false,
            told_inbox: false,
        }
    }

    /// How many packets were sent. None once a switch was reset, which may have thrown some away, and where memory was
    /// short.
    pub(crate) fn sent(&self) -> Option<usize> {
        self.sent
    }

    /// A line with words was answered.
    pub(crate) fn note_line(&mut self) {
        self.has_lines = true;
    }

    /// Whether any line had words.
    pub(crate) fn has_lines(&self) -> bool {
        self.has_lines
    }

    /// A line was refused for what is full: a trace, or else an inbox. Says whether it is the first one.
    pub(crate) fn note_full(&mut self, fault: EventFault) -> bool {
        let told = match fault {
            EventFault::TraceFull => &mut self.told_trace,
            _ => &mut self.told_inbox,
        };
        let is_first = !*told;
        *told = true;
        is_first
    }

    /// An event was done.
    pub(crate) fn note(&mut self, event: &Event) {
        match event {
            Event::Send { .. } => self.note_packet(),
            Event::Control { bytes, .. } if is_reset(bytes.as_slice()) => self.forget(),
            _ => {}
        }
    }

    /// It isn't known any more how many packets were sent.
    pub(crate) fn forget(&mut self) {
        self.sent = None;
    }

    /// A packet was sent.
    fn note_packet(&mut self) {
        if let Some(sent) = self.sent {
            self.sent = Some(sent.saturating_add(1));
        }
    }
}
