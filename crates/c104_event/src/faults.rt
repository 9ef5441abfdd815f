//! Why an event is refused.
ghost use Rattle.std.specs.Prelude.{◌≡◌};
ghost use Rattle.c104_event.specs.EventFaults.{event_fault_name, event_fault_number};
ghost use Rattle.c104_event.specs.declared.faults.EventFault.TheVariants as fault;

use c104_token::NoMemory as OutOfMemory;
use thiserror::Error;

/// Why an event was refused. Nothing has changed. Of several reasons the one of the least number is
/// answered; an event that isn't ready is refused for one of the first four alone.
#[derive(Clone, Copy, Debug, PartialEq, Eq, Error)]
pub enum EventFault {
    /// The plan has no such switch or terminal.
    #[error("there is no such node")]
    NoNode = 1,
    /// A link, an input or an output is 32 or more.
    #[error("a switch has links 0 to 31 alone")]
    NoLink = 2,
    /// The port of a Cross or a Credit has no wire.
    #[error("the link has no wire")]
    NotWired = 3,
    /// The packet to be sent has more than 4,096 bytes.
    #[error("the packet has more than 4096 bytes")]
    TooLong = 4,
    /// More than 65,536 tokens would wait at the terminal.
    #[error("the terminal has no room for the packet among the tokens that wait")]
    OutboxFull = 5,
    /// 262,144 tokens have arrived at the terminal.
    #[error("the terminal has no room for one more token that arrives")]
    InboxFull = 6,
    /// The trace of a node that would act has 1,048,576 entries.
    #[error("the trace of a node has no room for one more entry")]
    TraceFull = 7,
    /// Out of memory.
    #[error("out of memory")]
    NoMemory = 8,
}

impl EventFault {
    /// The fault's number.
    pub fn number(self) -> u8
        ensures { result ≡ event_fault_number self }
    {
        self as u8
    }

    /// The fault's name, as it is printed.
    pub fn name(self) -> &'static str
        ensures { result.now ≡ event_fault_name self }
    {
        match self {
            EventFault::NoNode => "NoNode",
            EventFault::NoLink => "NoLink",
            EventFault::NotWired => "NotWired",
            EventFault::TooLong => "TooLong",
            EventFault::OutboxFull => "OutboxFull",
            EventFault::InboxFull => "InboxFull",
            EventFault::TraceFull => "TraceFull",
            EventFault::NoMemory => "NoMemory",
        }
    }
}

impl From<OutOfMemory> for EventFault {
    ghost from_gives = { λ _ e. e ≡ fault.NoMemory };

    fn from(_error: OutOfMemory) -> EventFault {
        EventFault::NoMemory
    }
}
