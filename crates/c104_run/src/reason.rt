//! Why an event isn't ready.

use c104_event::Port;
use c104_switch::Unready;

/// Why an event isn't ready, and where: the first condition of it that doesn't hold.
#[derive(Clone, Copy, Debug, PartialEq, Eq)]
pub struct Reason {
    /// The port where the condition doesn't hold: of a wire the end that is named in the event, or
    /// the other one where that end is ready; the input that takes a turn; the input that claims,
    /// or where an input owns the output or it has no room for the header, the output; the terminal
    /// where a token is to arrive.
    pub port: Port,
    /// The condition.
    pub unready: Unready,
}
