//! The events of a network: what can happen in it, and why that is refused.
//!
//! An `Event` is one action of one node, or of the two at the ends of a wire. A `Port`, which is that of
//! plans, is one end of a wire. Both name nodes and links by number and keep no more than that: whether
//! the plan of a network has them is said where the event is asked for. An `EventFault` is why an event
//! was refused, with the number and the name that are printed. A `Call` is what a seat keeps of an event, where several
//! share a network.
//!
//! Networks do these events, and lines of a script ask for them.
#![tactic(auto)]

mod calls;
mod events;
mod faults;

pub use c104_plan::Port;
pub use calls::Call;
pub use events::Event;
pub use faults::EventFault;
