//! Audits: whether what nodes and seats kept of a run by many is that of one run.
//!
//! [`Lists`] are plain data: the traces of the nodes, the [`Call`]s of each seat, and what was known before the seats
//! were made. [`audit_lists`] gives the events that they tell, in order, or the first [`AuditFault`].
#![tactic(auto)]

mod audits;
mod befores;
mod called;
mod carried;
mod copies;
mod end_seats;
mod ends;
mod faults;
mod firsts;
mod halves;
mod leads;
mod lists;
mod orders;
mod sameness;
mod seats;
mod starts;
mod tellings;
mod tickets;
mod wired;

pub use audits::audit_lists;
pub use c104_event::Call;
pub use carried::Carried;
pub use copies::{copy_calls, copy_event};
pub use faults::AuditFault;
pub use lists::{Lists, NodeShape};
