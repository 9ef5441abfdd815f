//! What is proved of standstill: that a network without a cycle of channel dependencies has no deadlock.
//!
//! `NoDeadlock` says so of a network as it stands, and of the end of a run; and that rounds then deliver every packet.
//! `LeftWork` counts the work that is left in a network, by which a caller knows how many rounds are enough. The networks
//! and runs of which it speaks are those of `c104_run`, which this crate re-exports.
#![tactic(auto)]

mod deadlock;
mod work;

pub use c104_run::{Net, RecordedNet, Run, TracedNet};
pub use deadlock::NoDeadlock;
pub use work::LeftWork;
