//! A network whose nodes lie behind locks, so that several threads do its events, and which is a network again at the end.
//!
//! A [`SharedNet`] is made of a [`TracedNet`], in two steps: [`Ready::new`] takes all memory and makes the log, and
//! [`Ready::into_shared`] puts the nodes behind locks. [`run_workers`] does turns by several threads, each of which does events
//! through a [`CountedSeat`] of its own. [`SharedNet::close`] takes the nodes out again and gives the network: what the threads
//! did is one run of it, in the order in which events joined the log while their nodes were locked.
//!
//! Nothing is kept of an event but counts. What each node and each seat did is known in proofs alone, by the passes that lie
//! beside them, each of which has the track of the one log.
//!
//! A shared network can't be dropped, since switches hold claims.
#![tactic(auto)]

mod closing;
mod doing;
mod held;
mod making;
mod ports;
mod seats;
mod shared_net;
mod sharing;
mod workers;

pub use c104_net::TracedNet;
pub use c104_turns::{FabricFault, RunFault, Words};
pub use making::Ready;
pub use seats::CountedSeat;
pub use shared_net::SharedNet;
pub use sharing::Sharing;
pub use workers::run_workers;
