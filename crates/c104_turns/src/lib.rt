//! What workers do in their turns, through any port: the parts that a round has for nodes, stage by stage, with words for the
//! inputs.
//!
//! A [`Part`] has the events that a round has for a node, and lists those that the node may begin. [`do_turns`] has a
//! [`Worker`] do parts through a [`PartPort`], and a part through a [`NodePort`]: its contract tells all that it does by what
//! the port answers. The specifications say besides what a seat is, through which one of several does events on a network that
//! they share, and what one log of all events tells of the nodes: for networks that keep each event, and for such as count.
#![tactic(auto)]

mod faults;
mod parts;
mod turns;
mod words;

pub use faults::{FabricFault, RunFault};
pub use parts::{Part, Stage};
pub use turns::{NodePort, PartPort, Worker, do_turns};
pub use words::Words;
