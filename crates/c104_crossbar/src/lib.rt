//! The crossbar of a switch: which outputs are taken, and the groups that outputs form.
//!
//! Who claims an output holds a [`Claim`] of it until the output is given back. A claim can't be
//! dropped or copied, so no output can be lost and none can belong to two.
//!
//! - [`Crossbar`] keeps for each of its [`LINKS`] outputs whether it is taken. Its methods keep that
//!   the outputs of the claims and the free outputs are all outputs, each once.
//! - [`Claim`] keeps the number of its output, 0 to 31.
//! - [`Group`] is a run of links, from its first to its last: the largest one in which each link
//!   after the first continues the group of the link before it, where `Group::of` gives it.
#![tactic(auto)]

mod crossbar;
mod group;

pub use crossbar::{Claim, Crossbar};
pub use group::Group;

/// How many outputs a crossbar has, and how many links a switch.
pub const LINKS: usize = 32;

// Contracts name this count: its value is a part of what they say, so a change of it alone is refused.
const _: () = prove!(LINKS == 32);
