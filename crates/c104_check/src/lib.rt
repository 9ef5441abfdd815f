//! The check of a network's labels: whether each header comes to the terminal that it is a label of,
//! from every terminal and by any choice of a link in a group; and where random headers are put before a terminal's
//! packets, whether each of these comes to a portal, an input that discards it, and each header from there on.
//!
//! [`check`] accepts an image for a plan, or tells the first [`CheckFault`]. It looks at the labels, at
//! the settings of the links, and then walks with each header from each terminal's input. A walk that
//! shows a fault is told with it, as [`Shown`]. Of such a fault [`find_misstep`] tells which header the walk
//! is of ([`WalkKind`]) and which step of it leads wrong, and [`find_mend`] what the header would have to select.
//!
//! [`find_cycle`] tells whether inputs of an accepted network may wait for one another in a cycle, which is what a
//! deadlock needs; [`channel_dependencies`] lists which may wait for which. Where random headers are put before packets
//! both speak of the two phases of packets' ways: by such a header, and by their own behind it. [`first_randomized`]
//! tells whether there is a link that puts any.
#![tactic(auto)]

mod acceptance;
mod beginnings;
mod breaks;
mod cycles;
mod dependencies;
mod distances;
mod edges;
mod faults;
mod headers;
mod links;
mod mends;
mod met;
mod missteps;
mod peers;
mod ports;
mod random;
mod ranges;
mod reached;
mod reaches;
mod routes;
mod starts;
mod walk_kinds;
mod walks;

pub use acceptance::{Accepted, check};
pub use cycles::{ChannelDependency, Cycle, Ranks, RanksOrCycle, find_cycle};
pub use edges::{DependencyEdge, channel_dependencies};
pub use faults::{CheckFault, Shown};
pub use links::{first_randomized, header_length};
pub use mends::{Mend, find_mend};
pub use missteps::{Misstep, find_misstep};
pub use ports::SwitchPort;
pub use reaches::Reach;
pub use walk_kinds::WalkKind;
