//! The nodes of a network, switches and terminals, and what is kept of each.
//!
//! A node (`NodeOf`) is a switch or a terminal (`TerminalOf`). What it does is an act (`ActOf`), which is done, or
//! answered with NotReady. An `Entry` tells of an act that was done, in an event of some `Stamp`, and a start
//! (`NodeStart`) where a node began. A `Node` keeps both, and a `CountedNode` how many entries these would be.
//!
//! A `Place` is a node and what is kept beside it. One act at one place (`attempt_at`), or one at each of two
//! (`joint_from`), is done as a whole or changes nothing. Which nodes are joined by wires, and at which places they
//! stand, isn't known here.
#![tactic(auto)]

mod acts;
mod counted;
mod crossings;
mod ends;
mod history;
mod joint;
mod node;
mod origins;
mod place;
mod places;
mod port_part;
mod recorded;
mod sent_packet;
mod stamps;
mod starts;
mod tagged;
mod terminal;
mod traced;

pub use acts::{Act, ActOf, Entry, same_reply};
pub use counted::CountedNode;
pub use crossings::{Crossing, Joint, can_far, can_near, far_act, near_act};
pub use ends::End;
pub use joint::{can_near_at, joint_from};
pub use node::NodeOf;
pub use origins::Origin;
pub use place::Place;
pub use places::{
    attempt_at, is_full_at, is_idle_at, next_claim_at, next_wanting_at, node_at, ready_at,
    ready_links_at,
};
pub use port_part::PortPart;
pub use recorded::{Node, act_pair, copy_entries, ready_pair};
pub use sent_packet::SentPacket;
pub use stamps::Stamp;
pub use starts::{NodeStart, all_started};
pub use tagged::{TaggedToken, tagged_origins};
pub use terminal::{ArrivedOf, TerminalOf, TerminalStart, TerminalView};
pub use traced::{Source, Traced};
