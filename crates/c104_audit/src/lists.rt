//! What nodes and seats kept, as plain data.
//!
//! Starts are kept as they are, and wired links as 32 marks: two starts are equal where the values are, and a node tells
//! its links one by one.

use c104_event::Call;
use c104_node::{Entry, NodeStart};
use c104_plan::Wire;
use c104_token::Items;

/// What a node keeps of itself beside its state and its trace.
#[derive(Drop)]
pub struct NodeShape {
    pub is_switch: bool,
    /// For how many tokens its input buffers have room.
    pub cap: usize,
    /// For each link from 0 to 31 whether it has a wire. A terminal's one link is 0.
    pub wired: Items<bool>,
    /// Where it started.
    pub start: NodeStart,
}

/// What nodes and seats kept of a run by many.
#[derive(Drop)]
pub struct Lists {
    /// How many events had been done before the seats were made.
    pub first: u64,
    /// How many of the nodes are switches, which stand first.
    pub switches: usize,
    /// For how many tokens input buffers have room.
    pub cap: usize,
    /// Each terminal's wire, and then the others.
    pub wires: Items<Wire>,
    /// Where the nodes had started, and what they had done, before the seats were made.
    pub starts: Items<NodeStart>,
    pub before: Items<Items<Entry>>,
    /// What the nodes keep of themselves, and what they did.
    pub nodes: Items<NodeShape>,
    pub traces: Items<Items<Entry>>,
    /// The calls of each seat, by its number.
    pub calls: Items<Items<Call>>,
}
