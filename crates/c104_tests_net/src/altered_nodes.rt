//! What nodes keep of themselves, and where they started, altered.
ghost use Rattle.std.specs.Prelude.{◌≡◌, length};

use c104_audit::NodeShape;
use c104_node::{NodeStart, TerminalStart};
use c104_token::Items;
use std::alloc::Global;

/// The starts of nodes, of which one is that of a terminal with smaller buffers.
pub fn starts_with(starts: Items<NodeStart>, node: usize) -> Items<NodeStart>
    ensures { length result ≡ length starts }
{
    let mut starts = starts.into_vec();
    if node < starts.len() {
        starts[node] = NodeStart::Terminal(TerminalStart::new(8));
    }
    Items::new(starts)
}

/// What nodes keep, of which one has another wired link.
pub fn nodes_with(nodes: Items<NodeShape>, node: usize, wired: Items<bool>) -> Items<NodeShape>
    ensures { length result ≡ length nodes }
{
    let mut nodes = nodes.into_vec();
    if node < nodes.len() {
        nodes[node].wired = wired;
    }
    Items::new(nodes)
}

/// Whether links are wired, of which one isn't as it was. None where there is no such link.
pub fn wired_with(alloc: Global, wired: &[bool], link: usize) -> Option<Items<bool>> {
    let mut links = Vec::with_capacity(alloc, wired.len()).ok()?;
    for bit in wired {
        links.push(*bit).ok()?;
    }
    if link >= links.len() {
        return None;
    }
    links[link] = !links[link];
    Some(Items::new(links))
}
