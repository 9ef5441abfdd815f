//! Which links have a wire, and whether the nodes keep just these.
ghost use Rattle.std.specs.Prelude.{IsTrue, false, is_some, length, map, slice_get, unwrap_or, ◌<◌, ◌↔◌, ◌≡◌};
ghost use Rattle.c104_audit.specs.{Audits.{AreLists, HasShape, IsShaped, is_link_wired}, Firsts.IsFirst, Tests.{HasLinksTo, KeepsLink}};
ghost use Rattle.{c104_plan.specs.Ports.other_end, c104_regs.specs.declared.registers.TheConstants.LINKS};
ghost use Rattle.c104_run.specs.Rounds.{link_numbers};

use crate::lists::{Lists, NodeShape};
use c104_plan::{Port, Wire};
use c104_switch::LINKS;

/// Whether a port is at an end of one of these wires.
fn has_wire(wires: &[Wire], port: Port) -> bool
    ensures { result ≡ is_some (other_end wires.now port) }
{
    for wire in wires {
        if wire.here.is_same(port) || wire.there.is_same(port) {
            return true;
        }
    }
    false
}

/// Whether a link of a node has a wire; a terminal's one link is 0.
fn has_wire_at(lists: &Lists, node: usize, link: usize) -> bool
    ensures { result ≡ is_link_wired lists.now.switches lists.now.wires node link }
{
    let wires = lists.wires.as_slice();
    if node < lists.switches {
        has_wire(wires, Port::Switch(node, link))
    } else {
        link == 0 && has_wire(wires, Port::Terminal(node - lists.switches))
    }
}

/// Whether a node keeps just the links that have wires.
fn has_links(lists: &Lists, node: usize, wired: &[bool]) -> bool
    ensures { IsTrue result ↔ (wired.now ≡ map (is_link_wired lists.now.switches lists.now.wires node) link_numbers) }
{
    has_each_link(lists, node, wired)
}

/// The same, as it is told link by link.
fn has_each_link(lists: &Lists, node: usize, wired: &[bool]) -> bool
    ensures { IsTrue result ↔ ((length wired.now ≡ LINKS) × HasLinksTo lists.now node wired.now LINKS) }
{
    wired.len() == LINKS && keeps_links(lists, node, wired)
}

/// Whether of each link it is kept whether it has a wire.
fn keeps_links(lists: &Lists, node: usize, wired: &[bool]) -> bool
    ensures { IsTrue result ↔ HasLinksTo lists.now node wired.now LINKS }
{
    for link in 0..LINKS {
        if !keeps_link(lists, node, wired, link) {
            return false;
        }
    }
    true
}

/// Whether of a link it is kept whether it has a wire.
fn keeps_link(lists: &Lists, node: usize, wired: &[bool], link: usize) -> bool
    ensures { IsTrue result ↔ KeepsLink lists.now node wired.now link }
{
    link < wired.len() && wired[link] == has_wire_at(lists, node, link)
}

/// Whether a node is of the kind of its place, its buffers have the size of all, and it keeps just the links that have
/// wires.
fn is_shaped(lists: &Lists, node: usize, shape: &NodeShape) -> bool
    ensures { IsTrue result ↔ HasShape lists.now node shape.now }
{
    shape.is_switch == (node < lists.switches)
        && shape.cap == lists.cap
        && has_links(lists, node, shape.wired.as_slice())
}

/// The first node that isn't what the plan has at its place.
pub fn first_misshapen(lists: &Lists) -> Option<usize>
    ensures { IsFirst (IsShaped lists.now) result }
{
    let nodes = lists.nodes.as_slice();
    for node in 0..nodes.len() {
        if !is_shaped(lists, node, &nodes[node]) {
            return Some(node);
        }
    }
    None
}

/// Whether the bit of a link is set, if there is one.
fn is_set(bits: &[bool], link: usize) -> bool
    ensures { result ≡ unwrap_or (slice_get bits.now link) false }
{
    match bits.get(link) {
        Some(bit) => *bit,
        None => false,
    }
}

/// Whether a link of a node has a wire, where the node keeps just the links that have.
pub fn is_wired(lists: &Lists, node: usize, link: usize) -> bool
    requires lists { AreLists lists.now }
    requires shaped { IsShaped lists.now node }
    requires node { node < length lists.now.nodes }
    ensures { result ≡ is_link_wired lists.now.switches lists.now.wires node link }
{
    let nodes = lists.nodes.as_slice();
    let wired = nodes[node].wired.as_slice();
    is_set(wired, link)
}
