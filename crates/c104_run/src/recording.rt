//! The nodes of a network that keep what they do, at first.
ghost use Rattle.std.specs.Prelude.{OnOk, [], length, map, true, ◌++◌, ◌≡◌};
ghost use Rattle.{c104_node.specs.Terminals.new_terminal, c104_plan.specs.PlanImage.Fits, c104_run.specs.KnownWires.AreLinkedNodes};
ghost use Rattle.c104_run.specs.{NetRecords.{first_record, shown_record}, Network.{new_network, placed_network}};
ghost use Rattle.c104_switch.specs.Switch.{new_switch, new_switch_with};
ghost use Rattle.c104_node.specs.declared.node.NodeOf.TheVariants as node;

use crate::wires::Wires;
use c104_node::{Node, NodeOf, NodeStart, TerminalOf, TerminalStart};
use c104_plan::Image;
use c104_switch::{SwitchOf, SwitchStart};
use c104_token::NoMemory;
use std::alloc::Global;

/// The nodes of a network with these wires join an empty list, and nothing is kept of them yet: the switches, each started
/// with the settings of an image that fits the plan, and then the terminals. The only error is out of memory.
pub fn place_recorded(
    alloc: Global,
    wires: &Wires,
    image: &Image,
    list: &mut Vec<Node>,
) -> Result<(), NoMemory>
    requires empty { list.old.items ≡ [] }
    requires fits { Fits image.now wires.now }
    ensures first { OnOk result (map shown_record list.new.items
        ≡ map first_record (placed_network wires.now image.now).nodes) }
    ensures linked { OnOk result (AreLinkedNodes wires.now list.new.items) }
{
    add_switches(alloc, wires, image, list)?;
    add_terminals(alloc, wires, list)
}

/// The nodes of a new network with these wires join an empty list, and nothing is kept of them yet: the switches, reset
/// and not started, and then the terminals. The only error is out of memory.
pub fn place_new_recorded(
    alloc: Global,
    wires: &Wires,
    list: &mut Vec<Node>,
) -> Result<(), NoMemory>
    requires { list.old.items ≡ [] }
    ensures first { OnOk result (map shown_record list.new.items
        ≡ map first_record (new_network wires.now).nodes) }
    ensures linked { OnOk result (AreLinkedNodes wires.now list.new.items) }
{
    add_new_switches(alloc, wires, list)?;
    add_terminals(alloc, wires, list)
}

/// A new switch for each of a plan joins an empty list.
#[tactic(auto, using(crate::proofs::PlanBuffers::valid_cap))]
fn add_new_switches(alloc: Global, wires: &Wires, list: &mut Vec<Node>) -> Result<(), NoMemory>
    requires { list.old.items ≡ [] }
    ensures first { OnOk result (map shown_record list.new.items
        ≡ map (λ name. first_record (node.Switch (new_switch wires.now.cap))) wires.now.switches) }
    ensures linked { OnOk result (AreLinkedNodes wires.now list.new.items) }
{
    let cap = wires.plan().cap();
    for _name in wires.plan().switches() {
        list.reserve(1)?;
        let start = SwitchStart::new(alloc, cap)?;
        let core = SwitchOf::new(alloc, cap)?;
        let links = wires.node_links(list.len());
        let node = Node::new(
            alloc,
            NodeOf::Switch(core),
            NodeStart::Switch(start),
            cap,
            links,
        );
        list.push_reserved(node);
    }
    Ok(())
}

/// Switches join an empty list, each started with an image's settings at its links.
#[tactic(auto, using(crate::proofs::PlanBuffers::valid_cap))]
fn add_switches(
    alloc: Global,
    wires: &Wires,
    image: &Image,
    list: &mut Vec<Node>,
) -> Result<(), NoMemory>
    requires empty { list.old.items ≡ [] }
    requires fits { Fits image.now wires.now }
    ensures first { OnOk result (map shown_record list.new.items
        ≡ map (λ settings. first_record (node.Switch (new_switch_with wires.now.cap settings true)))
        image.now.settings) }
    ensures linked { OnOk result (AreLinkedNodes wires.now list.new.items) }
{
    let cap = wires.plan().cap();
    for switch in image.switches() {
        list.reserve(1)?;
        let start = SwitchStart::placed(alloc, cap, switch.registers())?;
        let core = SwitchOf::placed(alloc, cap, switch.registers())?;
        let links = wires.node_links(list.len());
        let node = Node::new(
            alloc,
            NodeOf::Switch(core),
            NodeStart::Switch(start),
            cap,
            links,
        );
        list.push_reserved(node);
    }
    Ok(())
}

/// The terminals of a plan join its switches.
#[tactic(auto, using(crate::proofs::PlanBuffers::valid_cap))]
fn add_terminals(alloc: Global, wires: &Wires, list: &mut Vec<Node>) -> Result<(), NoMemory>
    requires placed { length list.old.items ≡ length wires.now.switches }
    requires linked { AreLinkedNodes wires.now list.old.items }
    ensures first { OnOk result (map shown_record list.new.items ≡ map shown_record list.old.items
        ++ map (λ terminal. first_record (node.Terminal (new_terminal wires.now.cap)))
        wires.now.terminals) }
    ensures linked { OnOk result (AreLinkedNodes wires.now list.new.items) }
{
    let cap = wires.plan().cap();
    for _terminal in wires.plan().terminals() {
        list.reserve(1)?;
        let core = TerminalOf::new(alloc, cap)?;
        let start = TerminalStart::new(cap);
        let links = wires.node_links(list.len());
        let node = Node::new(
            alloc,
            NodeOf::Terminal(core),
            NodeStart::Terminal(start),
            cap,
            links,
        );
        list.push_reserved(node);
    }
    Ok(())
}
