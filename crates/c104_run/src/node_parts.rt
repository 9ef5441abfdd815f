//! A node's part of a round, made without the rest of the round.
ghost use Rattle.std.specs.{List.flat_map, Prelude.{IfOk, OnOk, [], filter, length, ◌++◌, ◌<◌, ◌∷◌, ◌≡◌}};
ghost use Rattle.c104_run.specs.{NodeParts.{events_of, node_ports, own_events, round_part}, RoundParts.port_events, Rounds.claims_of};
ghost use Rattle.c104_run.specs.Rounds.{switch_claims, turn_at, wired_links};

use crate::wires::Wires;
use c104_event::{Event, Port};
use c104_node::PortPart;
use c104_switch::LINKS;
use c104_token::NoMemory;
use std::alloc::Global;

/// The events of a round that are the part of the node at a place, in the round's order: credit of each of its wired
/// ports, and a crossing from each; of a switch a turn of each wired input and all claims, and of a terminal a token's
/// arrival. What crosses a wire is in the part of the node that it goes out of, or that grants. Empty where there is no
/// such node. The only error is out of memory.
pub fn round_part(alloc: Global, wires: &Wires, node: usize) -> Result<Vec<Event>, NoMemory>
    ensures { IfOk result (λ list. list.items ≡ round_part wires.now node) }
{
    let ports = node_ports(alloc, wires, node)?;
    let mut events = Vec::new(alloc);
    add_events(wires, node, &ports, &mut events)?;
    Ok(events)
}

/// The part of the node at a place, which has these wired ports, joins a list. The only error is out of memory.
fn add_events(
    wires: &Wires,
    node: usize,
    ports: &[Port],
    events: &mut Vec<Event>,
) -> Result<(), NoMemory>
    ensures { OnOk result (events.new.items ≡ events.old.items ++ events_of wires.now node ports.now) }
{
    add_port_events(ports, PortPart::Credit, events)?;
    add_port_events(ports, PortPart::Cross, events)?;
    add_port_events(ports, PortPart::Turn, events)?;
    add_own_events(wires, node, events)
}

/// The wired ports of the node at a place, by link. The only error is out of memory.
fn node_ports(alloc: Global, wires: &Wires, node: usize) -> Result<Vec<Port>, NoMemory>
    ensures { IfOk result (λ ports. ports.items ≡ node_ports wires.now node) }
{
    let mut ports = Vec::new(alloc);
    add_ports(wires, node, &mut ports)?;
    Ok(ports)
}

/// The wired ports of the node at a place join a list. The only error is out of memory.
fn add_ports(wires: &Wires, node: usize, ports: &mut Vec<Port>) -> Result<(), NoMemory>
    ensures { OnOk result (ports.new.items ≡ ports.old.items ++ node_ports wires.now node) }
{
    let switches = wires.switch_count();
    if node < switches {
        return add_links(wires, node, ports);
    }
    let terminal = node - switches;
    if terminal < wires.terminal_count() {
        return add_if(ports, Port::Terminal(terminal), wires.is_linked(terminal));
    }
    Ok(())
}

/// The wired links of a switch join a list of ports. The only error is out of memory.
fn add_links(wires: &Wires, switch: usize, ports: &mut Vec<Port>) -> Result<(), NoMemory>
    requires { switch < length wires.now.switches }
    ensures { OnOk result (ports.new.items ≡ ports.old.items ++ wired_links wires.now switch) }
{
    let links = wires.linked(switch);
    for link in 0..LINKS {
        add_if(ports, Port::Switch(switch, link), links.has(link))?;
    }
    Ok(())
}

/// A port joins a list, where this is so. The only error is out of memory.
fn add_if(ports: &mut Vec<Port>, port: Port, is_so: bool) -> Result<(), NoMemory>
    ensures { OnOk result (ports.new.items ≡ ports.old.items ++ filter (λ _. is_so) (port ∷ [])) }
{
    if is_so {
        ports.push(port)?;
    }
    Ok(())
}

/// What a part of a round has for these ports joins a list. The only error is out of memory.
fn add_port_events(ports: &[Port], part: PortPart, events: &mut Vec<Event>) -> Result<(), NoMemory>
    ensures { OnOk result (events.new.items ≡ events.old.items ++ flat_map (port_events part) ports.now) }
{
    for port in ports {
        add_port_event(*port, part, events)?;
    }
    Ok(())
}

/// What it has for a port joins a list. The only error is out of memory.
fn add_port_event(port: Port, part: PortPart, events: &mut Vec<Event>) -> Result<(), NoMemory>
    ensures { OnOk result (events.new.items ≡ events.old.items ++ port_events part port) }
{
    match part {
        PortPart::Credit => events.push(Event::Credit(port))?,
        PortPart::Cross => events.push(Event::Cross(port))?,
        PortPart::Turn => return add_turn(port, events),
    }
    Ok(())
}

/// A turn of the input at a port joins a list, with word 0, if the port is a switch's. The only error is out of memory.
fn add_turn(port: Port, events: &mut Vec<Event>) -> Result<(), NoMemory>
    ensures { OnOk result (events.new.items ≡ events.old.items ++ turn_at port) }
{
    if let Port::Switch(switch, link) = port {
        events.push(Event::Input {
            switch,
            link,
            word: 0,
        })?;
    }
    Ok(())
}

/// The claims of a switch join a list, or a token's arrival at a terminal. The only error is out of memory.
fn add_own_events(wires: &Wires, node: usize, events: &mut Vec<Event>) -> Result<(), NoMemory>
    ensures { OnOk result (events.new.items ≡ events.old.items ++ own_events wires.now node) }
{
    let switches = wires.switch_count();
    if node < switches {
        return add_claims(node, events);
    }
    let terminal = node - switches;
    if terminal < wires.terminal_count() {
        events.push(Event::Drain { terminal })?;
    }
    Ok(())
}

/// The claims of a switch join a list, by input and output. The only error is out of memory.
fn add_claims(switch: usize, events: &mut Vec<Event>) -> Result<(), NoMemory>
    ensures { OnOk result (events.new.items ≡ events.old.items ++ switch_claims switch) }
{
    for input in 0..LINKS {
        add_claims_of(switch, input, events)?;
    }
    Ok(())
}

/// The claims of an input join a list, by output. The only error is out of memory.
fn add_claims_of(switch: usize, input: usize, events: &mut Vec<Event>) -> Result<(), NoMemory>
    ensures { OnOk result (events.new.items ≡ events.old.items ++ claims_of switch input) }
{
    for output in 0..LINKS {
        events.push(Event::Claim {
            switch,
            input,
            output,
        })?;
    }
    Ok(())
}
