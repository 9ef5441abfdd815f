//! The order in which what crossed the wires is told: by switch, and of each switch by link.
ghost use Rattle.std.specs.{Option.option_copied, Prelude.{IfOk, OnOk, ◌++◌, ◌≡◌}};
ghost use Rattle.c104_plan.specs.Wiring.{peer};
ghost use Rattle.c104_rows.specs.Ports.{shown_at, shown_if, has_stretch, is_shown, lane_at, shown_ports, switch_ports};
ghost use Rattle.c104_plan.specs.declared.ports.Port.TheVariants as port;

use crate::lanes::Lane;
use crate::timelines::Timeline;
use c104_plan::{Plan, Port};
use c104_regs::LINKS;
use c104_token::NoMemory;
use std::alloc::Global;

/// What crossed at a port, if there is such a port.
pub(crate) fn lane_at(timeline: &Timeline, port: Port) -> Option<&Lane>
    ensures { option_copied result ≡ lane_at timeline.now port }
{
    match timeline.place_of(port) {
        Some(place) => timeline.lanes().get(place),
        None => None,
    }
}

/// The ports from which something is shown: for each switch those at its wires, by link. The only error is out of memory.
pub fn shown_ports(
    alloc: Global,
    plan: &Plan,
    timeline: &Timeline,
    last: u32,
) -> Result<Vec<Port>, NoMemory>
    ensures { IfOk result (λ ports. ports.items ≡ shown_ports plan.now timeline.now last) }
{
    let mut ports = Vec::new(alloc);
    for switch in 0..plan.switches().len() {
        add_switch(plan, timeline, last, switch, &mut ports)?;
    }
    Ok(ports)
}

/// The ports at the wires of a switch join others. The only error is out of memory.
fn add_switch(
    plan: &Plan,
    timeline: &Timeline,
    last: u32,
    switch: usize,
    ports: &mut Vec<Port>,
) -> Result<(), NoMemory>
    ensures { OnOk result (ports.new.items ≡ ports.old.items ++ switch_ports plan.now timeline.now last switch) }
{
    for link in 0..LINKS {
        add_link(plan, timeline, last, Port::Switch(switch, link), ports)?;
    }
    Ok(())
}

/// The ports at the wire of a link join others: that of a terminal that is wired there, and its own. The only error is out
/// of memory.
fn add_link(
    plan: &Plan,
    timeline: &Timeline,
    last: u32,
    port: Port,
    ports: &mut Vec<Port>,
) -> Result<(), NoMemory>
    ensures { OnOk result (ports.new.items ≡ ports.old.items ++ shown_at plan.now timeline.now last port) }
{
    if let Some(Port::Terminal(terminal)) = plan.peer(port) {
        add_shown(timeline, last, Port::Terminal(terminal), ports)?;
    }
    add_shown(timeline, last, port, ports)
}

/// A port joins others, if something is shown from there. The only error is out of memory.
fn add_shown(
    timeline: &Timeline,
    last: u32,
    port: Port,
    ports: &mut Vec<Port>,
) -> Result<(), NoMemory>
    ensures { OnOk result (ports.new.items ≡ ports.old.items ++ shown_if timeline.now last port) }
{
    if is_shown(timeline, last, port) {
        ports.push(port)?;
    }
    Ok(())
}

/// Whether something is shown from a port.
fn is_shown(timeline: &Timeline, last: u32, port: Port) -> bool
    ensures { result ≡ is_shown timeline.now last port }
{
    match lane_at(timeline, port) {
        Some(lane) => has_stretch(lane, last),
        None => false,
    }
}

/// Whether any stretch is shown.
fn has_stretch(lane: &Lane, last: u32) -> bool
    ensures { result ≡ has_stretch last lane.now }
{
    lane.stretches().iter().any(|stretch| stretch.is_in(last))
}
