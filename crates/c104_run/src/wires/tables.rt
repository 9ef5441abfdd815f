//! The tables of a plan's wires: the far end of the wire at each port, and the wired links of each switch.
//!
//! Each wire is looked at once. Wires are taken from the last to the first, and those of terminals after the others, so
//! that at a port the first wire is the one that stays.
ghost use Rattle.std.specs.Prelude.{IfOk, None, Option, [], length, replicate, ℕ, ◌*◌, ◌<◌, ◌≡◌};
ghost use Rattle.{c104_crossbar.specs.Groups.has_bit, c104_node.specs.declared.ends.End.End as TheEnd, c104_plan.specs.Ports.IsSwitchPort};
ghost use Rattle.{c104_plan.specs.declared.ports.Port.Port as ThePort, c104_regs.specs.declared.registers.TheConstants.LINKS};
ghost use Rattle.c104_run.specs.{FarEnds.{end_by, ends_by, link_ends, terminal_ends, with_end}, LinkedSets.AreLinked, Rounds.is_wired};
ghost use Rattle.c104_plan.specs.declared.ports.Port.TheVariants as port;

use super::end_of;
use c104_event::Port;
use c104_node::End;
use c104_plan::Plan;
use c104_switch::{LINKS, LinkSet};
use c104_token::NoMemory;
use std::alloc::Global;

/// What is found of the wires of a plan.
#[derive(Drop)]
pub struct FarEnds {
    pub links: Vec<Option<End>>,
    pub terminals: Vec<Option<End>>,
    pub linked: Vec<LinkSet>,
}

/// The far ends of all links and terminals of a plan, and the wired links of its switches.
pub fn far_ends(alloc: Global, plan: &Plan) -> Result<FarEnds, NoMemory>
    ensures links { IfOk result (λ ends. ends.links.items ≡ link_ends plan.now) }
    ensures terminals { IfOk result (λ ends. ends.terminals.items ≡ terminal_ends plan.now) }
    ensures linked { IfOk result (λ ends.
        AreLinked plan.now (length plan.now.switches) ends.linked.items) }
{
    let links = link_ends(alloc, plan)?;
    let terminals = terminal_ends(alloc, plan)?;
    let linked = linked_sets(alloc, plan, &links)?;
    Ok(FarEnds {
        links,
        terminals,
        linked,
    })
}

/// The far ends of all links of a plan, by switch and link.
fn link_ends(alloc: Global, plan: &Plan) -> Result<Vec<Option<End>>, NoMemory>
    ensures { IfOk result (λ ends. ends.items ≡ link_ends plan.now) }
{
    let count = plan.switches().len() * LINKS;
    let mut ends = no_ends(alloc, count)?;
    add_wires(plan, &mut ends);
    add_terminals(plan, &mut ends);
    Ok(ends)
}

/// A table of this many links without wires.
fn no_ends(alloc: Global, count: usize) -> Result<Vec<Option<End>>, NoMemory>
    ensures { IfOk result (λ ends. ends.items ≡ replicate count None) }
{
    Ok(vec![in alloc; None::<End>; count]?)
}

/// The wires between switches join a table of none.
fn add_wires(plan: &Plan, ends: &mut [Option<End>])
    requires { ends.old ≡ ends_by (end_by plan.now []) (length plan.now.switches) }
    ensures { ends.new ≡ ends_by (end_by plan.now plan.now.wires) (length plan.now.switches) }
{
    let wires = plan.wires();
    for done in 0..wires.len() {
        let wire = wires[wires.len() - 1 - done];
        set_end(plan, ends, wire.there, end_of(plan, wire.here));
        set_end(plan, ends, wire.here, end_of(plan, wire.there));
    }
}

/// The wires of terminals join a table of those between switches.
fn add_terminals(plan: &Plan, ends: &mut [Option<End>])
    requires { ends.old ≡ ends_by (end_by plan.now plan.now.wires) (length plan.now.switches) }
    ensures { ends.new ≡ link_ends plan.now }
{
    let terminals = plan.terminals();
    for done in 0..terminals.len() {
        let number = terminals.len() - 1 - done;
        let host = terminals[number].host_port();
        set_end(plan, ends, host, end_of(plan, Port::Terminal(number)));
    }
}

/// The wire at a link leads to this end.
fn set_end(plan: &Plan, ends: &mut [Option<End>], at: Port, far: End)
    requires inside { IsSwitchPort (length plan.now.switches) at }
    requires room { length ends.old ≡ length plan.now.switches * LINKS }
    ensures room { length ends.new ≡ length ends.old }
    ensures set { (before : ThePort → Option TheEnd) → ends.old ≡ ends_by before (length plan.now.switches)
        → ends.new ≡ ends_by (with_end before at far) (length plan.now.switches) }
{
    // The plan has at most 64 switches, so the sum fits.
    let _switches = plan.switches();
    match at {
        Port::Switch(switch, link) => ends[switch * LINKS + link] = Some(far),
        Port::Terminal(_) => unreachable!(),
    }
}

/// The far ends of the terminals of a plan, in order.
fn terminal_ends(alloc: Global, plan: &Plan) -> Result<Vec<Option<End>>, NoMemory>
    ensures { IfOk result (λ ends. ends.items ≡ terminal_ends plan.now) }
{
    let terminals = plan.terminals();
    let mut ends = Vec::with_capacity(alloc, terminals.len())?;
    for number in 0..terminals.len() {
        ends.push(Some(end_of(plan, terminals[number].host_port())))?;
    }
    Ok(ends)
}

/// The wired links of each switch, in order, by the far ends of all links.
fn linked_sets(alloc: Global, plan: &Plan, links: &[Option<End>]) -> Result<Vec<LinkSet>, NoMemory>
    requires { links.now ≡ link_ends plan.now }
    ensures { IfOk result (λ sets. AreLinked plan.now (length plan.now.switches) sets.items) }
{
    let count = plan.switches().len();
    let mut sets = Vec::with_capacity(alloc, count)?;
    for switch in 0..count {
        sets.push(linked_set(plan, links, switch))?;
    }
    Ok(sets)
}

/// The wired links of a switch, by the far ends of all links.
fn linked_set(plan: &Plan, links: &[Option<End>], switch: usize) -> LinkSet
    requires links { links.now ≡ link_ends plan.now }
    requires switch { switch < length plan.now.switches }
    ensures { (l : ℕ) → l < LINKS →
        has_bit result l ≡ is_wired plan.now (port.Switch switch l) }
{
    // The plan has at most 64 switches, so the sum fits.
    let _switches = plan.switches();
    let mut set = LinkSet::new();
    for link in 0..LINKS {
        set.set(link, links[switch * LINKS + link].is_some());
    }
    set
}
