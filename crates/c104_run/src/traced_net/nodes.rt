//! Where the nodes of a network of tagged tokens start, and those nodes.
ghost use Rattle.std.specs.Prelude.{IfOk, OnOk, [], false, map, replicate, ◌++◌, ◌≡◌};
ghost use Rattle.c104_node.specs.{Starts.start_node, TerminalStarts.new_terminal_start, TracedRecords.first_traced};
ghost use Rattle.{c104_regs.specs.{Settings.reset_settings, declared.registers.TheConstants.LINKS}, c104_switch.specs.Starts.new_start};
ghost use Rattle.c104_node.specs.declared.starts.NodeStart.TheVariants as start;

use c104_node::{CountedNode, NodeOf, NodeStart, TerminalStart};
use c104_plan::Plan;
use c104_switch::SwitchStart;
use c104_token::NoMemory;
use std::alloc::Global;

/// Where the nodes of a new network of this plan start: the switches, reset and not started, and then the terminals. The
/// only error is out of memory.
#[tactic(auto, using(crate::proofs::PlanBuffers::valid_cap))]
pub fn new_starts(alloc: Global, plan: &Plan) -> Result<Vec<NodeStart>, NoMemory>
    ensures { IfOk result (λ starts. starts.items ≡
        map (λ name. start.Switch (new_start plan.now.cap (replicate LINKS reset_settings) false)) plan.now.switches
        ++ map (λ terminal. start.Terminal (new_terminal_start plan.now.cap)) plan.now.terminals) }
{
    let cap = plan.cap();
    let mut starts = Vec::new(alloc);
    for _name in plan.switches() {
        starts.push(NodeStart::Switch(SwitchStart::new(alloc, cap)?))?;
    }
    for _terminal in plan.terminals() {
        starts.push(NodeStart::Terminal(TerminalStart::new(cap)))?;
    }
    Ok(starts)
}

/// The nodes at these starts join an empty list. The only error is out of memory.
pub fn add_nodes(
    alloc: Global,
    starts: &[NodeStart],
    list: &mut Vec<CountedNode>,
) -> Result<(), NoMemory>
    requires { list.old.items ≡ [] }
    ensures { OnOk result (list.new.items ≡ map (λ start. first_traced (start_node start)) starts.now) }
{
    for start in starts {
        list.reserve(1)?;
        let core = NodeOf::from_start(alloc, start)?;
        list.push_reserved(CountedNode::new(core));
    }
    Ok(())
}
