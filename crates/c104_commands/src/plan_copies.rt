//! Copies of what a plan joins.
ghost use Rattle.std.specs.{List.remove, Prelude.{IfOk, length, ◌<◌, ◌≡◌}};
ghost use Rattle.c104_plan.specs.{Plans.IsPlan};

use c104_plan::{Plan, SwitchList, TerminalList, Wire};
use c104_token::NoMemory;
use std::alloc::Global;

/// The switches of a plan.
pub(crate) fn copy_switches(alloc: Global, plan: &Plan) -> Result<SwitchList, NoMemory>
    ensures { IfOk result (λ switches. switches ≡ plan.now.switches) }
{
    let mut switches = SwitchList::new(alloc);
    for name in plan.switches() {
        switches.push(alloc, name.as_bytes())?;
    }
    Ok(switches)
}

/// The terminals of a plan.
pub(crate) fn copy_terminals(alloc: Global, plan: &Plan) -> Result<TerminalList, NoMemory>
    ensures { IfOk result (λ terminals. terminals ≡ plan.now.terminals) }
{
    let mut terminals = TerminalList::new(alloc);
    for terminal in plan.terminals() {
        let own = terminal.clone()?;
        terminals.push(alloc, own)?;
    }
    Ok(terminals)
}

/// The wires of a plan without one.
pub(crate) fn wires_without(
    alloc: Global,
    plan: &Plan,
    number: usize,
) -> Result<Vec<Wire>, NoMemory>
    requires { number < length plan.now.wires }
    ensures { IfOk result (λ wires. wires.items ≡ remove plan.now.wires number) }
{
    let mut wires = Vec::from_slice(alloc, plan.wires())?;
    wires.remove(number);
    Ok(wires)
}
