//! The lines that tell of channel dependencies.
ghost use Rattle.std.specs.{Prelude.{IfOk, ◌≡◌}, String.string_bytes};
ghost use Rattle.c104_commands.specs.CycleTexts.{acyclic_text, cycle_text, dependency_text, edge_text, edges_text};

use crate::texts::port_text;
use c104_check::{ChannelDependency, DependencyEdge, SwitchPort};
use c104_plan::Plan;
use std::alloc::{AllocError, Global};

/// The line of a network without a cycle. The only error is out of memory.
pub(crate) fn acyclic_text(alloc: Global) -> Result<String, AllocError>
    ensures { IfOk result (λ text. string_bytes text ≡ acyclic_text) }
{
    format!(in alloc; "acyclic\n")
}

/// The line of a cycle: each input with the header by which it depends on the next.
pub(crate) fn cycle_text(
    alloc: Global,
    plan: &Plan,
    cycle: &[ChannelDependency],
) -> Result<String, AllocError>
    ensures { IfOk result (λ text. string_bytes text ≡ cycle_text plan.now cycle.now) }
{
    let mut text = format!(in alloc; "cycle")?;
    for dependency in cycle {
        let input = dependency_text(alloc, plan, dependency.input, dependency.header)?;
        text.push(' ')?;
        text.push_str(input.as_str())?;
    }
    text.push('\n')?;
    Ok(text)
}

/// The lines of dependencies, one for each.
pub(crate) fn edges_text(
    alloc: Global,
    plan: &Plan,
    edges: &[DependencyEdge],
) -> Result<String, AllocError>
    ensures { IfOk result (λ text. string_bytes text ≡ edges_text plan.now edges.now) }
{
    let mut text = String::new(alloc);
    for edge in edges {
        let line = edge_text(alloc, plan, *edge)?;
        text.push_str(line.as_str())?;
    }
    Ok(text)
}

/// The line of a dependency: the input with the header, and the input on which it depends.
fn edge_text(alloc: Global, plan: &Plan, edge: DependencyEdge) -> Result<String, AllocError>
    ensures { IfOk result (λ text. string_bytes text ≡ edge_text plan.now edge) }
{
    let input = dependency_text(alloc, plan, edge.input, edge.header)?;
    let next = port_text(alloc, plan, edge.next)?;
    format!(in alloc; "{input} {next}\n")
}

/// An input, and the header by which it depends on another.
fn dependency_text(
    alloc: Global,
    plan: &Plan,
    input: SwitchPort,
    header: u32,
) -> Result<String, AllocError>
    ensures { IfOk result (λ text. string_bytes text ≡ dependency_text plan.now input header) }
{
    let input = port_text(alloc, plan, input)?;
    format!(in alloc; "{input}({header})")
}
