//! Which switch wires don't lead to from the root of a network's labels. Nothing is proved of it but that it is safe and ends.

use c104_describe::read_description;
use c104_plan::{Plan, Port, Shape};
use std::alloc::{AllocError, Global};

/// What is told where wires don't lead from the root to each switch: to which of them they don't. None where there is no
/// switch, or no memory.
pub(crate) fn unreached_message(alloc: Global, description: &[u8]) -> Option<String> {
    let plan = read_description(alloc, description).ok()?;
    let root = match plan.shape() {
        Shape::Tree(root) | Shape::UpDown(Some(root)) => root,
        _ => 0,
    };
    unreached_text(alloc, &plan, root).ok()?
}

/// The same, with this root.
fn unreached_text(alloc: Global, plan: &Plan, root: usize) -> Result<Option<String>, AllocError> {
    let mut is_reached = vec![in alloc; false; plan.switches().len()]?;
    mark(&mut is_reached, root);
    for _ in 0..plan.switches().len() {
        for wire in plan.wires() {
            follow(wire.here, wire.there, &mut is_reached);
            follow(wire.there, wire.here, &mut is_reached);
        }
    }
    let Some(other) = is_reached.iter().position(|reached| !*reached) else {
        return Ok(None);
    };
    let root = plan.switch_name(root);
    let other = plan.switch_name(other);
    let text = format!(in alloc;
        "wires do not lead from the root to each switch: none lead from {root} to {other}"
    )?;
    Ok(Some(text))
}

/// Over a wire the switch of one port is reached, if that of the other is.
fn follow(from: Port, to: Port, is_reached: &mut Vec<bool>) {
    if let (Port::Switch(from, _), Port::Switch(to, _)) = (from, to)
        && is_reached.get(from) == Some(&true)
    {
        mark(is_reached, to);
    }
}

/// A switch is reached.
fn mark(is_reached: &mut Vec<bool>, switch: usize) {
    if let Some(reached) = is_reached.get_mut(switch) {
        *reached = true;
    }
}
