//! The orders of switches by which wires go up: to the switch that comes first.

use crate::fabric::Fabric;
use crate::forests::Forest;
use c104_plan::Port;
use c104_regs::LINKS;
use std::alloc::{AllocError, Global};

/// How switches are visited from a root.
#[derive(Clone, Copy, Debug, PartialEq, Eq)]
pub enum Visit {
    /// Each with all that lies behind it before the next.
    DepthFirst,
    /// Those that are nearer before those that are further away.
    BreadthFirst,
}

/// A root, and how switches are visited from it.
#[derive(Clone, Copy)]
pub(crate) struct Choice {
    pub(crate) root: usize,
    pub(crate) visit: Visit,
}

/// The switches in the order of a choice, below whose root these subtrees are.
pub(crate) fn order_of(
    alloc: Global,
    fabric: &Fabric,
    choice: Choice,
    forest: &Forest,
) -> Result<Vec<usize>, AllocError> {
    match choice.visit {
        Visit::DepthFirst => depth_first(alloc, choice.root, forest),
        Visit::BreadthFirst => breadth_first(alloc, fabric, choice.root),
    }
}

/// The switches of a tree in the order of the depth-first visit.
pub(crate) fn depth_first(
    alloc: Global,
    root: usize,
    forest: &Forest,
) -> Result<Vec<usize>, AllocError> {
    let mut order = Vec::new(alloc);
    order.push(root)?;
    add_switches(&mut order, forest)?;
    Ok(order)
}

/// Adds the switches of subtrees, in the order of the visit.
fn add_switches(order: &mut Vec<usize>, forest: &Forest) -> Result<(), AllocError> {
    match forest {
        Forest::Empty => Ok(()),
        Forest::Child(_, switch, _, below, rest) => {
            order.push(*switch)?;
            add_switches(order, below.as_ref())?;
            add_switches(order, rest.as_ref())
        }
    }
}

/// The switches by how many wires lead to them from a root, and then by links.
fn breadth_first(alloc: Global, fabric: &Fabric, root: usize) -> Result<Vec<usize>, AllocError> {
    let mut order = Vec::new(alloc);
    order.push(root)?;
    for place in 0..fabric.switches() {
        if place < order.len() {
            let switch = order[place];
            add_neighbours(&mut order, fabric, switch)?;
        }
    }
    Ok(order)
}

/// Adds those neighbours of a switch that aren't there yet.
fn add_neighbours(
    order: &mut Vec<usize>,
    fabric: &Fabric,
    switch: usize,
) -> Result<(), AllocError> {
    for link in 0..LINKS {
        if let Some(Port::Switch(to, _)) = fabric.peer(switch, link)
            && !order.contains(&to)
        {
            order.push(to)?;
        }
    }
    Ok(())
}
