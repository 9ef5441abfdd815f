//! By which links labels leave the switches.

use crate::fabric::Fabric;
use crate::forests::Forest;
use crate::groups::{all_continues, whole_groups};
use crate::numbers::count_at;
use crate::orders::{Choice, depth_first, order_of};
use crate::way_rows::Segment;
use crate::ways::Ways;
use c104_regs::LINKS;
use std::alloc::{AllocError, Global};

/// What tables are made by.
#[derive(Drop)]
pub(crate) struct Plot {
    pub(crate) ways: Ways,
    /// The switches in the order of their labels.
    pub(crate) visit: Vec<usize>,
    /// The links of each switch that continue groups, as bits.
    pub(crate) continues: Vec<u32>,
}

impl Plot {
    /// That of a choice, below whose root these subtrees are.
    pub(crate) fn new(
        alloc: Global,
        fabric: &Fabric,
        choice: Choice,
        forest: &Forest,
    ) -> Result<Plot, AllocError> {
        let order = order_of(alloc, fabric, choice, forest)?;
        let ways = Ways::new(alloc, fabric, order)?;
        let continues = all_continues(alloc, fabric, &ways)?;
        let visit = depth_first(alloc, choice.root, forest)?;
        Ok(Plot {
            ways,
            visit,
            continues,
        })
    }

    /// The links of a switch that continue groups, as bits.
    pub(crate) fn continues(&self, switch: usize) -> u32 {
        count_at(self.continues.as_slice(), switch)
    }
}

/// By which links labels leave a switch from its inputs.
#[derive(Drop)]
pub(crate) struct Exits {
    /// By shortest ways.
    pub(crate) shortest: Vec<Segment>,
    /// By any.
    pub(crate) any: Vec<Segment>,
}

/// The inputs of a switch to which packets came down, or its others.
#[derive(Clone, Copy)]
struct Inputs {
    switch: usize,
    came_down: bool,
}

/// The exits of each switch, by number: from the inputs to which packets came down, or from the others.
pub(crate) fn all_exits(
    alloc: Global,
    fabric: &Fabric,
    plot: &Plot,
    came_down: bool,
) -> Result<Vec<Exits>, AllocError> {
    let mut all = Vec::new(alloc);
    for switch in 0..fabric.switches() {
        let inputs = Inputs { switch, came_down };
        all.push(exits_of(alloc, fabric, plot, inputs)?)?;
    }
    Ok(all)
}

/// The exits from inputs of a switch.
fn exits_of(
    alloc: Global,
    fabric: &Fabric,
    plot: &Plot,
    inputs: Inputs,
) -> Result<Exits, AllocError> {
    let shortest = segments(alloc, fabric, plot, inputs, true)?;
    let any = segments(alloc, fabric, plot, inputs, false)?;
    Ok(Exits { shortest, any })
}

/// By which links labels leave inputs: their switch's own by those of their terminals, and others by shortest ways, or by
/// any.
fn segments(
    alloc: Global,
    fabric: &Fabric,
    plot: &Plot,
    inputs: Inputs,
    is_shortest: bool,
) -> Result<Vec<Segment>, AllocError> {
    let mut segments = Vec::new(alloc);
    let mut choice = 0usize;
    for switch in plot.visit.as_slice() {
        if *switch == inputs.switch {
            add_own(&mut segments, fabric, *switch)?;
        } else {
            let links = links_to(plot, inputs, *switch, is_shortest);
            add(&mut segments, fabric.labels(*switch), links, choice)?;
        }
        choice = choice.saturating_add(1);
    }
    Ok(segments)
}

/// The first links of the groups by which labels of a switch leave inputs of another. Where no group is wholly of shortest
/// ways, they are those of any.
fn links_to(plot: &Plot, inputs: Inputs, to: usize, is_shortest: bool) -> u32 {
    let continues = plot.continues(inputs.switch);
    if is_shortest {
        let links = plot.ways.links(inputs.switch, inputs.came_down, to, true);
        let whole = whole_groups(links, continues);
        if whole != 0 {
            return whole;
        }
    }
    let links = plot.ways.links(inputs.switch, inputs.came_down, to, false);
    whole_groups(links, continues)
}

/// Adds the labels of a switch's own terminals.
pub(crate) fn add_own(
    segments: &mut Vec<Segment>,
    fabric: &Fabric,
    switch: usize,
) -> Result<(), AllocError> {
    for link in 0..LINKS {
        add(
            segments,
            fabric.labels_behind(switch, link),
            1u32 << link,
            0,
        )?;
    }
    Ok(())
}

/// Adds labels, unless there are none.
pub(crate) fn add(
    segments: &mut Vec<Segment>,
    labels: u32,
    links: u32,
    choice: usize,
) -> Result<(), AllocError> {
    if labels == 0 {
        return Ok(());
    }
    let first = match segments.last() {
        Some(last) => last.limit,
        None => 0,
    };
    segments.push(Segment {
        limit: first.saturating_add(labels),
        links,
        choice,
    })?;
    Ok(())
}
