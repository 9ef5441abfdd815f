//! What labels come to where each terminal sends a packet to each other.
//!
//! It is found by going along the tables. Nothing is proved of it but that it is found safely.

use crate::fabric::{Fabric, place_of};
use crate::groups::{group_first, group_size};
use crate::numbers::count_at;
use crate::ways::place_in;
use c104_interval::{Select, Table};
use c104_plan::Port;
use c104_regs::LINKS;
use std::alloc::{AllocError, Global};

/// What labels come to where each terminal sends a packet to each other, and the links of a group share alike.
#[derive(Clone, Copy, Debug, PartialEq, Eq)]
pub struct Load {
    /// How many wires between switches a packet crosses on average, in thousandths.
    pub hops: u64,
    /// How many packets go over the link over which most go, rounded up.
    pub most: u64,
    /// How many rows the table has that has most.
    pub rows: usize,
}

/// A packet: parts of it are whole where a group has up to sixteen links.
const PACKET: u64 = 720720;

/// Tables of all links, and what they are walked by.
#[derive(Clone, Copy)]
pub(crate) struct Tables<'a> {
    pub(crate) fabric: &'a Fabric,
    /// The switches in an order by which packets go up and then down.
    pub(crate) order: &'a [usize],
    /// The switches in the order of their labels.
    pub(crate) visit: &'a [usize],
    /// The tables, by switch and then by link.
    pub(crate) tables: &'a [Table],
    /// The links of each switch that continue groups, as bits.
    pub(crate) continues: &'a [u32],
}

/// An input of a switch.
#[derive(Clone, Copy)]
struct Input {
    switch: usize,
    link: usize,
}

/// Packets for a switch.
#[derive(Clone, Copy)]
struct Target {
    switch: usize,
    /// One of the switch's labels.
    label: u32,
}

/// What labels come to by these tables.
pub(crate) fn load_of(alloc: Global, tables: Tables<'_>) -> Result<Load, AllocError> {
    let inputs = inputs_in_order(alloc, tables)?;
    let mut links = no_flows(alloc, tables.fabric)?;
    let mut label = 0u32;
    for switch in tables.visit {
        let target = Target {
            switch: *switch,
            label,
        };
        let labels = tables.fabric.labels(*switch);
        if labels != 0 {
            add_target(alloc, tables, inputs.as_slice(), target, &mut links)?;
        }
        label = label.saturating_add(labels);
    }
    Ok(summed(tables, links.as_slice()))
}

/// Nothing at each link.
fn no_flows(alloc: Global, fabric: &Fabric) -> Result<Vec<u64>, AllocError> {
    vec![in alloc; 0u64; fabric.switches().saturating_mul(LINKS)]
}

/// The inputs, each before those to which packets go on from it: those to which they went up, and then those to which they
/// came down.
fn inputs_in_order(alloc: Global, tables: Tables<'_>) -> Result<Vec<Input>, AllocError> {
    let mut inputs = Vec::new(alloc);
    for place in 0..tables.order.len() {
        let from_end = tables.order.len() - 1 - place;
        add_inputs(&mut inputs, tables, from_end, false)?;
    }
    for place in 0..tables.order.len() {
        add_inputs(&mut inputs, tables, place, true)?;
    }
    Ok(inputs)
}

/// Adds those inputs of the switch at a place to which packets came down, or its others.
fn add_inputs(
    inputs: &mut Vec<Input>,
    tables: Tables<'_>,
    place: usize,
    came_down: bool,
) -> Result<(), AllocError> {
    let Some(switch) = tables.order.get(place) else {
        return Ok(());
    };
    for link in 0..LINKS {
        let is_due = match tables.fabric.peer(*switch, link) {
            Some(Port::Switch(from, _)) => (place_in(tables.order, from) < place) == came_down,
            Some(Port::Terminal(_)) => !came_down,
            None => false,
        };
        if is_due {
            inputs.push(Input {
                switch: *switch,
                link,
            })?;
        }
    }
    Ok(())
}

/// Adds the packets for a switch to the links over which they go.
fn add_target(
    alloc: Global,
    tables: Tables<'_>,
    inputs: &[Input],
    target: Target,
    links: &mut [u64],
) -> Result<(), AllocError> {
    let packets = tables
        .fabric
        .terminals(target.switch)
        .saturating_mul(PACKET);
    let mut flows = no_flows(alloc, tables.fabric)?;
    for input in inputs {
        if let Some(Port::Terminal(_)) = tables.fabric.peer(input.switch, input.link) {
            add(&mut flows, place_of(input.switch, input.link), packets);
        }
    }
    // ways that go up and then down take one pass, and those of a form some more
    for _ in 0..inputs.len() {
        if !pass_all(tables, inputs, target, &mut flows, links) {
            return Ok(());
        }
    }
    Ok(())
}

/// Passes on what came to each input, in their order. Whether there was anything.
fn pass_all(
    tables: Tables<'_>,
    inputs: &[Input],
    target: Target,
    flows: &mut [u64],
    links: &mut [u64],
) -> bool {
    let mut was_any = false;
    for input in inputs {
        if input.switch != target.switch && pass_on(tables, *input, target.label, flows, links) {
            was_any = true;
        }
    }
    was_any
}

/// Passes on the packets of a label that came to an input. Whether there were any.
fn pass_on(
    tables: Tables<'_>,
    input: Input,
    label: u32,
    flows: &mut [u64],
    links: &mut [u64],
) -> bool {
    let place = place_of(input.switch, input.link);
    let flow = take(flows, place);
    if flow != 0 {
        share_out(tables, input, label, flow, flows, links);
    }
    flow != 0
}

/// What is at a place, from where it is taken.
fn take(flows: &mut [u64], place: usize) -> u64 {
    if place < flows.len() {
        let flow = flows[place];
        flows[place] = 0;
        flow
    } else {
        0
    }
}

/// Shares packets of a label that came to an input among the links by which they go on.
fn share_out(
    tables: Tables<'_>,
    input: Input,
    label: u32,
    flow: u64,
    flows: &mut [u64],
    links: &mut [u64],
) {
    let place = place_of(input.switch, input.link);
    let Some(table) = tables.tables.get(place) else {
        return;
    };
    let Select::Link(link) = table.select(label) else {
        return;
    };
    let continues = count_at(tables.continues, input.switch);
    let first = group_first(usize::from(link), continues);
    let size = group_size(first, continues);
    for number in 0..size {
        let out = first.saturating_add(number);
        let share = flow / (size as u64).max(1);
        add(links, place_of(input.switch, out), share);
        if let Some(Port::Switch(to, back)) = tables.fabric.peer(input.switch, out) {
            add(flows, place_of(to, back), share);
        }
    }
}

/// Adds packets at a place.
fn add(flows: &mut [u64], place: usize, flow: u64) {
    if place < flows.len() {
        flows[place] = flows[place].saturating_add(flow);
    }
}

/// What tables come to, by the packets that go over each link with them.
fn summed(tables: Tables<'_>, links: &[u64]) -> Load {
    let mut most = 0u64;
    let mut sum = 0u64;
    for flow in links {
        most = most.max(*flow);
        sum = sum.saturating_add(*flow);
    }
    let mut terminals = 0u64;
    for switch in tables.order {
        terminals = terminals.saturating_add(tables.fabric.terminals(*switch));
    }
    let pairs = terminals.saturating_mul(terminals.saturating_sub(1)).max(1);
    let thousandths = sum.saturating_mul(1000) / PACKET;
    Load {
        hops: thousandths.saturating_add(pairs / 2) / pairs,
        most: most.saturating_add(PACKET - 1) / PACKET,
        rows: most_rows(tables.tables),
    }
}

/// How many rows the table has that has most.
fn most_rows(tables: &[Table]) -> usize {
    let mut most = 0usize;
    for table in tables {
        let mut rows = 0usize;
        for row in &table.rows {
            if row.limit != 0 {
                rows = rows.saturating_add(1);
            }
        }
        most = most.max(rows);
    }
    most
}
