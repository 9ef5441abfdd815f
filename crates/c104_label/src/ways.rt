//! Ways that go up towards a root and then down, over any of the wires between switches.
//!
//! A wire goes up to the switch that comes first in an order. Nothing is proved of these ways but that they are found
//! safely: an image that is made by them is checked.

use crate::fabric::Fabric;
use c104_plan::Port;
use c104_regs::LINKS;
use std::alloc::{AllocError, Global};

/// More wires than any way has.
const FAR: usize = 1 << 20;

/// A wire from a switch to another.
#[derive(Clone, Copy)]
struct Step {
    /// The link that it is on, as a bit.
    bit: u32,
    /// The other switch.
    to: usize,
    /// Whether it goes up.
    is_up: bool,
}

/// The switches of a plan, and the wires between them.
#[derive(Drop)]
struct Wires {
    /// The switches in their order.
    order: Vec<usize>,
    /// The wires from each switch, by number.
    steps: Vec<Vec<Step>>,
}

/// How many wires the shortest ways have, by the switch to which they lead and then by that at which they begin.
#[derive(Drop)]
struct Lengths {
    /// Of ways that go down alone.
    down: Vec<Vec<usize>>,
    /// Of ways that go up and then down.
    up_down: Vec<Vec<usize>>,
}

/// The ways between a plan's switches.
#[derive(Drop)]
pub(crate) struct Ways {
    wires: Wires,
    lengths: Lengths,
}

impl Ways {
    ghost use Rattle.std.specs.Prelude.{◌<◌};
    ghost use Rattle.c104_regs.specs.declared.registers.TheConstants.{LINKS as LINK_COUNT};

    /// The ways between a plan's switches, by their order.
    pub(crate) fn new(
        alloc: Global,
        fabric: &Fabric,
        order: Vec<usize>,
    ) -> Result<Ways, AllocError> {
        let steps = all_steps(alloc, fabric, order.as_slice())?;
        let wires = Wires { order, steps };
        let lengths = lengths_of(alloc, &wires)?;
        Ok(Ways { wires, lengths })
    }

    /// The switches in their order.
    pub(crate) fn order(&self) -> &[usize] {
        self.wires.order.as_slice()
    }

    /// Whether the wire on a link of a switch leads up to another switch.
    pub(crate) fn is_up(&self, switch: usize, link: usize) -> bool
        requires { link < LINK_COUNT }
    {
        let bit = 1u32 << link;
        match self.wires.steps.get(switch) {
            Some(steps) => steps.iter().any(|step| step.bit == bit && step.is_up),
            None => false,
        }
    }

    /// The links, as bits, by which a way leaves a switch that ends at another: a shortest way, or any. What came down
    /// goes down.
    pub(crate) fn links(&self, from: usize, came_down: bool, to: usize, is_shortest: bool) -> u32 {
        let Some(steps) = self.wires.steps.get(from) else {
            return 0;
        };
        let length = self.length(from, came_down, to);
        let mut links = 0;
        for step in steps {
            if came_down && step.is_up {
                continue;
            }
            let rest = self.length(step.to, !step.is_up, to);
            if rest < FAR && (!is_shortest || rest < length) {
                links |= step.bit;
            }
        }
        links
    }

    /// How many wires the shortest way from a switch to another has, where what came down goes down.
    fn length(&self, from: usize, came_down: bool, to: usize) -> usize {
        let lengths = if came_down {
            &self.lengths.down
        } else {
            &self.lengths.up_down
        };
        match lengths.get(to) {
            Some(lengths) => length_at(lengths.as_slice(), from),
            None => FAR,
        }
    }
}

/// The length at a switch.
fn length_at(lengths: &[usize], switch: usize) -> usize {
    match lengths.get(switch) {
        Some(length) => *length,
        None => FAR,
    }
}

/// The wires from each switch, by number, where the switches are in this order.
fn all_steps(
    alloc: Global,
    fabric: &Fabric,
    order: &[usize],
) -> Result<Vec<Vec<Step>>, AllocError> {
    let mut all = Vec::new(alloc);
    for switch in 0..fabric.switches() {
        all.push(steps_from(alloc, fabric, order, switch)?)?;
    }
    Ok(all)
}

/// The wires from a switch.
fn steps_from(
    alloc: Global,
    fabric: &Fabric,
    order: &[usize],
    switch: usize,
) -> Result<Vec<Step>, AllocError> {
    let here = place_in(order, switch);
    let mut steps = Vec::new(alloc);
    for link in 0..LINKS {
        if let Some(Port::Switch(to, _)) = fabric.peer(switch, link) {
            let is_up = place_in(order, to) < here;
            steps.push(Step {
                bit: 1u32 << link,
                to,
                is_up,
            })?;
        }
    }
    Ok(steps)
}

/// Where a switch stands among others, and how many there are where it isn't one of them.
pub(crate) fn place_in(order: &[usize], switch: usize) -> usize {
    match order.iter().position(|other| *other == switch) {
        Some(place) => place,
        None => order.len(),
    }
}

/// The lengths of the shortest ways.
fn lengths_of(alloc: Global, wires: &Wires) -> Result<Lengths, AllocError> {
    let down = all_down(alloc, wires)?;
    let up_down = all_up_down(alloc, wires, down.as_slice())?;
    Ok(Lengths { down, up_down })
}

/// Those of ways that go down alone.
fn all_down(alloc: Global, wires: &Wires) -> Result<Vec<Vec<usize>>, AllocError> {
    let mut all = Vec::new(alloc);
    for to in 0..wires.steps.len() {
        all.push(down_to(alloc, wires, to)?)?;
    }
    Ok(all)
}

/// Those of ways that go up and then down.
fn all_up_down(
    alloc: Global,
    wires: &Wires,
    down: &[Vec<usize>],
) -> Result<Vec<Vec<usize>>, AllocError> {
    let mut all = Vec::new(alloc);
    for lengths in down {
        all.push(up_down_to(alloc, wires, lengths.as_slice())?)?;
    }
    Ok(all)
}

/// Those of ways to a switch that go down alone: each is one more than a shorter one of a switch that comes later.
fn down_to(alloc: Global, wires: &Wires, to: usize) -> Result<Vec<usize>, AllocError> {
    let mut lengths = vec![in alloc; FAR; wires.steps.len()]?;
    lower(&mut lengths, to, 0);
    for switch in wires.order.as_slice().iter().rev() {
        let length = one_more(wires, *switch, false, &lengths);
        lower(&mut lengths, *switch, length);
    }
    Ok(lengths)
}

/// Those of ways to a switch that go up and then down, where those that go down alone have these lengths.
fn up_down_to(alloc: Global, wires: &Wires, down: &[usize]) -> Result<Vec<usize>, AllocError> {
    let mut lengths = Vec::from_slice(alloc, down)?;
    for switch in wires.order.as_slice() {
        let length = one_more(wires, *switch, true, &lengths);
        lower(&mut lengths, *switch, length);
    }
    Ok(lengths)
}

/// One more than the least length at the far end of a wire from a switch that goes up, or of one that goes down.
fn one_more(wires: &Wires, switch: usize, up: bool, lengths: &[usize]) -> usize {
    let Some(steps) = wires.steps.get(switch) else {
        return FAR;
    };
    let mut least = FAR;
    for step in steps {
        if step.is_up == up {
            let length = length_at(lengths, step.to).saturating_add(1);
            if length < least {
                least = length;
            }
        }
    }
    least
}

/// Notes the length of a way from a switch, where it is the shortest so far.
fn lower(lengths: &mut [usize], switch: usize, length: usize) {
    if switch < lengths.len() && length < lengths[switch] {
        lengths[switch] = length;
    }
}
