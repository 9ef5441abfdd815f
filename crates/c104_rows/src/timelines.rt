//! What crossed the wires of a network, round by round.
//!
//! A `Timeline` is told what happens, in order. What it makes of each thing is one step, so that what it has in the end is
//! what the definitions say of all that happened.
ghost use Rattle.std.specs.Prelude.{IfOk, OnOk, map, replicate, ◌≡◌};
ghost use Rattle.{c104_regs.specs.declared.registers.TheConstants.LINKS, c104_rows.specs.Lanes.{lane_settled, new_lane}};
ghost use Rattle.c104_rows.specs.Timelines.{kept_lanes, lane_count, last_round, link_cut, new_timeline, place_of, port_at, timeline_begun};
ghost use Rattle.c104_rows.specs.Timelines.{timeline_closed, timeline_crossed, timeline_cut, timeline_ended};
ghost use Rattle.c104_rows.specs.Timelines.{timeline_passed, timeline_settled};
ghost use Rattle.c104_plan.specs.declared.ports.Port.TheVariants as port;

use crate::lanes::{Lane, next_round};
use c104_node::Origin;
use c104_plan::{Plan, Port};
use c104_regs::LINKS;
use c104_token::NoMemory;
use std::alloc::Global;
use std::marker::Model;

/// How many rounds are shown behind the last one in which something was done, at most.
const BEYOND: u32 = 5;

// Contracts name this number: its value is a part of what they say, so a change of it alone is refused.
const _: () = prove!(BEYOND == 5);

/// What crossed the wires of a network, round by round.
#[derive(Drop)]
pub struct Timeline {
    terminals: usize,
    lanes: Vec<Lane>,
    round: u32,
    active: u32,
}

impl Model for Timeline {
    ghost use Rattle.c104_rows.specs.Timelines.{Timeline as TheTimeline};

    ghost Value = { TheTimeline };

    ghost view = { λ t. record {
      terminals = t.terminals;
      lanes = t.lanes.items;
      round = t.round;
      active = t.active;
    } };
}

impl Timeline {
    /// Nothing has happened yet on the network of a plan. Where what crosses isn't wanted, none of it is kept. The only error is
    /// out of memory.
    pub fn new(alloc: Global, plan: &Plan, wanted: bool) -> Result<Self, NoMemory>
        ensures { IfOk result (λ timeline. timeline ≡ new_timeline plan.now wanted) }
    {
        let lanes = new_lanes(alloc, kept_lanes(plan, wanted))?;
        Ok(Timeline {
            terminals: plan.terminals().len(),
            lanes,
            round: 0,
            active: 0,
        })
    }

    /// What crossed the wires, by port: first those of the terminals, and then the links of the switches, 32 of each.
    pub(crate) fn lanes(&self) -> &[Lane]
        ensures { result.now ≡ self.now.lanes }
    {
        self.lanes.as_slice()
    }

    /// The number of the round that began last.
    pub fn round(&self) -> u32
        ensures { result ≡ self.now.round }
    {
        self.round
    }

    /// The last round that is shown.
    pub(crate) fn last_round(&self) -> u32
        ensures { result ≡ last_round self.now }
    {
        self.round.min(self.active.saturating_add(BEYOND))
    }

    /// The place of a port among the lanes.
    pub(crate) fn place_of(&self, port: Port) -> Option<usize>
        ensures { result ≡ place_of self.now port }
    {
        match port {
            Port::Switch(switch, link) => self.link_place(switch, link),
            Port::Terminal(terminal) if terminal < self.terminals => Some(terminal),
            Port::Terminal(_) => None,
        }
    }

    /// The place of the link of a switch.
    fn link_place(&self, switch: usize, link: usize) -> Option<usize>
        ensures { result ≡ place_of self.now (port.Switch switch link) }
    {
        let links = self.lanes.len().saturating_sub(self.terminals);
        if link < LINKS && switch < links / LINKS {
            Some(self.terminals + (switch * LINKS + link))
        } else {
            None
        }
    }

    /// The port at a place.
    pub(crate) fn port_at(&self, place: usize) -> Port
        ensures { result ≡ port_at self.now place }
    {
        if place < self.terminals {
            return Port::Terminal(place);
        }
        let link = place - self.terminals;
        Port::Switch(link / LINKS, link % LINKS)
    }

    /// A token crosses the wire at a port, which ends this packet, or none. The one before there is settled by now.
    pub fn cross(&mut self, port: Port, ended: Option<Origin>)
        ensures { self.new ≡ timeline_crossed self.old port ended }
    {
        let place = self.place_of(port);
        self.active = self.round;
        if let Some(place) = place
            && let Some(lane) = self.lanes.get_mut(place)
        {
            lane.cross(self.round, ended);
        }
    }

    /// The token that crossed at a port last becomes part of what crossed there. The only error is out of memory.
    pub fn settle(&mut self, port: Port) -> Result<(), NoMemory>
        ensures { OnOk result (self.new ≡ timeline_settled self.old port) }
    {
        let Some(place) = self.place_of(port) else {
            return Ok(());
        };
        match self.lanes.get_mut(place) {
            Some(lane) => lane.settle(),
            None => Ok(()),
        }
    }

    /// The tokens in a switch are thrown away, as by a reset of it. A packet that holds the wire out of one of its links has
    /// held it up to now, and has no name. The only error is out of memory.
    #[tactic(auto, using(crate::proofs::NumberSteps::none_yet, crate::proofs::NumberSteps::one_more))]
    pub fn cut(&mut self, switch: usize) -> Result<(), NoMemory>
        ensures { OnOk result (self.new ≡ timeline_cut self.old switch) }
    {
        for link in 0..LINKS {
            self.cut_link(switch, link)?;
        }
        Ok(())
    }

    /// The same of one of its links.
    fn cut_link(&mut self, switch: usize, link: usize) -> Result<(), NoMemory>
        ensures { OnOk result (self.new ≡ link_cut switch link self.old) }
    {
        let Some(place) = self.link_place(switch, link) else {
            return Ok(());
        };
        match self.lanes.get_mut(place) {
            Some(lane) => lane.cut(self.round),
            None => Ok(()),
        }
    }

    /// A round begins. The only error is out of memory.
    pub fn begin_round(&mut self) -> Result<(), NoMemory>
        ensures { OnOk result (self.new ≡ timeline_begun self.old) }
    {
        settle_all(&mut self.lanes)?;
        self.round = next_round(self.round);
        Ok(())
    }

    /// The round ends, or an event outside of rounds, which counts to the round before. Something was done or not.
    pub fn end_round(&mut self, done: bool)
        ensures { self.new ≡ timeline_ended self.old done }
    {
        if done {
            self.active = self.round;
        }
    }

    /// As many rounds pass in which nothing is done.
    pub fn pass_rounds(&mut self, times: u32)
        ensures { self.new ≡ timeline_passed self.old times }
    {
        self.round = self.round.saturating_add(times);
    }

    /// The run is at its end, and this is the packet whose end has yet to cross at a place, if it is known. The only error is
    /// out of memory.
    pub(crate) fn close(&mut self, place: usize, packet: Option<Origin>) -> Result<(), NoMemory>
        ensures { OnOk result (self.new ≡ timeline_closed self.old place packet) }
    {
        match self.lanes.get_mut(place) {
            Some(lane) => lane.close(self.round, packet),
            None => Ok(()),
        }
    }
}

/// How many lanes are kept of a plan, if what crosses is wanted or not.
fn kept_lanes(plan: &Plan, wanted: bool) -> usize
    ensures { result ≡ kept_lanes plan.now wanted }
{
    if wanted { lane_count(plan) } else { 0 }
}

/// How many ports of a plan something can go out of.
// A plan has at most 64 switches and 256 terminals.
fn lane_count(plan: &Plan) -> usize
    ensures { result ≡ lane_count plan.now }
{
    let links = LINKS * plan.switches().len();
    plan.terminals().len() + links
}

/// This many lanes over which nothing has crossed. The only error is out of memory.
fn new_lanes(alloc: Global, count: usize) -> Result<Vec<Lane>, NoMemory>
    ensures { IfOk result (λ lanes. lanes.items ≡ replicate count new_lane) }
{
    let mut lanes = Vec::new(alloc);
    for _place in 0..count {
        lanes.push(Lane::new(alloc))?;
    }
    Ok(lanes)
}

/// The tokens that crossed last become part of what crossed. The only error is out of memory.
fn settle_all(lanes: &mut Vec<Lane>) -> Result<(), NoMemory>
    ensures { OnOk result (lanes.new.items ≡ map lane_settled lanes.old.items) }
{
    for lane in lanes.iter_mut() {
        lane.settle()?;
    }
    Ok(())
}
