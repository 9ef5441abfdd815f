//! What crossed one wire, one way.
//!
//! A token that crosses is part of a stretch only when the next round begins: then there may be no memory, which a meter
//! has no way to say. A packet's name is known at its end, so a stretch has the packet's number among those of its wire.
ghost use Rattle.std.specs.{Option.option_to_list, Prelude.{OnOk, ◌++◌, ◌≡◌}};
ghost use Rattle.c104_rows.specs.Lanes.{as_ended, first_stretch, goes_on, held_since, is_open, lane_closed, lane_crossed, lane_cut};
ghost use Rattle.c104_rows.specs.Lanes.{lane_settled, name_if, new_lane, next_round, packet_of, rest_of, step_by, step_of};

use c104_node::Origin;
use c104_token::NoMemory;
use std::alloc::Global;
use std::marker::Model;

/// A stretch of rounds, in each of which tokens of one packet crossed; or, behind its last token, in which it held the wire
/// and nothing crossed.
#[derive(Clone, Copy)]
pub(crate) struct Stretch {
    /// The packet's number among those that crossed here, from 0.
    pub(crate) packet: usize,
    /// The round from which on the packet held the wire and nothing crossed; or the first round.
    pub(crate) since: u32,
    /// The first round.
    pub(crate) first: u32,
    /// The last round.
    pub(crate) last: u32,
    /// Whether tokens crossed.
    pub(crate) moves: bool,
}

/// A token that crosses: the round, and the packet that it ends, if it ends one.
#[derive(Clone, Copy)]
pub(crate) struct Crossing {
    pub(crate) round: u32,
    pub(crate) ends: Option<Origin>,
}

/// What a token that crosses does to the latest stretch: it becomes part of it, or begins another, and the one before is past.
#[derive(Clone, Copy)]
pub(crate) struct Step {
    /// The stretch that is past, if one is.
    pub(crate) past: Option<Stretch>,
    /// The latest.
    pub(crate) latest: Stretch,
}

/// What crossed the wire at a port, from there.
#[derive(Drop)]
pub(crate) struct Lane {
    stretches: Vec<Stretch>,
    // One that was cut has no name.
    packets: Vec<Option<Origin>>,
    latest: Option<Stretch>,
    token: Option<Crossing>,
}

impl Model for Lane {
    ghost use Rattle.c104_rows.specs.Lanes.{Lane as TheLane};

    ghost Value = { TheLane };

    ghost view = { λ lane. record {
      stretches = lane.stretches.items;
      packets = lane.packets.items;
      latest = lane.latest;
      token = lane.token;
    } };
}

impl Lane {
    /// Nothing has crossed.
    pub(crate) fn new(alloc: Global) -> Self
        ensures { result ≡ new_lane }
    {
        Lane {
            stretches: Vec::new(alloc),
            packets: Vec::new(alloc),
            latest: None,
            token: None,
        }
    }

    /// The stretches of rounds in which tokens crossed, one after the other.
    pub(crate) fn stretches(&self) -> &[Stretch]
        ensures { result.now ≡ self.now.stretches }
    {
        self.stretches.as_slice()
    }

    /// The packet whose tokens crossed, if its end tells it.
    pub(crate) fn packet_of(&self, stretch: Stretch) -> Option<Origin>
        ensures { result ≡ packet_of self.now stretch }
    {
        self.packets.get(stretch.packet).copied().unwrap_or(None)
    }

    /// A token crosses in this round, which ends this packet, or none. The token before is part of a stretch by now.
    pub(crate) fn cross(&mut self, round: u32, ends: Option<Origin>)
        ensures { self.new ≡ lane_crossed self.old round ends }
    {
        self.token = Some(Crossing { round, ends });
    }

    /// The token that crossed last becomes part of a stretch. The only error is out of memory.
    pub(crate) fn settle(&mut self) -> Result<(), NoMemory>
        ensures { OnOk result (self.new ≡ lane_settled self.old) }
    {
        let Some(crossing) = self.token else {
            return Ok(());
        };
        let step = step_of(self.latest, self.packets.len(), crossing.round);
        push_if(&mut self.stretches, step.past)?;
        push_ended(&mut self.packets, crossing.ends)?;
        self.latest = Some(step.latest);
        self.token = None;
        Ok(())
    }

    /// The tokens that have yet to cross are thrown away in this round. A packet that holds the wire has held it up to then,
    /// and has no name. The only error is out of memory.
    pub(crate) fn cut(&mut self, round: u32) -> Result<(), NoMemory>
        ensures { OnOk result (self.new ≡ lane_cut round self.old) }
    {
        self.settle()?;
        let Some(latest) = self.latest else {
            return Ok(());
        };
        if !latest.is_open(self.packets.len()) {
            return Ok(());
        }
        self.stretches.push(latest)?;
        push_if(&mut self.stretches, rest_of(true, round, latest))?;
        self.packets.push(None)?;
        self.latest = None;
        Ok(())
    }

    /// The run is at its end, this is its last round, and this the packet whose end has yet to cross, if it is known. The only
    /// error is out of memory.
    pub(crate) fn close(&mut self, end: u32, packet: Option<Origin>) -> Result<(), NoMemory>
        ensures { OnOk result (self.new ≡ lane_closed end packet self.old) }
    {
        self.settle()?;
        let Some(latest) = self.latest else {
            return Ok(());
        };
        let held = latest.is_open(self.packets.len());
        self.stretches.push(latest)?;
        push_if(&mut self.stretches, rest_of(held, end, latest))?;
        push_ended(&mut self.packets, name_if(held, packet))?;
        self.latest = None;
        Ok(())
    }
}

impl Stretch {
    /// The first round of a stretch, which is its last so far.
    fn first(packet: usize, since: u32, round: u32) -> Self
        ensures { result ≡ first_stretch packet since round }
    {
        Stretch {
            packet,
            since,
            first: round,
            last: round,
            moves: true,
        }
    }

    /// Whether its packet holds the wire, where this many packets have ended.
    fn is_open(self, packets: usize) -> bool
        ensures { result ≡ is_open self packets }
    {
        self.packet == packets
    }

    /// Whether a token that crosses in this round is part of it.
    fn goes_on(self, packets: usize, round: u32) -> bool
        ensures { result ≡ goes_on self packets round }
    {
        self.is_open(packets) && round <= next_round(self.last)
    }

    /// Since when a packet has held the wire whose token crosses in this round behind it.
    fn held_since(self, packets: usize, round: u32) -> u32
        ensures { result ≡ held_since self packets round }
    {
        if self.is_open(packets) {
            next_round(self.last)
        } else {
            round
        }
    }

    /// What a token does that crosses in this round behind it.
    fn step(self, packets: usize, round: u32) -> Step
        ensures { result ≡ step_by (goes_on self packets round) self packets round }
    {
        if self.goes_on(packets, round) {
            return Step {
                past: None,
                latest: Stretch {
                    last: round,
                    ..self
                },
            };
        }
        Step {
            past: Some(self),
            latest: Stretch::first(packets, self.held_since(packets, round), round),
        }
    }
}

/// What a token does that crosses in this round behind the latest stretch, where this many packets have crossed.
fn step_of(latest: Option<Stretch>, packets: usize, round: u32) -> Step
    ensures { result ≡ step_of latest packets round }
{
    match latest {
        Some(stretch) => stretch.step(packets, round),
        None => Step {
            past: None,
            latest: Stretch::first(packets, round, round),
        },
    }
}

/// The rounds behind a stretch, up to this one, in which its packet holds the wire: a stretch in which nothing crosses.
fn rest_of(held: bool, end: u32, stretch: Stretch) -> Option<Stretch>
    ensures { result ≡ rest_of held end stretch }
{
    if !held || end <= stretch.last {
        return None;
    }
    let first = next_round(stretch.last);
    Some(Stretch {
        packet: stretch.packet,
        since: first,
        first,
        last: end,
        moves: false,
    })
}

/// A packet whose end has yet to cross, if there is one.
fn name_if(held: bool, packet: Option<Origin>) -> Option<Origin>
    ensures { result ≡ name_if held packet }
{
    if held { packet } else { None }
}

/// The round behind one.
pub(crate) fn next_round(round: u32) -> u32
    ensures { result ≡ next_round round }
{
    round.saturating_add(1)
}

/// A thing joins a list, if there is one. The only error is out of memory.
fn push_if<T: Drop>(list: &mut Vec<T>, item: Option<T>) -> Result<(), NoMemory>
    ensures { OnOk result (list.new.items ≡ list.old.items ++ option_to_list item) }
{
    if let Some(item) = item {
        list.push(item)?;
    }
    Ok(())
}

/// A packet that crosses to its end, if one does, joins those that have ended. The only error is out of memory.
fn push_ended(packets: &mut Vec<Option<Origin>>, packet: Option<Origin>) -> Result<(), NoMemory>
    ensures { OnOk result (packets.new.items ≡ packets.old.items ++ as_ended packet) }
{
    if let Some(packet) = packet {
        packets.push(Some(packet))?;
    }
    Ok(())
}
