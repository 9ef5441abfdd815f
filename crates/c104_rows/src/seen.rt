//! How a network stood behind rounds: what there was to show of it.
ghost use Rattle.std.specs.{List.{flat_map, range_with_len}, Prelude.{OnOk, length, ◌++◌, ◌≡◌}};
ghost use Rattle.c104_rows.specs.States.{link_count, link_ways, nothing_seen, seen_behind, shown_way, terminal_ways, wish_of, wishes_by};
ghost use Rattle.c104_rows.specs.States.{wishes_of};

use crate::holders::packet_at;
use crate::standing::stands_still;
use crate::states::{Way, Wish, is_stuck, link_count, link_way, port_at, terminal_way, wants};
use crate::waits::wait_of;
use c104_check::SwitchPort;
use c104_net::{Origin, TracedNet};
use c104_plan::Port;
use c104_switch::LINKS;
use c104_token::NoMemory;
use std::alloc::Global;
use std::marker::Model;

/// How a network stood behind rounds: what there was to show of each, one after the other.
#[derive(Drop)]
pub struct Seen {
    rounds: Vec<u32>,
    ways: Vec<Way>,
    wishes: Vec<Wish>,
}

impl Model for Seen {
    ghost use Rattle.c104_rows.specs.States.{Seen as TheSeen};

    ghost Value = { TheSeen };

    ghost view = { λ seen. record {
      rounds = seen.rounds.items;
      ways = seen.ways.items;
      wishes = seen.wishes.items;
    } };
}

impl Seen {
    /// Nothing is seen yet.
    pub fn new(alloc: Global) -> Self
        ensures { result ≡ nothing_seen }
    {
        Seen {
            rounds: Vec::new(alloc),
            ways: Vec::new(alloc),
            wishes: Vec::new(alloc),
        }
    }

    /// The rounds.
    pub(crate) fn rounds(&self) -> &[u32]
        ensures { result.now ≡ self.now.rounds }
    {
        self.rounds.as_slice()
    }

    /// The ways: behind each round those of the links of the switches, by switch and link, and then those of the terminals.
    pub(crate) fn ways(&self) -> &[Way]
        ensures { result.now ≡ self.now.ways }
    {
        self.ways.as_slice()
    }

    /// What inputs wanted: behind each round by switch, input and output.
    pub(crate) fn wishes(&self) -> &[Wish]
        ensures { result.now ≡ self.now.wishes }
    {
        self.wishes.as_slice()
    }

    /// Behind this round a network stands so. The only error is out of memory.
    pub fn see(&mut self, net: &TracedNet, round: u32) -> Result<(), NoMemory>
        ensures { OnOk result (self.new ≡ seen_behind net.now round self.old) }
    {
        let still = stands_still(net);
        self.rounds.push(round)?;
        add_links(net, still, round, &mut self.ways)?;
        add_terminals(net, still, round, &mut self.ways)?;
        add_inputs(net, still, round, &mut self.wishes)
    }
}

/// The ways out of the links of switches join a list.
fn add_links(net: &TracedNet, still: bool, round: u32, list: &mut Vec<Way>) -> Result<(), NoMemory>
    ensures { OnOk result (list.new.items
        ≡ list.old.items ++ flat_map (link_ways net.now still round) (range_with_len 0 (link_count net.now))) }
{
    let count = link_count(net.plan());
    for place in 0..count {
        add_way(link_way(net, still, round, place), list)?;
    }
    Ok(())
}

/// A way joins a list, if there is anything to show of it.
fn add_way(way: Way, list: &mut Vec<Way>) -> Result<(), NoMemory>
    ensures { OnOk result (list.new.items ≡ list.old.items ++ shown_way way) }
{
    if way.is_shown() {
        list.push(way)?;
    }
    Ok(())
}

/// The ways out of terminals join a list.
fn add_terminals(
    net: &TracedNet,
    still: bool,
    round: u32,
    list: &mut Vec<Way>,
) -> Result<(), NoMemory>
    ensures { OnOk result (list.new.items ≡ list.old.items
        ++ flat_map (terminal_ways net.now still round) (range_with_len 0 (length net.now.network.plan.terminals))) }
{
    let count = net.plan().terminals().len();
    for terminal in 0..count {
        add_way(terminal_way(net, still, round, terminal), list)?;
    }
    Ok(())
}

/// What inputs want joins a list.
fn add_inputs(
    net: &TracedNet,
    still: bool,
    round: u32,
    list: &mut Vec<Wish>,
) -> Result<(), NoMemory>
    ensures { OnOk result (list.new.items
        ≡ list.old.items ++ flat_map (wishes_of net.now still round) (range_with_len 0 (link_count net.now))) }
{
    let count = link_count(net.plan());
    for place in 0..count {
        add_wishes(net, still, round, place, list)?;
    }
    Ok(())
}

/// What the input at a place wants joins a list.
fn add_wishes(
    net: &TracedNet,
    still: bool,
    round: u32,
    place: usize,
    list: &mut Vec<Wish>,
) -> Result<(), NoMemory>
    ensures { OnOk result (list.new.items ≡ list.old.items ++ wishes_of net.now still round place) }
{
    let input = port_at(place);
    if !wants(net, input) {
        return Ok(());
    }
    let packet = packet_at(net, input);
    let locked = is_stuck(net, still, input);
    add_wanted(net, round, input, packet, locked, list)
}

/// The outputs that an input wants join a list.
fn add_wanted(
    net: &TracedNet,
    round: u32,
    input: SwitchPort,
    packet: Option<Origin>,
    locked: bool,
    list: &mut Vec<Wish>,
) -> Result<(), NoMemory>
    ensures { OnOk result (list.new.items ≡ list.old.items ++ wishes_by net.now round input packet locked) }
{
    for output in 0..LINKS {
        add_wish(net, round, input, packet, locked, output, list)?;
    }
    Ok(())
}

/// An output joins a list, if an input wants it.
fn add_wish(
    net: &TracedNet,
    round: u32,
    input: SwitchPort,
    packet: Option<Origin>,
    locked: bool,
    output: usize,
    list: &mut Vec<Wish>,
) -> Result<(), NoMemory>
    ensures { OnOk result (list.new.items ≡ list.old.items ++ wish_of net.now round input packet locked output) }
{
    if wait_of(net, input, output).is_some() {
        list.push(Wish {
            round,
            input,
            output,
            to: net.plan().peer(Port::Switch(input.switch, output)),
            packet,
            locked,
        })?;
    }
    Ok(())
}
