//! The packets that arrived in a storm, sorted: the order in which they came depends on the threads.
ghost use Rattle.std.specs.{Global.Vec as Kept, Prelude.{IfOk, OnOk, flat_map, length, map, ◌++◌, ◌<◌, ◌≡◌}};
ghost use Rattle.{c104_net.specs.{Deliveries.arrived_at, RunOrigins.AreOrigins, TracedEnds.traced_end}, c104_node.specs.Origins.AreSure};
ghost use Rattle.c104_run.specs.FinishedRecords.{record_finish};
ghost use Rattle.c104_node.specs.{Origins.origins_in, declared.{origins.Origin.Origin as TheOrigin, traced.Traced.Traced as TheTraced}};
ghost use Rattle.c104_storm.specs.{Arrivals.{AreAll, IsSortedOf, JoinArrivals, JoinSorted, arrived_line, arrived_of}, Texts.sender_text};

use c104_net::{Origin, Origins, TracedNet};
use c104_plan::Plan;
use c104_script::{add_name, add_number};
use c104_token::{NoMemory, Packet, Token, cut_packets, print_packet};
use std::alloc::Global;

/// A packet that arrived, and where it came from.
#[derive(Clone, Copy)]
pub(crate) struct Arrival<'a> {
    packet: &'a Packet,
    origin: Origin,
}

/// A line for each whole packet that arrived: the packet, the terminal that sent it, and its number among those that this
/// terminal sent, from 0. They are sorted by the terminal where they arrived, by the one that sent them, and by number,
/// and join the text. The only error is out of memory.
pub(crate) fn add_sorted(alloc: Global, net: &TracedNet, text: &mut Vec<u8>) -> Result<(), NoMemory>
    ensures { OnOk result (JoinArrivals (record_finish net.now) text.old.items (length net.now.network.plan.terminals) text.new.items) }
{
    let origins = net.origins(alloc)?;
    add_terminals(alloc, net, origins.as_slice(), text)
}

/// The lines of the packets that each terminal received join the text.
fn add_terminals(
    alloc: Global,
    net: &TracedNet,
    origins: &[Vec<Origin>],
    text: &mut Vec<u8>,
) -> Result<(), NoMemory>
    requires { AreOrigins (record_finish net.now) (map (λ (list : Kept TheOrigin). list.items) origins.now) }
    ensures { OnOk result (JoinArrivals (record_finish net.now) text.old.items (length net.now.network.plan.terminals) text.new.items) }
{
    for terminal in 0..net.plan().terminals().len() {
        add_terminal(alloc, net, terminal, origins, text)?;
    }
    Ok(())
}

/// The lines of the packets that a terminal received join the text.
fn add_terminal(
    alloc: Global,
    net: &TracedNet,
    terminal: usize,
    origins: &[Vec<Origin>],
    text: &mut Vec<u8>,
) -> Result<(), NoMemory>
    requires origins { AreOrigins (record_finish net.now) (map (λ (list : Kept TheOrigin). list.items) origins.now) }
    requires inside { terminal < length net.now.network.plan.terminals }
    ensures { OnOk result (JoinSorted net.now.network.plan terminal (arrived_at (traced_end (record_finish net.now)) terminal)
        text.old.items text.new.items) }
{
    let (Some(arrived), Some(origins)) = (net.arrived(alloc, terminal)?, origins.get(terminal))
    else {
        unreachable!();
    };
    add_packets(
        alloc,
        net,
        terminal,
        arrived.as_slice(),
        origins.as_slice(),
        text,
    )
}

/// The lines of a terminal's whole packets join the text. The origins are those of the packets, in order of arrival.
fn add_packets(
    alloc: Global,
    net: &TracedNet,
    terminal: usize,
    arrived: &[Token],
    origins: &[Origin],
    text: &mut Vec<u8>,
) -> Result<(), NoMemory>
    requires arrived { arrived.now ≡ map (λ (x : TheTraced). x.token) (arrived_at (traced_end (record_finish net.now)) terminal) }
    requires origins { origins.now ≡ origins_in (arrived_at (traced_end (record_finish net.now)) terminal) }
    requires sure { AreSure (arrived_at (traced_end (record_finish net.now)) terminal) }
    ensures { OnOk result (JoinSorted net.now.network.plan terminal (arrived_at (traced_end (record_finish net.now)) terminal)
        text.old.items text.new.items) }
{
    let (packets, _unfinished) = cut_packets(alloc, arrived)?;
    let arrivals = sorted_arrivals(alloc, packets.as_slice(), origins)?;
    add_lines(alloc, net.plan(), terminal, arrivals.as_slice(), text)
}

/// Packets with their origins, sorted by terminal and number. The only error is out of memory.
fn sorted_arrivals<'a>(
    alloc: Global,
    packets: &'a [Packet],
    origins: &[Origin],
) -> Result<Vec<Arrival<'a>>, NoMemory>
    requires { length packets.now ≡ length origins.now }
    ensures { IfOk result (λ list. IsSortedOf packets.now origins.now (map arrived_of list.items)) }
{
    let mut arrivals = all_arrivals(alloc, packets, origins)?;
    arrivals.sort_by_key(|arrival| (arrival.origin.terminal, arrival.origin.number))?;
    Ok(arrivals)
}

/// Packets with their origins, in order. The only error is out of memory.
fn all_arrivals<'a>(
    alloc: Global,
    packets: &'a [Packet],
    origins: &[Origin],
) -> Result<Vec<Arrival<'a>>, NoMemory>
    requires { length packets.now ≡ length origins.now }
    ensures { IfOk result (λ list. AreAll packets.now origins.now (map arrived_of list.items)) }
{
    let mut arrivals = Vec::with_capacity(alloc, packets.len())?;
    for place in 0..packets.len() {
        arrivals.push(Arrival {
            packet: &packets[place],
            origin: origins[place],
        })?;
    }
    Ok(arrivals)
}

/// The lines of packets that arrived at a terminal join the text.
fn add_lines(
    alloc: Global,
    plan: &Plan,
    terminal: usize,
    arrivals: &[Arrival<'_>],
    text: &mut Vec<u8>,
) -> Result<(), NoMemory>
    ensures { OnOk result (text.new.items
        ≡ text.old.items ++ flat_map (λ a. arrived_line plan.now terminal (arrived_of a)) arrivals.now) }
{
    for arrival in arrivals {
        add_packet(alloc, plan, terminal, *arrival, text)?;
    }
    Ok(())
}

/// The line of a packet joins the text.
fn add_packet(
    alloc: Global,
    plan: &Plan,
    terminal: usize,
    arrival: Arrival<'_>,
    text: &mut Vec<u8>,
) -> Result<(), NoMemory>
    ensures { OnOk result (text.new.items
        ≡ text.old.items ++ arrived_line plan.now terminal (arrived_of arrival.entry)) }
{
    let printed = print_packet(alloc, arrival.packet)?;
    add_name(plan, terminal, text)?;
    text.extend_from_slice(b": ")?;
    text.extend_from_slice(printed.as_bytes())?;
    add_sender(plan, arrival.origin, text)?;
    text.push(b'\n')?;
    Ok(())
}

/// Where a packet came from joins the text.
fn add_sender(plan: &Plan, origin: Origin, text: &mut Vec<u8>) -> Result<(), NoMemory>
    ensures { OnOk result (text.new.items ≡ text.old.items ++ sender_text plan.now origin) }
{
    text.extend_from_slice(b" from ")?;
    add_name(plan, origin.terminal, text)?;
    text.push(b' ')?;
    add_number(origin.number, text)?;
    Ok(())
}
