//! What is listed of a run: its packets, its links or its rounds, in the order of their table.
//!
//! An entry has each number of its row, so that a printer computes none.
ghost use Rattle.std.specs.Prelude.{◌≡◌, ◌++◌, IfOk, OnOk};
ghost use Rattle.c104_rows.specs.Lists.{latency_of, link_if, link_listed, listed_links, listed_packets, listed_rounds, packet_listed};
ghost use Rattle.c104_rows.specs.Lists.{packets_from, switch_links, terminal_links};

use crate::counts::Counts;
use crate::endings::Ending;
use crate::links::LinkRow;
use crate::packets::PacketRow;
use crate::rounds::RoundRow;
use c104_plan::{Plan, Port};
use c104_regs::LINKS;
use c104_token::NoMemory;
use std::alloc::Global;

/// A link with a wire, and what is listed of it.
#[derive(Clone, Copy)]
pub struct ListedLink {
    /// The link.
    pub port: Port,
    /// How many tokens have crossed.
    pub tokens: u64,
    /// In how many rounds one did, what happens before the first round not counted.
    pub busy: u64,
    /// How many packets have crossed to their end.
    pub packets: u64,
    /// Over how many rounds a packet held the link at most.
    pub longest: u64,
    /// How many tokens waited to cross at most.
    pub waiting: u64,
}

/// A packet, and what is listed of it.
#[derive(Clone, Copy)]
pub struct ListedPacket {
    /// The terminal that sent it.
    pub sender: usize,
    /// Its number there.
    pub number: usize,
    /// What is counted of it.
    pub row: PacketRow,
    /// How many rounds it took to arrive, if it did.
    pub latency: Option<u32>,
    /// What became of it.
    pub ending: Ending,
}

/// The links with a wire: those of the switches, by switch and link, and then those of the terminals. The only error is out
/// of memory.
pub fn listed_links(
    alloc: Global,
    plan: &Plan,
    counts: &Counts,
) -> Result<Vec<ListedLink>, NoMemory>
    ensures { IfOk result (λ list. list.items ≡ listed_links plan.now counts.now) }
{
    let mut list = Vec::new(alloc);
    let last = counts.active();
    add_links(plan, last, counts.links(), &mut list)?;
    add_wires(plan, last, counts.wires(), &mut list)?;
    Ok(list)
}

/// The switches' links that have wires join the list. The only error is out of memory.
fn add_links(
    plan: &Plan,
    last: u32,
    links: &[LinkRow],
    list: &mut Vec<ListedLink>,
) -> Result<(), NoMemory>
    ensures { OnOk result (list.new.items ≡ list.old.items ++ switch_links plan.now last 0 links.now) }
{
    for place in 0..links.len() {
        let port = Port::Switch(place / LINKS, place % LINKS);
        add_link(plan, last, port, links[place], list)?;
    }
    Ok(())
}

/// The terminals' links that have wires join the list. The only error is out of memory.
fn add_wires(
    plan: &Plan,
    last: u32,
    wires: &[LinkRow],
    list: &mut Vec<ListedLink>,
) -> Result<(), NoMemory>
    ensures { OnOk result (list.new.items ≡ list.old.items ++ terminal_links plan.now last 0 wires.now) }
{
    for terminal in 0..wires.len() {
        add_link(plan, last, Port::Terminal(terminal), wires[terminal], list)?;
    }
    Ok(())
}

/// A link joins the list, if it has a wire. The only error is out of memory.
fn add_link(
    plan: &Plan,
    last: u32,
    port: Port,
    row: LinkRow,
    list: &mut Vec<ListedLink>,
) -> Result<(), NoMemory>
    ensures { OnOk result (list.new.items ≡ list.old.items ++ link_if plan.now last port row) }
{
    if plan.peer(port).is_some() {
        list.push(ListedLink::of(last, port, row))?;
    }
    Ok(())
}

impl ListedLink {
    /// What is listed of a link, of a run in which something was done up to this round.
    fn of(last: u32, port: Port, row: LinkRow) -> Self
        ensures { result ≡ link_listed last port row }
    {
        ListedLink {
            port,
            tokens: row.tokens,
            busy: row.busy,
            packets: row.packets,
            longest: row.longest_at(last),
            waiting: row.waiting,
        }
    }
}

/// The packets, by sender and number, where headers have this many bytes. The only error is out of memory.
pub fn listed_packets(
    alloc: Global,
    header: usize,
    counts: &Counts,
) -> Result<Vec<ListedPacket>, NoMemory>
    ensures { IfOk result (λ list. list.items ≡ listed_packets header counts.now) }
{
    let mut list = Vec::new(alloc);
    let senders = counts.senders();
    for terminal in 0..senders.len() {
        add_packets(header, terminal, senders[terminal].packets(), &mut list)?;
    }
    Ok(list)
}

/// The packets of a terminal join the list. The only error is out of memory.
fn add_packets(
    header: usize,
    terminal: usize,
    packets: &[PacketRow],
    list: &mut Vec<ListedPacket>,
) -> Result<(), NoMemory>
    ensures { OnOk result (list.new.items ≡ list.old.items ++ packets_from header terminal 0 packets.now) }
{
    for number in 0..packets.len() {
        list.push(ListedPacket::of(header, terminal, number, packets[number]))?;
    }
    Ok(())
}

impl ListedPacket {
    /// What is listed of a packet, where headers have this many bytes.
    fn of(header: usize, sender: usize, number: usize, row: PacketRow) -> Self
        ensures { result ≡ packet_listed header sender number row }
    {
        ListedPacket {
            sender,
            number,
            row,
            latency: latency_of(row),
            ending: Ending::of(header, row),
        }
    }
}

/// How many rounds a packet took to arrive, if it did.
fn latency_of(row: PacketRow) -> Option<u32>
    ensures { result ≡ latency_of row row.arrival }
{
    match row.arrival {
        Some(arrival) => Some(row.latency(arrival)),
        None => None,
    }
}

/// The rounds: those that are over, if they are kept, and the one that began last. The only error is out of memory.
pub fn listed_rounds(alloc: Global, counts: &Counts) -> Result<Vec<RoundRow>, NoMemory>
    ensures { IfOk result (λ list. list.items ≡ listed_rounds counts.now) }
{
    let mut list = Vec::new(alloc);
    list.extend_from_slice(counts.rounds())?;
    list.push(counts.current())?;
    Ok(list)
}
