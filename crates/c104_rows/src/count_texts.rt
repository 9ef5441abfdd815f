//! The tables of what is counted of a run.

use crate::counts::Counts;
use crate::csv::Csv;
use crate::endings::Ending;
use crate::lists::{ListedLink, ListedPacket, listed_links, listed_packets, listed_rounds};
use crate::rounds::RoundRow;
use c104_plan::Plan;
use c104_token::NoMemory;
use std::alloc::{AllocError, Global};

const PACKETS: &str = "sender,number,receiver,bytes,wires,sent,left,arrived,latency,idle,ending";

const LINKS: &str = "port,tokens,busy,packets,longest,waiting";

const ROUNDS: &str = "round,waiting,inside,moved,arrived,held";

const RUN: &str = "length,refused,still";

/// The table of packets, by sender and number. The only error is out of memory.
pub(crate) fn packets_text(
    alloc: Global,
    plan: &Plan,
    counts: &Counts,
) -> Result<String, NoMemory> {
    let packets = listed_packets(alloc, plan.header(), counts)?;
    let mut csv = Csv::new(alloc, PACKETS)?;
    for packet in packets.iter() {
        add_packet(&mut csv, plan, *packet)?;
    }
    Ok(csv.finish())
}

/// A packet joins the table.
fn add_packet(csv: &mut Csv, plan: &Plan, packet: ListedPacket) -> Result<(), AllocError> {
    let row = packet.row;
    csv.word(plan.terminal_name(packet.sender))?;
    csv.number(packet.number as u64)?;
    match row.arrival {
        Some(arrival) => csv.word(plan.terminal_name(arrival.terminal as usize))?,
        None => csv.nothing()?,
    }
    csv.number(u64::from(row.bytes))?;
    csv.number(u64::from(row.wires))?;
    csv.number(u64::from(row.sent))?;
    csv.number_if(row.left)?;
    csv.number_if(row.arrival.map(|arrival| arrival.round))?;
    csv.number_if(packet.latency)?;
    csv.number(u64::from(row.idle))?;
    csv.word(match packet.ending {
        Ending::Arrived => "arrived",
        Ending::Unfinished => "unfinished",
        Ending::Short => "short",
        Ending::Sunk => "sunk",
    })?;
    csv.end_row()
}

/// The table of links: those of the switches that have wires, by switch and link, and then those of the terminals. The only
/// error is out of memory.
pub(crate) fn links_text(alloc: Global, plan: &Plan, counts: &Counts) -> Result<String, NoMemory> {
    let links = listed_links(alloc, plan, counts)?;
    let mut csv = Csv::new(alloc, LINKS)?;
    for link in links.iter() {
        add_link(&mut csv, plan, *link)?;
    }
    Ok(csv.finish())
}

/// A link joins the table.
fn add_link(csv: &mut Csv, plan: &Plan, link: ListedLink) -> Result<(), AllocError> {
    csv.port(plan, link.port)?;
    csv.number(link.tokens)?;
    csv.number(link.busy)?;
    csv.number(link.packets)?;
    csv.number(link.longest)?;
    csv.number(link.waiting)?;
    csv.end_row()
}

/// The table of rounds. The only error is out of memory.
pub(crate) fn rounds_text(alloc: Global, counts: &Counts) -> Result<String, NoMemory> {
    let rounds = listed_rounds(alloc, counts)?;
    let mut csv = Csv::new(alloc, ROUNDS)?;
    for round in rounds.iter() {
        add_round(&mut csv, *round)?;
    }
    Ok(csv.finish())
}

/// A round joins the table.
fn add_round(csv: &mut Csv, round: RoundRow) -> Result<(), AllocError> {
    csv.number(u64::from(round.round))?;
    csv.number(round.levels.waiting)?;
    csv.number(round.levels.inside)?;
    csv.number(round.moved)?;
    csv.number(round.arrived)?;
    csv.number(round.levels.held)?;
    csv.end_row()
}

/// How a run ended.
#[derive(Clone, Copy)]
pub struct Outcome {
    /// How many lines of the script were refused.
    pub refused: u64,
    /// Whether the network stands still with tokens in it.
    pub is_still: bool,
}

/// The table of a run: one row. The only error is out of memory.
pub(crate) fn run_text(
    alloc: Global,
    counts: &Counts,
    outcome: Outcome,
) -> Result<String, NoMemory> {
    let mut csv = Csv::new(alloc, RUN)?;
    csv.number(u64::from(counts.active()))?;
    csv.number(outcome.refused)?;
    csv.flag(outcome.is_still)?;
    csv.end_row()?;
    Ok(csv.finish())
}
