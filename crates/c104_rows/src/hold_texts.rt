//! The table of what crossed the wires of a run, round by round.

use crate::bars::{Bar, bars_at};
use crate::csv::Csv;
use crate::periods::Period;
use crate::ports::shown_ports;
use crate::timelines::Timeline;
use c104_node::Origin;
use c104_plan::{Plan, Port};
use c104_token::NoMemory;
use std::alloc::{AllocError, Global};

const COLUMNS: &str = "port,to,packet,sender,number,first,last,state";

/// The rounds in which packets crossed the wires, and those in which they held them and nothing crossed; and behind them a row
/// with the last round that is shown: that of the run, or the fifth behind the last in which anything was done. The only error is
/// out of memory.
pub(crate) fn holds_text(
    alloc: Global,
    plan: &Plan,
    timeline: &Timeline,
) -> Result<String, NoMemory> {
    let last = timeline.last_round();
    let mut csv = Csv::new(alloc, COLUMNS)?;
    add_ports(alloc, &mut csv, plan, timeline, last)?;
    add_end(&mut csv, last)?;
    Ok(csv.finish())
}

/// What crossed at all ports joins the table.
fn add_ports(
    alloc: Global,
    csv: &mut Csv,
    plan: &Plan,
    timeline: &Timeline,
    last: u32,
) -> Result<(), NoMemory> {
    for port in shown_ports(alloc, plan, timeline, last)?.iter() {
        let bars = bars_at(alloc, timeline, last, *port)?;
        add_port(csv, plan, *port, bars.as_slice())?;
    }
    Ok(())
}

/// What crossed at a port joins the table.
fn add_port(csv: &mut Csv, plan: &Plan, port: Port, bars: &[Bar]) -> Result<(), AllocError> {
    for bar in bars {
        add_rounds(csv, plan, port, *bar, bar.holds, "holds")?;
        add_rounds(csv, plan, port, *bar, bar.moves, "moves")?;
    }
    Ok(())
}

/// Rounds of a packet on the wire at a port join the table, if there are some.
fn add_rounds(
    csv: &mut Csv,
    plan: &Plan,
    port: Port,
    bar: Bar,
    rounds: Option<Period>,
    state: &str,
) -> Result<(), AllocError> {
    let Some(Period { from, to }) = rounds else {
        return Ok(());
    };
    csv.port(plan, port)?;
    csv.port_if(plan, plan.peer(port))?;
    csv.number(bar.number as u64)?;
    add_packet(csv, plan, bar.packet)?;
    csv.number(u64::from(from))?;
    csv.number(u64::from(to))?;
    csv.word(state)?;
    csv.end_row()
}

/// A packet joins a row, by its sender and its number there, if it is known.
pub(crate) fn add_packet(
    csv: &mut Csv,
    plan: &Plan,
    packet: Option<Origin>,
) -> Result<(), AllocError> {
    let Some(packet) = packet else {
        csv.nothing()?;
        return csv.nothing();
    };
    csv.word(plan.terminal_name(packet.terminal))?;
    csv.number(packet.number as u64)
}

/// The last row: the last round that is shown.
fn add_end(csv: &mut Csv, last: u32) -> Result<(), AllocError> {
    for _column in 0..5 {
        csv.nothing()?;
    }
    csv.number(u64::from(last))?;
    csv.number(u64::from(last))?;
    csv.word("ends")?;
    csv.end_row()
}
