//! The tables of how a network stands: at the end of a run, or behind each of its rounds.

use crate::changes::{Run, Shown, changes};
use crate::csv::Csv;
use crate::hold_texts::add_packet;
use crate::seen::Seen;
use crate::states::{Hold, Way, Wish, port_at};
use c104_plan::{Plan, Port};
use c104_regs::LINKS;
use c104_token::NoMemory;
use std::alloc::{AllocError, Global};

const WAYS: &str = "port,to,holds,sender,number,locked,out,in";

const WAYS_OF_EACH: &str = "round,port,to,holds,sender,number,locked,out,in";

const WISHES: &str = "input,output,to,sender,number,locked";

const WISHES_OF_EACH: &str = "round,input,output,to,sender,number,locked";

/// How many places links have, below those of the terminals: 64 switches have 32 each.
const LINK_PLACES: usize = 2_048;

/// The ways: at the end of a run, or of each round those that differ from the round before. The only error is out of memory.
pub(crate) fn ways_text(
    alloc: Global,
    plan: &Plan,
    seen: &Seen,
    each: bool,
) -> Result<String, NoMemory> {
    if each {
        return each_ways_text(alloc, plan, seen);
    }
    let mut csv = Csv::new(alloc, WAYS)?;
    for way in seen.ways() {
        add_way(&mut csv, plan, *way)?;
    }
    Ok(csv.finish())
}

/// The ways of each round that differ from the round before.
fn each_ways_text(alloc: Global, plan: &Plan, seen: &Seen) -> Result<String, NoMemory> {
    let runs = changes(alloc, seen.ways(), seen.rounds())?;
    let mut csv = Csv::new(alloc, WAYS_OF_EACH)?;
    for run in runs.iter() {
        add_ways(&mut csv, plan, seen.ways(), *run)?;
    }
    Ok(csv.finish())
}

/// The way of a run joins the table, or that there is nothing of it any more.
fn add_ways(csv: &mut Csv, plan: &Plan, ways: &[Way], run: Run) -> Result<(), AllocError> {
    csv.number(u64::from(run.round))?;
    match ways.get(run.from..run.to) {
        Some([way]) => add_way(csv, plan, *way),
        _ => add_way(csv, plan, Way::nothing(plan, port_of(run.place))),
    }
}

/// The port of a place.
fn port_of(place: usize) -> Port {
    if place < LINK_PLACES {
        let at = port_at(place);
        Port::Switch(at.switch, at.link)
    } else {
        Port::Terminal(place - LINK_PLACES)
    }
}

impl Way {
    /// The way out of a port that no packet holds, and at whose ends no token waits.
    fn nothing(plan: &Plan, port: Port) -> Self {
        Way {
            round: 0,
            from: port,
            to: plan.peer(port),
            behind: 0,
            before: 0,
            hold: Hold::NONE,
        }
    }
}

/// A way joins the table.
fn add_way(csv: &mut Csv, plan: &Plan, way: Way) -> Result<(), AllocError> {
    csv.port(plan, way.from)?;
    csv.port_if(plan, way.to)?;
    csv.flag(way.hold.held)?;
    add_packet(csv, plan, way.hold.packet)?;
    csv.flag(way.hold.locked)?;
    csv.number(way.behind as u64)?;
    csv.number(way.before as u64)?;
    csv.end_row()
}

impl Shown for Way {
    fn round(self) -> u32 {
        self.round
    }

    fn place(self) -> usize {
        match self.from {
            Port::Switch(switch, link) => switch.saturating_mul(LINKS).saturating_add(link),
            Port::Terminal(terminal) => terminal.saturating_add(LINK_PLACES),
        }
    }

    fn is_same(self, other: Self) -> bool {
        self.from == other.from
            && self.behind == other.behind
            && self.before == other.before
            && self.hold == other.hold
    }
}

/// What inputs want: at the end of a run, or of each round that of inputs of which any of it differs from the round before. The
/// only error is out of memory.
pub(crate) fn wishes_text(
    alloc: Global,
    plan: &Plan,
    seen: &Seen,
    each: bool,
) -> Result<String, NoMemory> {
    if each {
        return each_wishes_text(alloc, plan, seen);
    }
    let mut csv = Csv::new(alloc, WISHES)?;
    for wish in seen.wishes() {
        add_wish(&mut csv, plan, *wish)?;
    }
    Ok(csv.finish())
}

/// What inputs want of each round, where it differs from the round before.
fn each_wishes_text(alloc: Global, plan: &Plan, seen: &Seen) -> Result<String, NoMemory> {
    let runs = changes(alloc, seen.wishes(), seen.rounds())?;
    let mut csv = Csv::new(alloc, WISHES_OF_EACH)?;
    for run in runs.iter() {
        add_wishes(&mut csv, plan, seen.wishes(), *run)?;
    }
    Ok(csv.finish())
}

/// What an input wants joins the table, or that it wants nothing any more.
fn add_wishes(csv: &mut Csv, plan: &Plan, wishes: &[Wish], run: Run) -> Result<(), AllocError> {
    if run.from == run.to {
        return add_no_wish(csv, plan, run);
    }
    for wish in wishes.get(run.from..run.to).unwrap_or(&[]) {
        csv.number(u64::from(run.round))?;
        add_wish(csv, plan, *wish)?;
    }
    Ok(())
}

/// That an input wants nothing any more joins the table.
fn add_no_wish(csv: &mut Csv, plan: &Plan, run: Run) -> Result<(), AllocError> {
    csv.number(u64::from(run.round))?;
    csv.port(plan, port_of(run.place))?;
    for _column in 0..4 {
        csv.nothing()?;
    }
    csv.flag(false)?;
    csv.end_row()
}

/// A wish joins the table.
fn add_wish(csv: &mut Csv, plan: &Plan, wish: Wish) -> Result<(), AllocError> {
    csv.port(plan, Port::Switch(wish.input.switch, wish.input.link))?;
    csv.port(plan, Port::Switch(wish.input.switch, wish.output))?;
    csv.port_if(plan, wish.to)?;
    add_packet(csv, plan, wish.packet)?;
    csv.flag(wish.locked)?;
    csv.end_row()
}

impl Shown for Wish {
    fn round(self) -> u32 {
        self.round
    }

    fn place(self) -> usize {
        self.input
            .switch
            .saturating_mul(LINKS)
            .saturating_add(self.input.link)
    }

    fn is_same(self, other: Self) -> bool {
        self.input == other.input
            && self.output == other.output
            && self.packet == other.packet
            && self.locked == other.locked
    }
}
