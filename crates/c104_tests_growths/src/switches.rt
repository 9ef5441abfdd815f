//! Links and switches, the word of tickets, and what is kept of registers.
use crate::calls::PLAN;
use crate::ground::{Ground, Suite, is_right_on};
use crate::growths::{Growing, Refusal, is_right};
use crate::outcomes::Outcome;
use crate::without_memory::TERMS;
use c104_interval::{Row, Select, Table};
use c104_link::{InBuffer, OutBuffer};
use c104_regs::Registers;
use c104_script::FoundTable;
use c104_switch::{Switch, SwitchStart};
use c104_tickets::TicketWord;
use c104_token::NoMemory;
use std::alloc::Global;

/// A part of a switch, or beside one, that is made.
#[derive(Clone, Copy)]
enum Part {
    Incoming,
    Granting,
    Outgoing,
    Credit,
    Start,
    PlacedStart,
    Tickets,
    Found,
}

/// A part is made.
#[derive(Drop)]
struct Making(Part);

impl Growing for Making {
    fn call(&self, alloc: Global, refusal: Refusal) -> Outcome {
        let registers = Registers::new();
        refusal.begin(alloc);
        let found = match self.0 {
            Part::Incoming => Outcome::of(InBuffer::new(alloc, 16)),
            Part::Granting => Outcome::of(InBuffer::granting(alloc, 16, 8)),
            Part::Outgoing => Outcome::of(OutBuffer::new(alloc)),
            Part::Credit => Outcome::of(OutBuffer::with_credit(alloc, 8)),
            Part::Start => Outcome::of(SwitchStart::new(alloc, 16)),
            Part::PlacedStart => Outcome::of(SwitchStart::placed(alloc, 16, &registers)),
            Part::Tickets => Outcome::of(TicketWord::new(alloc, TERMS)),
            Part::Found => Outcome::of(FoundTable::new(alloc, Table::reset())),
        };
        refusal.end(alloc);
        found
    }
}

/// What a switch that was made came to, which is retired.
fn retired(made: Result<Switch, NoMemory>) -> Outcome {
    match made {
        Ok(switch) => {
            switch.retire();
            Outcome::Done
        }
        Err(fault) => Outcome::of_fault(&fault),
    }
}

/// How a switch is made.
#[derive(Clone, Copy)]
enum Maker {
    New,
    Placed,
    FromStart,
}

/// A switch is made.
#[derive(Drop)]
struct MakingSwitch(Maker);

impl Growing for MakingSwitch {
    fn call(&self, alloc: Global, refusal: Refusal) -> Outcome {
        let registers = Registers::new();
        let Ok(start) = SwitchStart::new(alloc, 16) else {
            return Outcome::Wrong;
        };
        refusal.begin(alloc);
        let result = match self.0 {
            Maker::New => Switch::new(alloc, 16),
            Maker::Placed => Switch::placed(alloc, 16, &registers),
            Maker::FromStart => Switch::from_start(alloc, &start),
        };
        refusal.end(alloc);
        retired(result)
    }
}

/// The segments of a table are listed.
#[derive(Drop)]
struct Segments;

impl Growing for Segments {
    fn call(&self, alloc: Global, refusal: Refusal) -> Outcome {
        let mut table = Table::reset();
        table.rows[0] = Row {
            limit: 100,
            select: Select::Link(1),
        };
        refusal.begin(alloc);
        let result = table.segments(alloc, 256);
        refusal.end(alloc);
        Outcome::of(result)
    }
}

/// What registers keep is listed.
#[derive(Drop)]
struct Keeping<'a>(&'a Registers);

impl Growing for Keeping<'_> {
    fn call(&self, alloc: Global, refusal: Refusal) -> Outcome {
        refusal.begin(alloc);
        let result = self.0.kept_values(alloc);
        refusal.end(alloc);
        Outcome::of(result)
    }
}

/// The registers of the first switch of a plan.
#[derive(Drop)]
struct PlanRegisters;

impl Suite for PlanRegisters {
    fn is_right(&self, rt: &HostRuntime, ground: Ground<'_>) -> bool {
        match ground.image.switches().first() {
            Some(switch) => is_right(rt, "Registers::kept_values", &Keeping(switch.registers())),
            None => false,
        }
    }
}

#[test]
fn parts(rt: HostRuntime) {
    for (name, part) in [
        ("InBuffer::new", Part::Incoming),
        ("InBuffer::granting", Part::Granting),
        ("OutBuffer::new", Part::Outgoing),
        ("OutBuffer::with_credit", Part::Credit),
        ("SwitchStart::new", Part::Start),
        ("SwitchStart::placed", Part::PlacedStart),
        ("TicketWord::new", Part::Tickets),
        ("FoundTable::new", Part::Found),
    ] {
        assert!(rt; is_right(&rt, name, &Making(part)));
    }
}

#[test]
fn switches(rt: HostRuntime) {
    assert!(rt; is_right(&rt, "Switch::new", &MakingSwitch(Maker::New)));
    assert!(rt; is_right(&rt, "Switch::placed", &MakingSwitch(Maker::Placed)));
    assert!(rt; is_right(&rt, "Switch::from_start", &MakingSwitch(Maker::FromStart)));
}

#[test]
fn tables(rt: HostRuntime) {
    assert!(rt; is_right(&rt, "Table::segments", &Segments));
    assert!(rt; is_right_on(&rt, PLAN, &PlanRegisters));
}
