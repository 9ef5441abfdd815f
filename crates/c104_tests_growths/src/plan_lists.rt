//! The lists that a plan is made of, which a refused call leaves as they were; and images of given tables.
ghost use Rattle.std.specs.Prelude.{All, IsTrue, length, ◌≡◌};
ghost use Rattle.{c104_plan.specs.TextWords.is_name, c104_regs.specs.Ranges.IsTableInRange};

use crate::calls::PLAN;
use crate::ground::{Ground, Suite, is_right_on};
use crate::growths::{Growing, Refusal, is_right};
use crate::outcomes::Outcome;
use c104_interval::{ROWS, Select, Table};
use c104_plan::{
    Image, Name, Parts, Plan, PlanRow, Port, SwitchList, Terminal, TerminalList, is_name,
};
use c104_regs::{LINKS, Registers};
use c104_token::NoMemory;
use std::alloc::Global;

/// Drops the parts of a plan: it is expensive to prove that they may be dropped.
fn drop_parts(_parts: Parts) {}

/// The parts of a plan without lines.
fn new_parts(alloc: Global) -> Option<Parts> {
    Parts::new(alloc).ok()
}

/// What is added to, or made.
#[derive(Clone, Copy)]
enum List {
    Parts,
    Switches,
    Terminals,
    Rows,
    Name,
}

/// Something is added to a list under a name, or is made.
#[derive(Drop)]
struct Adding(List, &'static [u8]);

impl Growing for Adding {
    fn call(&self, alloc: Global, refusal: Refusal) -> Outcome {
        if !is_name(self.1) {
            return Outcome::Wrong;
        }
        match self.0 {
            List::Parts => made_parts(alloc, refusal),
            List::Switches => added_switch(alloc, refusal, self.1),
            List::Terminals => added_terminal(alloc, refusal, self.1),
            List::Rows => added_row(alloc, refusal),
            List::Name => made_name(alloc, refusal, self.1),
        }
    }
}

fn made_parts(alloc: Global, refusal: Refusal) -> Outcome {
    refusal.begin(alloc);
    let made = new_parts(alloc);
    refusal.end(alloc);
    match made {
        Some(parts) => {
            drop_parts(parts);
            Outcome::Done
        }
        None => Outcome::NoMemory,
    }
}

fn made_name(alloc: Global, refusal: Refusal, name: &[u8]) -> Outcome
    requires { IsTrue (is_name name.now) }
{
    refusal.begin(alloc);
    let result = Name::new(alloc, name);
    refusal.end(alloc);
    Outcome::of(result)
}

fn added_switch(alloc: Global, refusal: Refusal, name: &[u8]) -> Outcome
    requires { IsTrue (is_name name.now) }
{
    let mut switches = SwitchList::new(alloc);
    refusal.begin(alloc);
    let result = switches.push(alloc, name);
    refusal.end(alloc);
    Outcome::of(result).if_kept(switches.len() == 0)
}

fn added_terminal(alloc: Global, refusal: Refusal, name: &[u8]) -> Outcome
    requires { IsTrue (is_name name.now) }
{
    let Ok(name) = Name::new(alloc, name) else {
        return Outcome::Wrong;
    };
    let terminal = Terminal {
        name,
        switch: 0,
        link: 0,
        first: 0,
        count: 1,
    };
    let mut terminals = TerminalList::new(alloc);
    refusal.begin(alloc);
    let result = terminals.push(alloc, terminal);
    refusal.end(alloc);
    Outcome::of(result).if_kept(terminals.len() == 0)
}

fn added_row(alloc: Global, refusal: Refusal) -> Outcome {
    let port = Port::Switch(0, 1);
    let Some(mut parts) = new_parts(alloc) else {
        return Outcome::Wrong;
    };
    if parts.row_count(port) >= ROWS {
        drop_parts(parts);
        return Outcome::Wrong;
    }
    refusal.begin(alloc);
    let result = parts.rows.push(PlanRow {
        port,
        limit: 5,
        select: Select::Link(1),
    });
    refusal.end(alloc);
    let is_kept = parts.row_count(port) == 0;
    drop_parts(parts);
    Outcome::of(result).if_kept(is_kept)
}

/// The image of a plan with a table for each switch.
#[derive(Drop)]
struct Tabling<'a>(&'a Plan);

impl Growing for Tabling<'_> {
    fn call(&self, alloc: Global, refusal: Refusal) -> Outcome {
        let tables = [Registers::new().table(0)];
        if self.0.switches().len() != tables.len() {
            return Outcome::Wrong;
        }
        Outcome::of(tabled(alloc, refusal, self.0, &tables))
    }
}

fn tabled(alloc: Global, refusal: Refusal, plan: &Plan, tables: &[Table]) -> Result<Image, NoMemory>
    requires switches { length tables.now ≡ length plan.now.switches }
    requires tables { All IsTableInRange tables.now }
{
    let ranges = plan.ranges(alloc)?;
    refusal.begin(alloc);
    let made = Image::with_tables(alloc, plan, ranges, tables);
    refusal.end(alloc);
    made
}

/// The image of a plan with a table for each link.
#[derive(Drop)]
struct PortTabling<'a>(Ground<'a>);

impl Growing for PortTabling<'_> {
    fn call(&self, alloc: Global, refusal: Refusal) -> Outcome {
        let (plan, image) = (self.0.plan, self.0.image);
        let tables = [Registers::new().table(0); LINKS];
        let groups = [false; LINKS];
        if plan.switches().len() != 1 || !image.fits(plan) {
            return Outcome::Wrong;
        }
        refusal.begin(alloc);
        let result = image.with_port_tables(alloc, plan, &tables, &groups);
        refusal.end(alloc);
        Outcome::of(result)
    }
}

/// What is copied of a terminal.
#[derive(Clone, Copy)]
enum Copied {
    All,
    Name,
}

/// A terminal is copied, or its name alone.
#[derive(Drop)]
struct Copying<'a>(&'a Terminal, Copied);

impl Growing for Copying<'_> {
    fn call(&self, alloc: Global, refusal: Refusal) -> Outcome {
        refusal.begin(alloc);
        let found = match self.1 {
            Copied::All => Outcome::of(self.0.clone()),
            Copied::Name => Outcome::of(self.0.name.clone()),
        };
        refusal.end(alloc);
        found
    }
}

/// Images of given tables, and copies of what a plan has.
#[derive(Drop)]
struct PartCalls;

impl Suite for PartCalls {
    fn is_right(&self, rt: &HostRuntime, ground: Ground<'_>) -> bool {
        let Some(terminal) = ground.plan.terminals().first() else {
            return false;
        };
        is_right(rt, "Image::with_tables", &Tabling(ground.plan))
            && is_right(rt, "Image::with_port_tables", &PortTabling(ground))
            && is_right(rt, "Terminal::clone", &Copying(terminal, Copied::All))
            && is_right(rt, "Name::clone", &Copying(terminal, Copied::Name))
    }
}

#[test]
fn lists(rt: HostRuntime) {
    for (name, list) in [
        ("Parts::new", List::Parts),
        ("Name::new", List::Name),
        ("SwitchList::push", List::Switches),
        ("TerminalList::push", List::Terminals),
        ("RowList::push", List::Rows),
    ] {
        assert!(rt; is_right(&rt, name, &Adding(list, b"A")));
    }
}

#[test]
fn plan_parts(rt: HostRuntime) {
    assert!(rt; is_right_on(&rt, PLAN, &PartCalls));
}
