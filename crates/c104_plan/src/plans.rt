//! Plans: switches, terminals and wires, and what is to be set at links.

use crate::names::Name;
use crate::parts::Parts;
use crate::ports::{Port, Wire};
use c104_interval::Select;
use std::alloc::AllocError;
use std::marker::Model;

/// A terminal of a plan.
#[derive(Debug, Drop)]
pub struct Terminal {
    /// Its name, which no switch and no other terminal has.
    pub name: Name,
    /// The number of the switch that it is on, in the order of the plan, from 0.
    pub switch: usize,
    /// The link of that switch, 0 to 31.
    pub link: usize,
    /// The first label of its range, 0 to 65535.
    pub first: u32,
    /// How many labels its range has, at least one. The first and this make at most 65536.
    pub count: u32,
}

impl Terminal {
    ghost use Rattle.std.specs.Prelude.{◌≡◌};
    ghost use Rattle.c104_plan.specs.Plans.{host_port};

    /// The port of a switch that the terminal is on.
    pub fn host_port(&self) -> Port
        ensures { result ≡ host_port self.now }
    {
        Port::Switch(self.switch, self.link)
    }
}

impl Clone for Terminal {
    ghost use Rattle.std.specs.Prelude.{◌≡◌};

    ghost is_clone = { λ terminal copy. copy ≡ terminal };

    fn clone(&self) -> Result<Self, AllocError> {
        let name = self.name.clone()?;
        Ok(Terminal {
            name,
            switch: self.switch,
            link: self.link,
            first: self.first,
            count: self.count,
        })
    }
}

/// How a plan came to be.
#[derive(Clone, Copy, Debug, PartialEq, Eq)]
pub enum Shape {
    /// Line by line.
    Hand,
    /// Line by line, to be labelled as a tree from the switch of this number.
    Tree(usize),
    /// Line by line, to be labelled so that packets go up towards the switch of this number, or one that the labeller
    /// takes, and then down.
    UpDown(Option<usize>),
    /// A mesh: its width, its height, and how many terminals each switch has.
    Mesh(usize, usize, usize),
    /// A cube: its dimension, and how many terminals each switch has.
    Cube(usize, usize),
}

/// The base that a plan gives an input's interval table.
#[derive(Clone, Copy, Debug)]
pub struct PlanBase {
    /// The input, a port of a switch.
    pub port: Port,
    /// The first label of the table's first interval, 0 to 65535.
    pub base: u32,
}

/// A row that a plan gives an input's interval table.
#[derive(Clone, Copy, Debug)]
pub struct PlanRow {
    /// The input, a port of a switch.
    pub port: Port,
    /// The first header past the row's interval, 0 to 65536.
    pub limit: u32,
    /// What a header inside the interval selects, where no row before has it inside its own.
    pub select: Select,
}

/// The random headers that a plan gives an input.
#[derive(Clone, Copy, Debug)]
pub struct PlanRandom {
    /// The input, a port of a switch.
    pub port: Port,
    /// Where the random headers begin, 0 to 65535.
    pub base: u32,
    /// How many numbers from the base on a word can pick, 0 to 65536; at 0 the base alone.
    pub range: u32,
}

/// A network as it is planned: its switches and terminals, the wires between its switches,
/// and what is to be set at the links of these.
///
/// What each plan keeps is that names differ, that each port exists and no link is taken twice,
/// that nothing is said twice, and that every number is in its range.
#[derive(Debug, Drop)]
pub struct Plan {
    pub(crate) parts: Parts,
}

impl Model for Plan {
    ghost use Rattle.c104_plan.specs.{PlanParts.plan_of, Plans.{IsPlan, Plan as Described}};

    ghost Value = { Described };

    ghost view = { λ plan. plan_of plan.parts };

    ghost invariant = { λ plan. IsPlan (plan_of plan.parts) };
}

impl Clone for Plan {
    ghost use Rattle.std.specs.Prelude.{◌≡◌};

    ghost is_clone = { λ plan copy. copy ≡ plan };

    fn clone(&self) -> Result<Self, AllocError> {
        let parts = self.parts.copy()?;
        Ok(Plan { parts })
    }
}

impl Plan {
    ghost use Rattle.std.specs.Prelude.{IfSome, length, ◌<◌, ◌≡◌};
    ghost use Rattle.c104_plan.specs.{PlanParts.plan_of, Plans.{IsPlan, switch_number, terminal_number}};

    /// The plan of these parts, which keep what each plan does.
    pub fn new(parts: Parts) -> Self
        requires { IsPlan (plan_of parts) }
        ensures { result ≡ plan_of parts }
    {
        Plan { parts }
    }

    /// The names of the switches, by number.
    pub fn switches(&self) -> &[Name]
        ensures switches { result.now ≡ self.now.switches }
        ensures kept { IsPlan self.now }
    {
        self.parts.switches.as_slice()
    }

    /// The terminals, by number.
    pub fn terminals(&self) -> &[Terminal]
        ensures terminals { result.now ≡ self.now.terminals }
        ensures kept { IsPlan self.now }
    {
        self.parts.terminals.as_slice()
    }

    /// How many bytes the headers have at wired links: 1 or 2.
    pub fn header(&self) -> usize
        ensures header { result ≡ self.now.header }
        ensures kept { IsPlan self.now }
    {
        self.parts.header
    }

    /// How many tokens each buffer of a switch's input or a terminal has room for: 8, 16, .. 64.
    pub fn cap(&self) -> usize
        ensures cap { result ≡ self.now.cap }
        ensures kept { IsPlan self.now }
    {
        self.parts.cap
    }

    /// How the plan came to be.
    pub fn shape(&self) -> Shape
        ensures shape { result ≡ self.now.shape }
        ensures kept { IsPlan self.now }
    {
        self.parts.shape
    }

    /// The wires, each between links of two switches.
    pub fn wires(&self) -> &[Wire]
        ensures wires { result.now ≡ self.now.wires }
        ensures kept { IsPlan self.now }
    {
        self.parts.wires.as_slice()
    }

    /// The ports whose link, 1 to 31, continues the group of the link before it.
    pub fn continues(&self) -> &[Port]
        ensures continues { result.now ≡ self.now.continues }
        ensures kept { IsPlan self.now }
    {
        self.parts.continues.as_slice()
    }

    /// The terminals, by number, on whose links headers are deleted.
    pub fn deletes(&self) -> &[usize]
        ensures deletes { result.now ≡ self.now.deletes }
        ensures kept { IsPlan self.now }
    {
        self.parts.deletes.as_slice()
    }

    /// The bases of the inputs' tables. An input that has none here has base 0.
    pub fn bases(&self) -> &[PlanBase]
        ensures bases { result.now ≡ self.now.bases }
        ensures kept { IsPlan self.now }
    {
        self.parts.bases.as_slice()
    }

    /// The rows of the inputs' tables. Those of one input are its rows from 0 on, in this order.
    pub fn rows(&self) -> &[PlanRow]
        ensures rows { result.now ≡ self.now.rows }
        ensures kept { IsPlan self.now }
    {
        self.parts.rows.as_slice()
    }

    /// The random headers of inputs.
    pub fn randoms(&self) -> &[PlanRandom]
        ensures randoms { result.now ≡ self.now.randoms }
        ensures kept { IsPlan self.now }
    {
        self.parts.randoms.as_slice()
    }

    /// The number of the first switch of this name, from 0. None where no switch has it.
    pub fn switch_number(&self, name: &[u8]) -> Option<usize>
        ensures number { result ≡ switch_number self.now name.now }
        ensures inside { IfSome result (λ number. number < length self.now.switches) }
    {
        self.parts.switch_number(name)
    }

    /// The number of the first terminal of this name, from 0. None where no terminal has it.
    pub fn terminal_number(&self, name: &[u8]) -> Option<usize>
        ensures number { result ≡ terminal_number self.now name.now }
        ensures inside { IfSome result (λ number. number < length self.now.terminals) }
    {
        self.parts.terminal_number(name)
    }
}
