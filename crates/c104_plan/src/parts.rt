//! The parts of a plan.

use crate::plans::{PlanBase, PlanRandom, Shape};
use crate::ports::{Port, Wire};
use crate::row_list::RowList;
use crate::switch_list::SwitchList;
use crate::terminal_list::TerminalList;
use std::alloc::{AllocError, Global};

/// The parts of a plan. Each list is in the order in which its items were given.
#[derive(Debug, Drop)]
pub struct Parts {
    /// How many bytes the headers have at wired links.
    pub header: usize,
    /// How many tokens each buffer has room for.
    pub cap: usize,
    /// How the plan came to be.
    pub shape: Shape,
    /// The switches, by number.
    pub switches: SwitchList,
    /// The terminals, by number.
    pub terminals: TerminalList,
    /// The wires, each between links of two switches.
    pub wires: Vec<Wire>,
    /// The ports whose link continues the group of the link before it.
    pub continues: Vec<Port>,
    /// The terminals, by number, on whose links headers are deleted.
    pub deletes: Vec<usize>,
    /// The bases of the inputs' tables.
    pub bases: Vec<PlanBase>,
    /// The rows of the inputs' tables.
    pub rows: RowList,
    /// The random headers of inputs.
    pub randoms: Vec<PlanRandom>,
}

/// What a plan joins: switches and terminals, and the wires between switches.
#[derive(Drop)]
pub struct Network {
    /// The switches, by number.
    pub switches: SwitchList,
    /// The terminals, by number.
    pub terminals: TerminalList,
    /// The wires, each between links of two switches.
    pub wires: Vec<Wire>,
}

/// What a plan sets at links.
#[derive(Drop)]
struct Settings {
    continues: Vec<Port>,
    bases: Vec<PlanBase>,
    rows: RowList,
}

/// What a plan says of headers.
#[derive(Drop)]
struct Headers {
    deletes: Vec<usize>,
    randoms: Vec<PlanRandom>,
}

impl Parts {
    ghost use Rattle.std.specs.{List.list_any, Prelude.{IfOk, IfSome, length, ℕ, ◌<◌, ◌||◌, ◌≡◌, ◌≤◌}};
    ghost use Rattle.c104_plan.specs.{PlanParts.{empty_plan, has_tables, plan_of}, Plans.{AreTerminals, PlanBase as TheBase}};
    ghost use Rattle.c104_plan.specs.Plans.{PlanRandom as TheRandom, host_port, is_continued, is_deleted, is_linked, is_taken, label_count};
    ghost use Rattle.c104_plan.specs.{Plans.{most_switches, next_first, rows_of, switch_number, terminal_number}, Ports.IsSwitchPort};
    ghost use Rattle.c104_plan.specs.Ports.{Wire as TheWire, is_any_at, is_port};

    /// The parts of a plan without lines.
    pub fn new(alloc: Global) -> Result<Self, AllocError>
        ensures { IfOk result (λ parts. plan_of parts ≡ empty_plan) }
    {
        let rows = RowList::new(alloc)?;
        Ok(Parts {
            header: 1,
            cap: 16,
            shape: Shape::Hand,
            switches: SwitchList::new(alloc),
            terminals: TerminalList::new(alloc),
            wires: Vec::new(alloc),
            continues: Vec::new(alloc),
            deletes: Vec::new(alloc),
            bases: Vec::new(alloc),
            rows,
            randoms: Vec::new(alloc),
        })
    }

    /// A copy of the parts.
    pub(crate) fn copy(&self) -> Result<Self, AllocError>
        ensures { IfOk result (λ copy. plan_of copy ≡ plan_of self.now) }
    {
        let headers = self.copy_headers()?;
        let settings = self.copy_settings()?;
        let network = self.copy_network()?;
        Ok(Parts {
            header: self.header,
            cap: self.cap,
            shape: self.shape,
            switches: network.switches,
            terminals: network.terminals,
            wires: network.wires,
            continues: settings.continues,
            deletes: headers.deletes,
            bases: settings.bases,
            rows: settings.rows,
            randoms: headers.randoms,
        })
    }

    /// A copy of what the plan joins.
    pub(crate) fn copy_network(&self) -> Result<Network, AllocError>
        ensures switches { IfOk result (λ copy. copy.switches ≡ self.now.switches) }
        ensures terminals { IfOk result (λ copy. copy.terminals ≡ self.now.terminals) }
        ensures wires { IfOk result (λ copy. copy.wires.items ≡ self.now.wires.items) }
    {
        let wires = self.wires.clone()?;
        let switches = self.switches.copy()?;
        let terminals = self.terminals.copy()?;
        Ok(Network {
            switches,
            terminals,
            wires,
        })
    }

    /// A copy of what the plan sets at links.
    fn copy_settings(&self) -> Result<Settings, AllocError>
        ensures continues { IfOk result (λ copy. copy.continues.items ≡ self.now.continues.items) }
        ensures bases { IfOk result (λ copy. copy.bases.items ≡ self.now.bases.items) }
        ensures rows { IfOk result (λ copy. copy.rows ≡ self.now.rows) }
    {
        let continues = self.continues.clone()?;
        let bases = self.bases.clone()?;
        let rows = self.rows.copy()?;
        Ok(Settings {
            continues,
            bases,
            rows,
        })
    }

    /// A copy of what the plan says of headers.
    fn copy_headers(&self) -> Result<Headers, AllocError>
        ensures deletes { IfOk result (λ copy. copy.deletes.items ≡ self.now.deletes.items) }
        ensures randoms { IfOk result (λ copy. copy.randoms.items ≡ self.now.randoms.items) }
    {
        let deletes = self.deletes.clone()?;
        let randoms = self.randoms.clone()?;
        Ok(Headers { deletes, randoms })
    }

    /// The network becomes this one, which is of this shape.
    pub fn fill(&mut self, network: Network, shape: Shape)
        ensures { plan_of self.new ≡ record (plan_of self.old) {
          shape = shape;
          switches = network.switches;
          terminals = network.terminals;
          wires = network.wires.items;
        } }
    {
        self.switches = network.switches;
        self.terminals = network.terminals;
        self.wires = network.wires;
        self.shape = shape;
    }

    /// The number of the switch of this name.
    #[tactic(auto, unfolding(crate::specs::Plans::switch_number))]
    pub fn switch_number(&self, name: &[u8]) -> Option<usize>
        ensures number { result ≡ switch_number (plan_of self.now) name.now }
        ensures inside { IfSome result (λ number. number < length (plan_of self.now).switches) }
    {
        self.switches.number_of(name)
    }

    /// The number of the terminal of this name.
    #[tactic(auto, unfolding(crate::specs::Plans::terminal_number))]
    pub fn terminal_number(&self, name: &[u8]) -> Option<usize>
        ensures number { result ≡ terminal_number (plan_of self.now) name.now }
        ensures inside { IfSome result (λ number. number < length (plan_of self.now).terminals) }
    {
        self.terminals.number_of(name)
    }

    /// Whether a switch or a terminal has this name.
    #[tactic(auto, using(crate::proofs::PlanNames::taken_either))]
    pub fn is_taken(&self, name: &[u8]) -> bool
        ensures { result ≡ is_taken (plan_of self.now) name.now }
    {
        self.switches.has(name) || self.terminals.has(name)
    }

    /// Whether a port of a switch has a terminal or a wire.
    #[tactic(auto, using(crate::proofs::PlanLinks::linked_either))]
    pub fn is_linked(&self, port: Port) -> bool
        ensures { result ≡ is_linked (plan_of self.now) port }
    {
        self.has_terminal_at(port) || self.has_wire_at(port)
    }

    /// Whether a terminal is on this port of a switch.
    #[tactic(auto, unfolding(crate::specs::Ports::is_any_at))]
    fn has_terminal_at(&self, port: Port) -> bool
        ensures { result ≡ is_any_at host_port (plan_of self.now).terminals port }
    {
        self.terminals
            .as_slice()
            .iter()
            .any(|terminal| terminal.host_port().is_same(port))
    }

    /// Whether a wire between switches has this port.
    fn has_wire_at(&self, port: Port) -> bool
        ensures { result ≡ list_any (λ (w : TheWire). is_port w.here port || is_port w.there port)
            (plan_of self.now).wires }
    {
        self.wires
            .iter()
            .any(|wire| wire.here.is_same(port) || wire.there.is_same(port))
    }

    /// Whether a link continues the group of the link before it.
    #[tactic(auto, unfolding(crate::specs::Ports::is_any_at))]
    pub fn is_continued(&self, port: Port) -> bool
        ensures { result ≡ is_continued (plan_of self.now) port }
    {
        self.continues.iter().any(|other| other.is_same(port))
    }

    /// Whether headers are deleted on the way to a terminal.
    #[tactic(auto, unfolding(crate::specs::Plans::is_deleted))]
    pub fn is_deleted(&self, terminal: usize) -> bool
        ensures { result ≡ is_deleted (plan_of self.now) terminal }
    {
        self.deletes.contains(&terminal)
    }

    /// Whether an input has a base.
    #[tactic(auto, unfolding(crate::specs::Ports::is_any_at))]
    pub fn has_base(&self, port: Port) -> bool
        ensures { result ≡ is_any_at (λ (b : TheBase). b.port) (plan_of self.now).bases port }
    {
        self.bases.iter().any(|base| base.port.is_same(port))
    }

    /// Whether an input has random headers.
    #[tactic(auto, unfolding(crate::specs::Ports::is_any_at))]
    pub fn has_random(&self, port: Port) -> bool
        ensures { result ≡ is_any_at (λ (r : TheRandom). r.port) (plan_of self.now).randoms port }
    {
        self.randoms.iter().any(|random| random.port.is_same(port))
    }

    /// Whether lines set more at links than that they continue groups.
    pub fn has_tables(&self) -> bool
        ensures { result ≡ has_tables (plan_of self.now) }
    {
        !self.bases.is_empty() || !self.rows.as_slice().is_empty() || !self.randoms.is_empty()
    }

    /// How many rows an input has.
    pub fn row_count(&self, port: Port) -> usize
        requires { IsSwitchPort most_switches port }
        ensures { result ≡ length (rows_of port (plan_of self.now).rows) }
    {
        self.rows.count(port)
    }

    /// Where the range of the next terminal begins, if its line doesn't say.
    pub fn next_first(&self) -> u32
        requires { (switches : ℕ) × AreTerminals switches (plan_of self.now).terminals }
        ensures first { result ≡ next_first (plan_of self.now).terminals }
        ensures within { result ≤ label_count }
    {
        match self.terminals.as_slice().last() {
            Some(terminal) => terminal.first + terminal.count,
            None => 0,
        }
    }
}
