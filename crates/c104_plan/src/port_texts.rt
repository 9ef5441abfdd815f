//! How texts name switches, terminals and ports, and what a row selects.
ghost use Rattle.std.specs.{Prelude.{IfOk, ◌≡◌}, String.string_bytes};
ghost use Rattle.c104_plan.specs.PortTexts.{select_text};

use crate::plans::Plan;
use crate::ports::Port;
use c104_interval::Select;
use std::alloc::{AllocError, Global};

impl Plan {
    ghost use Rattle.std.specs.{Prelude.{IfOk, ◌≡◌}, String.string_bytes};
    ghost use Rattle.c104_plan.specs.PortTexts.{port_text, switch_name, terminal_name};

    /// The name of a switch; where there is none, nothing.
    pub fn switch_name(&self, number: usize) -> &str
        ensures { result.now ≡ switch_name self.now number }
    {
        match self.switches().get(number) {
            Some(name) => name.as_str(),
            None => "",
        }
    }

    /// The name of a terminal; where there is none, nothing.
    pub fn terminal_name(&self, number: usize) -> &str
        ensures { result.now ≡ terminal_name self.now number }
    {
        match self.terminals().get(number) {
            Some(terminal) => terminal.name.as_str(),
            None => "",
        }
    }

    /// A port of a switch: its name, a dot and the link. A terminal's is its name alone. The only error is out of memory.
    pub fn port_text(&self, alloc: Global, port: Port) -> Result<String, AllocError>
        ensures { IfOk result (λ text. string_bytes text ≡ port_text self.now port) }
    {
        match port {
            Port::Switch(switch, link) => {
                let name = self.switch_name(switch);
                format!(in alloc; "{name}.{link}")
            }
            Port::Terminal(terminal) => {
                let name = self.terminal_name(terminal);
                format!(in alloc; "{name}")
            }
        }
    }
}

/// What a row selects: a link's number, `discard` or `sink`. The only error is out of memory.
pub fn select_text(alloc: Global, select: Select) -> Result<String, AllocError>
    ensures { IfOk result (λ text. string_bytes text ≡ select_text select) }
{
    match select {
        Select::Link(link) => format!(in alloc; "{link}"),
        Select::Discard => format!(in alloc; "discard"),
        Select::Sink => format!(in alloc; "sink"),
    }
}
