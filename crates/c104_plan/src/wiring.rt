//! The wiring of a plan: which port is wired to which.
ghost use Rattle.std.specs.Prelude.{◌≡◌};
ghost use Rattle.c104_plan.specs.{Ports.other_end, Wiring.terminal_wires};

use crate::plans::{Plan, Terminal};
use crate::ports::{Port, Wire};

impl Plan {
    ghost use Rattle.std.specs.Prelude.{IfSome, ◌≡◌};
    ghost use Rattle.c104_plan.specs.{Plans.IsPlan, Wiring.{IsPlanPort, IsWiring, peer}};

    /// The port that a port is wired to. None where it has no wire.
    ///
    /// A wire goes both ways and joins two switches, or a switch and a terminal. Each terminal has
    /// one.
    pub fn peer(&self, port: Port) -> Option<Port>
        ensures value { result ≡ peer self.now port }
        ensures inside { IfSome result (IsPlanPort self.now) }
        ensures wiring { IsWiring self.now }
        ensures kept { IsPlan self.now }
    {
        match end_of_terminal_wire(self.terminals(), port) {
            Some(other) => Some(other),
            None => end_of_wire(self.wires(), port),
        }
    }
}

/// The other end of the first wire of a terminal that has this port.
fn end_of_terminal_wire(terminals: &[Terminal], port: Port) -> Option<Port>
    ensures { result ≡ other_end (terminal_wires 0 terminals.now) port }
{
    for (number, terminal) in terminals.iter().enumerate() {
        let own = terminal.host_port();
        if port == Port::Terminal(number) {
            return Some(own);
        }
        if port == own {
            return Some(Port::Terminal(number));
        }
    }
    None
}

/// The other end of the first of these wires that has this port.
fn end_of_wire(wires: &[Wire], port: Port) -> Option<Port>
    ensures { result ≡ other_end wires.now port }
{
    for wire in wires {
        if wire.here.is_same(port) {
            return Some(wire.there);
        }
        if wire.there.is_same(port) {
            return Some(wire.here);
        }
    }
    None
}
