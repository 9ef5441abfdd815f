//! Ports, and the wires that join them.

/// One end of a wire. Switches and terminals are numbered from 0 in the order of the plan, links
/// from 0 to 31.
#[derive(Clone, Copy, Debug, PartialEq, Eq)]
pub enum Port {
    /// A switch's link.
    Switch(usize, usize),
    /// A terminal's only link.
    Terminal(usize),
}

impl Port {
    ghost use Rattle.std.specs.Prelude.{◌≡◌};
    ghost use Rattle.c104_plan.specs.Ports.{is_port};

    /// Whether this is the same port as another.
    pub fn is_same(self, other: Port) -> bool
        ensures { result ≡ is_port self other }
    {
        self == other
    }
}

/// A wire, which joins two ports both ways.
#[derive(Clone, Copy, Debug, PartialEq, Eq)]
pub struct Wire {
    /// One end.
    pub here: Port,
    /// The other.
    pub there: Port,
}

impl Wire {
    ghost use Rattle.std.specs.Prelude.{◌≡◌};
    ghost use Rattle.c104_plan.specs.Ports.{are_of_one_switch};

    /// Whether both ends are links of one switch.
    pub fn is_self_wire(self) -> bool
        ensures { result ≡ are_of_one_switch self.here self.there }
    {
        match (self.here, self.there) {
            (Port::Switch(switch, _), Port::Switch(far_switch, _)) => switch == far_switch,
            _ => false,
        }
    }
}
