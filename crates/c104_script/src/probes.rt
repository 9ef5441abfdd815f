//! What a line asks of the registers of switches.

/// What the debugger is to read or to set.
#[derive(Clone, Copy, Debug, PartialEq, Eq)]
pub enum Probe {
    /// What the register of a switch at this address reads.
    Peek {
        switch: usize,
        addr: u16,
    },
    /// The register of a switch at this address is set to a value.
    Poke {
        switch: usize,
        addr: u16,
        value: u32,
    },
    /// What a link of a switch tells of itself. There may be no such link.
    Link {
        switch: usize,
        link: usize,
    },
    /// The table of an input of a switch. There may be no such input.
    Table {
        switch: usize,
        link: usize,
    },
    /// Whether each register that can be set reads as it was loaded.
    Verify,
    /// Each register that can be set and doesn't read as it was loaded.
    VerifyAll,
    /// The registers of a switch that don't read as after a reset.
    Dump {
        switch: usize,
    },
}
