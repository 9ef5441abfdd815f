//! Why a register can't be read or written.
ghost use Rattle.std.specs.Prelude.{◌≡◌};
ghost use Rattle.c104_regs.specs.Faults.{register_fault_name, register_fault_number};

use thiserror::Error;

/// Why a register is not read or written, by this emulator's numbers, which go on where those of
/// bytes that are no command end. Of all that is wrong with an address and a value the least number
/// is answered.
#[derive(Clone, Copy, Debug, PartialEq, Eq, Error)]
pub enum RegFault {
    /// No register has the address.
    #[error("no register has this address")]
    NoRegister = 3,
    /// The register tells what the switch does, and can't be written.
    #[error("the register can't be written")]
    ReadOnly = 4,
    /// The register doesn't take the value.
    #[error("the register doesn't take this value")]
    OutOfRange = 5,
    /// The link's mode can't change while a packet is on its way through the link.
    #[error("a packet is on its way through the link")]
    Busy = 6,
}

impl RegFault {
    /// The fault's number, 3 to 6, which is that of the refusal that a switch replies.
    pub fn number(self) -> u8
        ensures { result ≡ register_fault_number self }
    {
        self as u8
    }

    /// The fault's name, as it is printed.
    pub fn name(self) -> &'static str
        ensures { result.now ≡ register_fault_name self }
    {
        match self {
            RegFault::NoRegister => "NoRegister",
            RegFault::ReadOnly => "ReadOnly",
            RegFault::OutOfRange => "OutOfRange",
            RegFault::Busy => "Busy",
        }
    }
}
