//! Why bytes are no command.
ghost use Rattle.std.specs.Prelude.{◌≡◌};
ghost use Rattle.c104_control.specs.Faults.{command_fault_name, command_fault_number};

use thiserror::Error;

/// Why bytes are no command, by this emulator's numbers.
#[derive(Clone, Copy, Debug, PartialEq, Eq, Error)]
pub enum CommandFault {
    /// No command begins with the first byte.
    #[error("no command begins with this byte")]
    UnknownCode = 1,
    /// The command has another length, or there are no bytes.
    #[error("the command has another length")]
    WrongLength = 2,
}

impl CommandFault {
    /// The fault's number, 1 or 2, which is that of the refusal that a switch replies.
    pub fn number(self) -> u8
        ensures { result ≡ command_fault_number self }
    {
        self as u8
    }

    /// The fault's name.
    pub fn name(self) -> &'static str
        ensures { result.now ≡ command_fault_name self }
    {
        match self {
            CommandFault::UnknownCode => "UnknownCode",
            CommandFault::WrongLength => "WrongLength",
        }
    }
}
