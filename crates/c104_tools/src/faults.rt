//! Why the loader or the debugger stopped.
ghost use Rattle.std.specs.Prelude.{◌≡◌};
ghost use Rattle.c104_tools.specs.LoadFaults.{load_fault_name, load_fault_number};
ghost use Rattle.c104_tools.specs.declared.faults.LoadFault.TheVariants as fault;

use c104_event::EventFault;
use thiserror::Error;

/// Why the loader or the debugger stopped, by this emulator's own numbers. What was asked before
/// stays done, and nothing was asked after.
#[derive(Clone, Copy, Debug, PartialEq, Eq, Error)]
pub enum LoadFault {
    /// The switch of this number refused a command: the address of the register that was to be read
    /// or set, or 1 where the switch was to be started; and the refusal's number.
    #[error("switch {0} refused a command")]
    Refused(usize, u16, u8),
    /// The register of this switch at this address reads this value, and not that of the image.
    #[error("a register of switch {0} has another value than the image")]
    Differs(usize, u16, u32),
    /// The port has no switch of the number, or another number of switches than the image. Nothing
    /// was asked.
    #[error("there is no such switch, or the image has another number of switches")]
    NoSwitch,
    /// The port gave no reply.
    #[error("{0}")]
    Port(EventFault),
    /// The reply of this switch is no answer to its command, or gives a number that selects nothing
    /// for a row of its table that was read.
    #[error("switch {0} gave a reply that answers something else")]
    BadReply(usize),
}

impl LoadFault {
    /// The fault's number, 1 to 5.
    pub fn number(self) -> u8
        ensures { result ≡ load_fault_number self }
    {
        match self {
            LoadFault::Refused(..) => 1,
            LoadFault::Differs(..) => 2,
            LoadFault::NoSwitch => 3,
            LoadFault::Port(_) => 4,
            LoadFault::BadReply(_) => 5,
        }
    }

    /// The fault's name, as it is printed.
    pub fn name(self) -> &'static str
        ensures { result.now ≡ load_fault_name self }
    {
        match self {
            LoadFault::Refused(..) => "Refused",
            LoadFault::Differs(..) => "Differs",
            LoadFault::NoSwitch => "NoSwitch",
            LoadFault::Port(_) => "Port",
            LoadFault::BadReply(_) => "BadReply",
        }
    }
}

impl From<EventFault> for LoadFault {
    ghost from_gives = { λ error e. e ≡ fault.Port error };

    fn from(error: EventFault) -> LoadFault {
        LoadFault::Port(error)
    }
}
