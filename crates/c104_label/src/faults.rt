//! Why a network isn't labelled.
ghost use Rattle.std.specs.Prelude.{◌≡◌};
ghost use Rattle.c104_label.specs.LabelFaults.{label_fault_name, label_fault_number};
ghost use Rattle.c104_label.specs.declared.faults.LabelFault.TheVariants as fault;

use c104_token::NoMemory as OutOfMemory;
use std::alloc::AllocError;
use thiserror::Error;

/// Why a network isn't labelled, by this emulator's own numbers.
#[derive(Clone, Copy, Debug, PartialEq, Eq, Error)]
pub enum LabelFault {
    /// Wires don't lead from the root of the tree to each switch.
    #[error("wires do not lead from the root to each switch")]
    NotConnected,
    /// There are more labels than headers: over 256, or 65536 where headers have two bytes.
    #[error("there are more labels than headers")]
    TooManyLabels,
    /// The plan isn't to be labelled this way: it has another shape.
    #[error("the network does not have the shape that is labelled so")]
    WrongShape,
    /// Out of memory.
    #[error("out of memory")]
    NoMemory,
    /// Lines of the plan group links, and no labels are accepted with these groups.
    #[error("no labels go with these groups of links")]
    BadGroups,
}

impl LabelFault {
    /// The fault's number, 1 to 5.
    pub fn number(self) -> u8
        ensures { result ≡ label_fault_number self }
    {
        match self {
            LabelFault::NotConnected => 1,
            LabelFault::TooManyLabels => 2,
            LabelFault::WrongShape => 3,
            LabelFault::NoMemory => 4,
            LabelFault::BadGroups => 5,
        }
    }

    /// The fault's name, as it is printed.
    pub fn name(self) -> &'static str
        ensures { result.now ≡ label_fault_name self }
    {
        match self {
            LabelFault::NotConnected => "NotConnected",
            LabelFault::TooManyLabels => "TooManyLabels",
            LabelFault::WrongShape => "WrongShape",
            LabelFault::NoMemory => "NoMemory",
            LabelFault::BadGroups => "BadGroups",
        }
    }
}

impl From<OutOfMemory> for LabelFault {
    ghost from_gives = { λ _ e. e ≡ fault.NoMemory };

    fn from(_error: OutOfMemory) -> LabelFault {
        LabelFault::NoMemory
    }
}

impl From<AllocError> for LabelFault {
    ghost from_gives = { λ _ e. e ≡ fault.NoMemory };

    fn from(_error: AllocError) -> LabelFault {
        LabelFault::NoMemory
    }
}
