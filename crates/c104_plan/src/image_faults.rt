//! Why a value or a range is not set in an image.
ghost use Rattle.std.specs.Prelude.{◌≡◌};
ghost use Rattle.c104_plan.specs.ImageFaults.{image_fault_name, image_fault_number};
ghost use Rattle.c104_plan.specs.declared.image_faults.ImageFault.TheVariants as fault;

use c104_regs::RegFault;
use std::alloc::AllocError;
use thiserror::Error;

/// Why a value or a range is not set in an image, by this emulator's own numbers. Of all that is
/// wrong the least number is answered.
#[derive(Clone, Copy, Debug, PartialEq, Eq, Error)]
pub enum ImageFault {
    /// The image has no switch or no terminal of the number.
    #[error("there is no such node")]
    NoNode,
    /// No poke can set the register: NoRegister, ReadOnly or OutOfRange, and never Busy.
    #[error("{0}")]
    Register(RegFault),
    /// The range has no label, or ends past label 65535.
    #[error("a range has at least one label, and ends at 65535 at most")]
    BadRange,
    /// Out of memory.
    #[error("out of memory")]
    NoMemory,
}

impl ImageFault {
    /// The fault's number, 1 to 4.
    pub fn number(self) -> u8
        ensures { result ≡ image_fault_number self }
    {
        match self {
            ImageFault::NoNode => 1,
            ImageFault::Register(_) => 2,
            ImageFault::BadRange => 3,
            ImageFault::NoMemory => 4,
        }
    }

    /// The fault's name, as it is printed.
    pub fn name(self) -> &'static str
        ensures { result.now ≡ image_fault_name self }
    {
        match self {
            ImageFault::NoNode => "NoNode",
            ImageFault::Register(_) => "Register",
            ImageFault::BadRange => "BadRange",
            ImageFault::NoMemory => "NoMemory",
        }
    }
}

impl From<RegFault> for ImageFault {
    ghost from_gives = { λ error e. e ≡ fault.Register error };

    fn from(error: RegFault) -> ImageFault {
        ImageFault::Register(error)
    }
}

impl From<AllocError> for ImageFault {
    ghost from_gives = { λ _ e. e ≡ fault.NoMemory };

    fn from(_error: AllocError) -> ImageFault {
        ImageFault::NoMemory
    }
}
