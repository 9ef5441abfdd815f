//! Why a network is not made.
ghost use Rattle.std.specs.Prelude.{◌≡◌};
ghost use Rattle.c104_run.specs.PlaceFaults.{place_fault_number};
ghost use Rattle.c104_run.specs.declared.faults.PlaceFault.TheVariants as place;

use c104_token::NoMemory as OutOfMemory;
use thiserror::Error;

/// Why a network was not made.
#[derive(Clone, Copy, Debug, PartialEq, Eq, Error)]
pub enum PlaceFault {
    /// The image has other counts of switches or terminals than the plan.
    #[error("the image doesn't fit the plan")]
    NotFitting = 1,
    /// Out of memory.
    #[error("out of memory")]
    NoMemory = 2,
}

impl PlaceFault {
    /// The fault's number, 1 or 2.
    pub fn number(self) -> u8
        ensures { result ≡ place_fault_number self }
    {
        self as u8
    }
}

impl From<OutOfMemory> for PlaceFault {
    ghost from_gives = { λ _ e. e ≡ place.NoMemory };

    fn from(_error: OutOfMemory) -> PlaceFault {
        PlaceFault::NoMemory
    }
}
