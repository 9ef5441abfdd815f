//! Why reading and writing stop before their end.
ghost use Rattle.std.specs.Prelude.{◌≡◌};
ghost use Rattle.c104_stream.specs.declared.halt.Halt.TheVariants as halt;
ghost use Rattle.c104_stream.specs.Halts.{halt_of};

use crate::reading::ReadFault;
use crate::writing::CannotWrite;
use c104_token::NoMemory;

/// Why what reads and writes ended before its text.
#[derive(Clone, Copy, Debug, PartialEq, Eq)]
pub enum Halt {
    /// The reader answered an error.
    CannotRead,
    /// The writer answered an error, or took nothing.
    CannotWrite,
    /// Out of memory.
    NoMemory,
}

impl From<ReadFault> for Halt {
    ghost from_gives = { λ f e. e ≡ halt_of f };

    fn from(error: ReadFault) -> Halt {
        match error {
            ReadFault::CannotRead => Halt::CannotRead,
            ReadFault::NoMemory => Halt::NoMemory,
        }
    }
}

impl From<CannotWrite> for Halt {
    ghost from_gives = { λ _ e. e ≡ halt.CannotWrite };

    fn from(_error: CannotWrite) -> Halt {
        Halt::CannotWrite
    }
}

impl From<NoMemory> for Halt {
    ghost from_gives = { λ _ e. e ≡ halt.NoMemory };

    fn from(_error: NoMemory) -> Halt {
        Halt::NoMemory
    }
}
