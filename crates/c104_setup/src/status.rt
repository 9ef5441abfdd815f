//! How a command ends.
ghost use Rattle.std.specs.Prelude.{◌≡◌};
ghost use Rattle.c104_setup.specs.Statuses.{exit_code, halt_status};

use c104_stream::Halt;

/// How a command ended. It stands for the program's exit status.
#[derive(Clone, Copy, Debug, PartialEq, Eq)]
pub enum Status {
    /// All was done: exit status 0. Events that were refused, or weren't ready, don't change it.
    Done,
    /// The description, its labels, the script's length or one of its lines, a pattern of traffic, a picture of a run or a
    /// storm was refused, or a cycle of channel dependencies was found: exit status 1.
    Refused,
    /// A read failed, of the description where the number is 0 and of the script where it is 1: exit
    /// status 3.
    CannotRead(u8),
    /// A write failed: exit status 3.
    CannotWrite,
    /// Out of memory: exit status 4.
    NoMemory,
}

impl Status {
    /// How a command ends that stopped for this reason. The number says what was read, 0 for the
    /// description and 1 for the script.
    pub fn of_halt(halt: Halt, number: u8) -> Self
        ensures { result ≡ halt_status halt number }
    {
        match halt {
            Halt::CannotRead => Status::CannotRead(number),
            Halt::CannotWrite => Status::CannotWrite,
            Halt::NoMemory => Status::NoMemory,
        }
    }

    /// The program's exit status.
    pub fn exit_code(self) -> u8
        ensures { result ≡ exit_code self }
    {
        match self {
            Status::Done => 0,
            Status::Refused => 1,
            Status::CannotRead(_) | Status::CannotWrite => 3,
            Status::NoMemory => 4,
        }
    }
}
