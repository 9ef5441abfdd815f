//! How the program ends, and the exit status of that.
ghost use Rattle.std.specs.{Prelude.{◌≡◌}, Process.{exit_status}};

use c104_setup::Status;
use std::process::ExitCode;

/// The exit status of a wrong command line.
const WRONG_USAGE: u8 = 2;

/// How the program ends.
#[derive(Clone, Copy)]
pub enum End {
    /// So a command ended, or help was shown. A script that a person ends by `quit` ends as one that comes to its end.
    Command(Status),
    /// What the command line asks for can't be done.
    WrongUsage,
}

impl End {
    ghost use Rattle.c104.specs.Ends.{end_status};

    /// The program's exit status: 0 where all was done, 1 where something was refused, 2 for wrong usage, 3 where
    /// something can't be read or written, and 4 out of memory.
    pub fn exit_code(self) -> ExitCode
        ensures { exit_status result ≡ end_status self }
    {
        match self {
            End::Command(status) => ExitCode::from(status.exit_code()),
            End::WrongUsage => ExitCode::from(WRONG_USAGE),
        }
    }
}
