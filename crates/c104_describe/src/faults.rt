//! Why a description is refused.
ghost use Rattle.std.specs.Prelude.{◌≡◌};
ghost use Rattle.c104_describe.specs.PlanFaults.{plan_fault_name, plan_fault_number};
ghost use Rattle.c104_describe.specs.declared.faults.PlanFaultKind.TheVariants as kind;

use c104_token::NoMemory as OutOfMemory;
use std::alloc::AllocError;
use thiserror::Error;

/// What is wrong with a description, by this emulator's own numbers. Of all that is wrong with a line
/// the least number is answered.
#[derive(Clone, Copy, Debug, PartialEq, Eq, Error)]
pub enum PlanFaultKind {
    /// The description has more than 1 MiB.
    #[error("a description has at most 1048576 bytes")]
    TooLong = 1,
    /// The line's first word is none of the description's words.
    #[error("the first word is not one that a description has")]
    UnknownWord = 2,
    /// A byte outside a comment is none of printable ASCII, tab and carriage return, there are too
    /// few or too many words, or a port has no dot or a second one.
    #[error("the line has a wrong byte or a wrong count of words, or a port is not `NAME.NUMBER`")]
    BadShape = 3,
    /// A number is not 1 to 7 decimal digits, or is out of its range.
    #[error("a number is not 1 to 7 decimal digits, or is out of its range")]
    BadNumber = 4,
    /// A name is not a letter and then letters, digits, `_` and `-`, at most 32 bytes in all.
    #[error("a name is a letter and then letters, digits, `_` and `-`, at most 32 bytes in all")]
    BadName = 5,
    /// A switch or a terminal of a line before has the name.
    #[error("the name is taken")]
    NameTaken = 6,
    /// No line before defines the name, or what it names is of the wrong kind.
    #[error("no line before gives something of this kind the name")]
    UnknownName = 7,
    /// A wire would join a switch to itself.
    #[error("a wire joins two switches")]
    SelfWire = 8,
    /// The link has a terminal or a wire.
    #[error("the link has a terminal or a wire")]
    LinkTaken = 9,
    /// There are as many switches, terminals or rows of an input as there may be, or a terminal's
    /// labels end past 65535.
    #[error("there are as many as there may be")]
    TooMany = 10,
    /// The header length or the buffer size, that a link continues a group, the base of an input, or
    /// that headers are deleted on the way to a terminal, is said a second time.
    #[error("this may be said once")]
    Twice = 11,
    /// The line does not go with the way in which the lines before describe the network.
    #[error("the line does not go with the lines before")]
    MixedStyle = 12,
    /// Out of memory.
    #[error("out of memory")]
    NoMemory = 13,
}

impl PlanFaultKind {
    /// The fault's number, 1 to 13.
    pub fn number(self) -> u8
        ensures { result ≡ plan_fault_number self }
    {
        self as u8
    }

    /// The fault's name, as it is printed.
    pub fn name(self) -> &'static str
        ensures { result.now ≡ plan_fault_name self }
    {
        match self {
            PlanFaultKind::TooLong => "TooLong",
            PlanFaultKind::UnknownWord => "UnknownWord",
            PlanFaultKind::BadShape => "BadShape",
            PlanFaultKind::BadNumber => "BadNumber",
            PlanFaultKind::BadName => "BadName",
            PlanFaultKind::NameTaken => "NameTaken",
            PlanFaultKind::UnknownName => "UnknownName",
            PlanFaultKind::SelfWire => "SelfWire",
            PlanFaultKind::LinkTaken => "LinkTaken",
            PlanFaultKind::TooMany => "TooMany",
            PlanFaultKind::Twice => "Twice",
            PlanFaultKind::MixedStyle => "MixedStyle",
            PlanFaultKind::NoMemory => "NoMemory",
        }
    }
}

impl From<AllocError> for PlanFaultKind {
    ghost from_gives = { λ _ e. e ≡ kind.NoMemory };

    fn from(_error: AllocError) -> PlanFaultKind {
        PlanFaultKind::NoMemory
    }
}

impl From<OutOfMemory> for PlanFaultKind {
    ghost from_gives = { λ _ e. e ≡ kind.NoMemory };

    fn from(_error: OutOfMemory) -> PlanFaultKind {
        PlanFaultKind::NoMemory
    }
}

/// Why a description is refused: its first faulty line, and what is wrong with it.
#[derive(Clone, Copy, Debug, PartialEq, Eq, Error)]
#[error("line {line}: {kind}")]
pub struct PlanFault {
    /// The faulty line, counted from 1. 0 where the description is too long, and out of memory.
    pub line: usize,
    /// What is wrong.
    pub kind: PlanFaultKind,
}

impl From<AllocError> for PlanFault {
    ghost use Rattle.c104_describe.specs.PlanFaults.{no_memory};

    ghost from_gives = { λ _ e. e ≡ no_memory };

    fn from(_error: AllocError) -> PlanFault {
        PlanFault {
            line: 0,
            kind: PlanFaultKind::NoMemory,
        }
    }
}

impl From<OutOfMemory> for PlanFault {
    ghost use Rattle.c104_describe.specs.PlanFaults.{no_memory};

    ghost from_gives = { λ _ e. e ≡ no_memory };

    fn from(_error: OutOfMemory) -> PlanFault {
        PlanFault {
            line: 0,
            kind: PlanFaultKind::NoMemory,
        }
    }
}
