//! What may be wrong with a script's line.
ghost use Rattle.std.specs.Prelude.{◌≡◌};
ghost use Rattle.c104_script.specs.{Script.packet_fault, Texts.{line_fault_name, line_fault_number}};
ghost use Rattle.c104_script.specs.declared.faults.LineFault.TheVariants as fault;

use c104_token::{NoMemory as OutOfMemory, TokenFault};
use std::alloc::AllocError;
use thiserror::Error;

/// What is wrong with a line, by this emulator's own numbers. Of several faults the one with the least number is
/// answered, but BadHex to PacketTooLong come as the packet is read from the left.
#[derive(Clone, Copy, Debug, PartialEq, Eq, Error)]
pub enum LineFault {
    /// The line has more than 16,384 bytes, its line feed left out.
    #[error("a line has at most 16384 bytes")]
    LineTooLong = 1,
    /// The line's first word is none of a script's words.
    #[error("the first word is not one that a script has")]
    UnknownWord = 2,
    /// A byte outside a comment is neither printable ASCII nor a tab or a carriage return, there are
    /// too few or too many words, or a node or a port has a second dot.
    #[error("the line has a wrong byte or a wrong count of words, or a second dot")]
    BadShape = 3,
    /// A number is not 1 to 7 decimal digits, the number of rounds not 1 to 10,000, or their seed not 1 to 20 digits
    /// below 2^64.
    #[error("a number is 1 to 7 decimal digits, rounds are 1 to 10000, and a seed is below 2^64")]
    BadNumber = 4,
    /// A word of a packet is neither two hexadecimal digits nor a terminator, or a word of another line isn't
    /// the hexadecimal digits that are asked for, or no number follows `length`.
    #[error("a word isn't made of the hexadecimal digits that are wanted, and is no end of a packet")]
    BadHex = 5,
    /// A packet has no terminator.
    #[error("the packet has no end: `eop` or `eom` is wanted")]
    NoEnd = 6,
    /// A word follows a packet's terminator.
    #[error("a word follows the packet's end")]
    AfterEnd = 7,
    /// A packet has a 4,097th byte.
    #[error("the packet has more than 4096 bytes")]
    PacketTooLong = 8,
    /// Out of memory. It is no fault of the line, and ends the run.
    #[error("out of memory")]
    NoMemory = 9,
    /// The first label of the receiver is no header of the network.
    #[error("the first label of the receiver is no header of the network")]
    NoLabel = 10,
}

impl LineFault {
    /// The fault's number.
    pub fn number(self) -> u8
        ensures { result ≡ line_fault_number self }
    {
        self as u8
    }

    /// The fault's name, as it is printed.
    pub fn name(self) -> &'static str
        ensures { result.now ≡ line_fault_name self }
    {
        match self {
            LineFault::LineTooLong => "LineTooLong",
            LineFault::UnknownWord => "UnknownWord",
            LineFault::BadShape => "BadShape",
            LineFault::BadNumber => "BadNumber",
            LineFault::BadHex => "BadHex",
            LineFault::NoEnd => "NoEnd",
            LineFault::AfterEnd => "AfterEnd",
            LineFault::PacketTooLong => "PacketTooLong",
            LineFault::NoMemory => "NoMemory",
            LineFault::NoLabel => "NoLabel",
        }
    }
}

impl From<AllocError> for LineFault {
    ghost from_gives = { λ _ e. e ≡ fault.NoMemory };

    fn from(_error: AllocError) -> LineFault {
        LineFault::NoMemory
    }
}

impl From<OutOfMemory> for LineFault {
    ghost from_gives = { λ _ e. e ≡ fault.NoMemory };

    fn from(_error: OutOfMemory) -> LineFault {
        LineFault::NoMemory
    }
}

impl From<TokenFault> for LineFault {
    ghost from_gives = { λ f e. e ≡ packet_fault f };

    fn from(error: TokenFault) -> LineFault {
        match error {
            TokenFault::BadHex => LineFault::BadHex,
            TokenFault::NoEnd => LineFault::NoEnd,
            TokenFault::AfterEnd => LineFault::AfterEnd,
            TokenFault::TooLong => LineFault::PacketTooLong,
            TokenFault::NoMemory => LineFault::NoMemory,
        }
    }
}
