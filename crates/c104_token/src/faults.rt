ghost use Rattle.std.specs.Prelude.{◌≡◌};
ghost use Rattle.c104_token.specs.Faults.{token_fault_number};
ghost use Rattle.c104_token.specs.declared.faults.TokenFault.TheVariants as fault;

use std::alloc::{AllocError, AllocFailed};
use thiserror::Error;

/// Out of memory. What was lent is as it was, unless the function that answers this says otherwise.
#[derive(Clone, Copy, Debug, PartialEq, Eq, Error)]
#[error("out of memory")]
pub struct NoMemory;

impl From<AllocError> for NoMemory {
    fn from(_error: AllocError) -> NoMemory {
        NoMemory
    }
}

impl<T: Drop> From<AllocFailed<T>> for NoMemory {
    fn from(_error: AllocFailed<T>) -> NoMemory {
        NoMemory
    }
}

/// Why a packet's text was refused, by this emulator's numbers: the first fault from the left, or
/// out of memory in its place.
#[derive(Clone, Copy, Debug, PartialEq, Eq, Error)]
pub enum TokenFault {
    /// A word is neither two hexadecimal digits nor a terminator.
    #[error("a word is neither two hexadecimal digits nor `eop` or `eom`")]
    BadHex = 1,
    /// The text ends before a terminator.
    #[error("the packet has no end: `eop` or `eom` is wanted")]
    NoEnd = 2,
    /// A word follows the terminator.
    #[error("a word follows the packet's end")]
    AfterEnd = 3,
    /// There is a 4,097th byte: a packet has at most [`MAX_PACKET_BYTES`](crate::MAX_PACKET_BYTES).
    #[error("the packet has more than 4096 bytes")]
    TooLong = 4,
    /// Out of memory, whatever the text says.
    #[error("out of memory")]
    NoMemory = 5,
}

impl TokenFault {
    /// The fault's number, 1 to 5.
    pub fn number(self) -> u8
        ensures { result ≡ token_fault_number self }
    {
        self as u8
    }
}

impl From<AllocError> for TokenFault {
    ghost from_gives = { λ _ e. e ≡ fault.NoMemory };

    fn from(_error: AllocError) -> TokenFault {
        TokenFault::NoMemory
    }
}

impl<T: Drop> From<AllocFailed<T>> for TokenFault {
    ghost from_gives = { λ _ e. e ≡ fault.NoMemory };

    fn from(_error: AllocFailed<T>) -> TokenFault {
        TokenFault::NoMemory
    }
}
