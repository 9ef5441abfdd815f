//! Bytes from a reader, one by one, and bytes to a writer.
//!
//! `Ahead` keeps what a reader gave and nobody has taken yet, at most one piece of 8,192 bytes.
//! `Kept` keeps what is to be written, at most 64 KiB, until it is flushed or full.
//! `next_byte` and `add_bytes` read a script of at most `MAX_SCRIPT` bytes line by line: what is kept is written before
//! its reader is asked for more.
//! `read_up_to` and `write_whole` read to the end of a text and write all of one. A `ReadFault`, a
//! `CannotWrite` and a `Halt`, which stands for either, say why a text was not read or written to its
//! end.
//!
//! A reader and a writer are asked once for each piece: every error, and a writer that takes nothing,
//! is a fault at once and is not tried again. Contracts speak of bytes where the reader and the writer
//! tell theirs; `proofs/Prefixes.antt`, `proofs/Growing.antt`, and of scripts that are answered line by line
//! `proofs/ScriptSoFar.antt` and `proofs/ScriptEnds.antt` are for the proofs of the crates above.
#![tactic(auto)]

mod halt;
mod kept;
mod reading;
mod scripts;
mod writing;

pub use halt::Halt;
pub use kept::Kept;
pub use reading::{Ahead, ReadFault, read_up_to};
pub use scripts::{MAX_SCRIPT, add_bytes, next_byte, too_long_line};
pub use writing::{CannotWrite, write_whole};
