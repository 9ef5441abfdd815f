//! What every command of the program begins with, and how it ends.
//!
//! `read_setup` reads a description no further than its limit, 1 MiB, and labels its network. Where that gives none,
//! `refuse` writes why, and tells people of it. `CommandRuns` says of any command that takes a description alone what
//! it has written when it ends.
//!
//! A `Status` is how a command ended; it keeps which of two readers failed, and stands for the program's
//! exit status. The texts of the program's messages are in `c104`, which has `main`.
#![tactic(auto)]

mod setups;
mod status;
mod unreached;

pub use setups::{Setup, SetupFault, label_fault_text, read_setup, refuse, set_up};
pub use status::Status;
