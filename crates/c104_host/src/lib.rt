//! What stands between a program and the system: a text that is held as it was read, and a writer of which proofs know
//! what it took.
//!
//! Files and terminals tell no contract their bytes. A `HeldText` does: what a file's reads gave, before anything is done by
//! them. So does a `Recorded` writer: what each write that it answered by a count took. What is left to trust is that the
//! system's reads give the bytes of a file, and that its writes take what they say.
#![tactic(auto)]

mod held;
mod record;
mod recorded;

pub use held::{HeldText, TextEnd, hold};
pub use recorded::Recorded;
