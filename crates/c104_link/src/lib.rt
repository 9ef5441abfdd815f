//! The two ends of a wire: an input buffer that grants credit, and an output buffer that spends it.
//!
//! A flow-control token grants eight more tokens to the other end of its wire, and it is sent only
//! where the receiver's buffer has room for them (the data sheet's rule). So an input buffer keeps
//! room for all that it has granted. That the other end sends no more is for whoever joins the two
//! ends: each credit of an output buffer has to stand for a grant.
//!
//! - [`InBufferOf`] keeps what it holds and what it has granted together within its capacity, which
//!   is 8, 16, .. 64 tokens in this emulator.
//! - [`OutBufferOf`] keeps at most [`OUTPUT_CAP`] tokens and at most [`CREDIT_LIMIT`] credits (this
//!   emulator's numbers).
//! - [`InBuffer`] and [`OutBuffer`] are those of plain tokens. Both hold tokens in the order in which
//!   they came, and what is refused changes nothing.
#![tactic(auto)]

mod incoming;
mod outgoing;

pub use incoming::{InBuffer, InBufferOf, valid_cap};
pub use outgoing::{CREDIT_LIMIT, OUTPUT_CAP, OutBuffer, OutBufferOf};

/// The tokens that one flow-control token grants (the data sheet's rule).
pub const TOKENS_OF_A_GRANT: usize = 8;

// Contracts name these: their values are a part of what they say, so a change of one alone is refused.
const _: () = prove!(TOKENS_OF_A_GRANT == 8);

const _: () = prove!(CREDIT_LIMIT == 64);

const _: () = prove!(outgoing::OUTPUT_CAP == 8);
