//! The tokens of a link, the packets made of them, and the text in which a packet is written.
//!
//! - [`Token`] is a byte of data or a terminator, and [`Mark`] a terminator alone.
//! - [`TokenKind`] is a type that a link can carry in place of plain tokens: each value has one
//!   plain token, and no machine reads more of it.
//! - [`Packet`] is a list of bytes of any length, and one terminator. A packet that was read from a
//!   text has at most [`MAX_PACKET_BYTES`] bytes, header included.
//! - [`Items`] is a list in a field of a public type: a `Vec` that can't grow or shrink in place.
//! - [`NoMemory`] is the error of what fails only by memory, and [`TokenFault`] says why a text is no
//!   packet.
#![tactic(auto)]

mod faults;
mod kinds;
mod list;
mod packets;
mod text;
mod tokens;

pub use faults::{NoMemory, TokenFault};
pub use kinds::TokenKind;
pub use list::{Bytes, Items};
pub use packets::{Packet, cut_packets, packet_tokens};
pub use text::{MAX_PACKET_BYTES, digit_of, parse_packet, parse_words, print_packet, read_byte};
pub use tokens::{Mark, Token};

// Contracts name this limit: its value is a part of what they say, so a change of it alone is refused.
const _: () = prove!(MAX_PACKET_BYTES == 4096);
