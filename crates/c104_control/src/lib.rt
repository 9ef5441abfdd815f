//! The bytes of control commands and of the replies to them.
//!
//! A command is handed whole to a switch, and the switch gives a whole reply back. The bytes are
//! this emulator's own. Addresses and values are low byte first.
//!
//! - [`Command`] is what a switch can be told, an address being any of 16 bits and a value any of 32:
//!   whether there is such a register is for the switch to say.
//! - [`Answer`] is what a switch says to a command. One that is written has the device's own number
//!   in `Identity`, and 1 to 7 in `Refused`, which the caller sees to.
//! - [`ControlBytes`] keeps at most [`MAX_CONTROL_BYTES`] bytes.
//! - [`CommandFault`] says why bytes are no command.
#![tactic(auto)]

mod bytes;
mod commands;
mod faults;
mod replies;

pub use bytes::{ControlBytes, MAX_CONTROL_BYTES};
pub use commands::{Command, read_command, write_command};
pub use faults::CommandFault;
pub use replies::{ALREADY_STARTED, Answer, DEVICE_ID, read_reply, write_reply};

// Contracts name these: their values are a part of what they say, so a change of one alone is refused.
const _: () = prove!(MAX_CONTROL_BYTES == 8);

const _: () = prove!(DEVICE_ID == 0xc104);

const _: () = prove!(ALREADY_STARTED == 7);
