//! The loader and the debugger: switches by control commands alone.
//!
//! - [`ControlPort`] is what takes commands for switches by number. It tells which were asked and
//!   what was answered, and it may show its switches. All that follows is proved once, of every port.
//! - A network with its record is such a port: one whose nodes keep what they do (`Net`), and one that in contracts is
//!   such a network (`TracedNet`).
//! - [`load`] resets each switch, pokes what an image keeps, and starts each switch. [`verify`] reads
//!   every register that can be written and compares it with the image.
//! - [`read_link`] reads what a link tells of itself, [`read_table`] an input's table, and
//!   [`write_register`] sets a register.
//! - [`LoadFault`] is why one of these stopped. What was asked before it stays done.
//!
//! None of them takes memory. What is asked between two of their commands is for the port to say.
#![tactic(auto)]

mod commands;
mod faults;
mod loading;
mod nets;
mod ports;
mod reading;
mod tables;
mod verifying;
mod writes;

pub use faults::LoadFault;
pub use loading::load;
pub use ports::{Asked, ControlPort};
pub use reading::{LinkNumbers, read_link};
pub use tables::read_table;
pub use verifying::{due_value, verify};
pub use writes::write_register;
