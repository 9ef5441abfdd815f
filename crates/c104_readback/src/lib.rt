//! The labels that a script left in the registers of a network's switches, read back.
//!
//! `read_back_command` runs a script on a description's network, and then prints the labels that are set in the switches
//! by then in a `Form`, or whether a check accepts them. The terminals have the labels of the description.
//!
//! It reads no further than the limits of a description, 1 MiB, and of a script, 16 MiB, and reports what is faulty or
//! refused to what takes `Messages`; what it writes and answers is the same whatever that does.
#![tactic(auto)]

mod commands;
mod forms;
mod registers;

pub use commands::read_back_command;
pub use forms::Form;
