//! The registers of an IMS C104: for each of its 32 links what is set there, and what the switch
//! tells of it, read and written by address.
//!
//! The addresses and the meaning of each register are this emulator's. What a switch tells of
//! itself, as its levels and its credit, it tells here before they are read.
//!
//! - [`Registers`] keeps settings and a status for each of [`LINKS`] links, the settings within the
//!   ranges of their registers, and whether the switch is started. An address reads what was poked
//!   there or told last. Its kept values are what was set to something else than after a reset.
//! - [`Address`] is what stands at an address, and [`Register`] one of the registers of a link.
//! - [`Settings`] is what is set at one link, with any numbers in it, and [`PackedSettings`] the same
//!   within the ranges of the registers, in few words: so a switch keeps it.
//! - [`continues_of`] tells, by the settings of all links, which of them continue a group.
//! - [`Status`] is what a switch tells of one link.
//! - [`RegFault`] says why an address is not read or a value not written.
#![tactic(auto)]

mod addresses;
mod faults;
mod groups;
mod kept;
mod packed;
mod registers;
mod settings;
mod status;
mod values;

pub use addresses::{ADDRESS_END, Address, Register};
pub use faults::RegFault;
pub use groups::continues_of;
pub use packed::PackedSettings;
pub use registers::{DEVICE_ID, LINKS, Registers};
pub use settings::Settings;
pub use status::Status;

// Contracts name these: their values are a part of what they say, so a change of one alone is refused.
const _: () = prove!(LINKS == 32);

const _: () = prove!(DEVICE_ID == 0xc104);

const _: () = prove!(packed::BASES == 65536);

const _: () = prove!(packed::LIMITS == 131072);

const _: () = prove!(values::DISCARD_CODE == 32);

const _: () = prove!(values::SINK_CODE == 64);
