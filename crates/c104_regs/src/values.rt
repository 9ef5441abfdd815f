//! What a register of a link reads, and what setting it changes.
ghost use Rattle.std.specs.Prelude.{◌≡◌};
ghost use Rattle.c104_regs.specs.{Addresses.IsRegister, Values.{bit_value, mode_of, owner_code, register_read, select_code, select_of}};

use crate::addresses::Register;
use crate::packed::PackedSettings;
use crate::settings::Settings;
use crate::status::Status;
use c104_interval::Select;

/// The number by which a row discards headers. The numbers below it are links.
pub const DISCARD_CODE: u32 = 32;

/// The number by which a row selects the sink.
pub const SINK_CODE: u32 = 64;

impl Register {
    /// What the register reads, at a link with these settings and this status.
    pub fn read(self, settings: &PackedSettings, status: &Status) -> u32
        requires { IsRegister self }
        ensures { result ≡ register_read settings.now status.now self }
    {
        match self {
            Register::Mode => settings.mode(),
            Register::RandomBase => settings.random_base(),
            Register::RandomRange => settings.random_range(),
            Register::Sunk => status.sunk,
            Register::Short => status.short,
            Register::InputLevel => u32::from(status.input_level),
            Register::OutputLevel => u32::from(status.output_level),
            Register::Credit => u32::from(status.credit),
            Register::Granted => u32::from(status.granted),
            Register::Owner => owner_code(status.owner),
            Register::Base => settings.base(),
            Register::Limit(k) => settings.limit(k),
            Register::Select(k) => settings.select_code(k),
        }
    }
}

impl Settings {
    /// The four bits of the mode.
    pub(crate) fn mode(&self) -> u32
        ensures { result ≡ mode_of self.now }
    {
        number(self.two_byte, 1)
            + number(self.delete_header, 2)
            + number(self.randomize, 4)
            + number(self.continue_group, 8)
    }
}

/// The weight of a bit where it is set, and else 0.
pub fn number(bit: bool, weight: u32) -> u32
    ensures { result ≡ bit_value bit weight }
{
    if bit { weight } else { 0 }
}

/// The number of what a row selects.
pub(crate) fn select_code(select: Select) -> u32
    ensures { result ≡ select_code select }
{
    match select {
        Select::Link(link) => u32::from(link),
        Select::Discard => DISCARD_CODE,
        Select::Sink => SINK_CODE,
    }
}

/// What a number selects.
pub(crate) fn select_of(code: u32) -> Select
    ensures { result ≡ select_of code }
{
    match code {
        0..=31 => Select::Link(code as u8),
        DISCARD_CODE => Select::Discard,
        _ => Select::Sink,
    }
}

/// 0 where no input streams to an output, and else 1 and the input.
fn owner_code(owner: Option<u8>) -> u32
    ensures { result ≡ owner_code owner }
{
    match owner {
        Some(input) => 1 + u32::from(input),
        None => 0,
    }
}
