//! What stands at an address, and what may be written there.
ghost use Rattle.std.specs.Prelude.{◌≡◌, ◌↔◌, Some, IfSome, IsTrue};
ghost use Rattle.c104_regs.specs.Registers.{waits};
ghost use Rattle.c104_regs.specs.Addresses.{IsAddress, IsRegister, address_number, address_of, is_writable_address, register_takes, register_properties, register_at};

use crate::LINKS;
use crate::values::{DISCARD_CODE, SINK_CODE};

/// The first address past those of the last link.
pub const ADDRESS_END: u16 = 0x100 * (LINKS as u16 + 1);

/// A register of a link. Which there are, and where, is this emulator's.
#[derive(Clone, Copy, Debug, PartialEq, Eq)]
pub enum Register {
    /// Four bits: two-byte headers, deletion of headers, random headers, and the group.
    Mode,
    /// Where the random headers begin.
    RandomBase,
    /// How many random headers there are.
    RandomRange,
    /// How many packets the input dropped.
    Sunk,
    /// How many packets the input found too short.
    Short,
    /// How many tokens the input buffer holds.
    InputLevel,
    /// How many tokens the output buffer holds.
    OutputLevel,
    /// How many tokens the output may send.
    Credit,
    /// How many more tokens the input let the other end of its wire send.
    Granted,
    /// 0, or 1 and the input that streams to the output.
    Owner,
    /// Where the first row's interval begins.
    Base,
    /// Where the interval of the row of this number ends, 0 to 35.
    Limit(usize),
    /// What the row of this number selects, 0 to 35.
    Select(usize),
}

impl Register {
    /// The register at this offset from the first address of a link.
    pub fn at(offset: u16) -> Option<Self>
        ensures found { result ≡ register_at offset }

        // Exactly the registers of the table stand there, each at its offset.
        ensures table { (r : Register) →
            (result ≡ Some r) ↔ (IsRegister r × ((register_properties r).offset ≡ offset)) }
        ensures is_register { IfSome result (λ r. IsRegister r) }
    {
        match offset {
            0x00 => Some(Register::Mode),
            0x01 => Some(Register::RandomBase),
            0x02 => Some(Register::RandomRange),
            0x03 => Some(Register::Sunk),
            0x04 => Some(Register::Short),
            0x05 => Some(Register::InputLevel),
            0x06 => Some(Register::OutputLevel),
            0x07 => Some(Register::Credit),
            0x08 => Some(Register::Granted),
            0x09 => Some(Register::Owner),
            0x3f => Some(Register::Base),
            0x40..=0x63 => Some(Register::Limit(offset as usize - 0x40)),
            0x80..=0xa3 => Some(Register::Select(offset as usize - 0x80)),
            _ => None,
        }
    }

    /// How far the register stands from the first address of its link.
    fn offset(self) -> u16
        requires { IsRegister self }
        ensures { result ≡ (register_properties self).offset }
    {
        match self {
            Register::Mode => 0x00,
            Register::RandomBase => 0x01,
            Register::RandomRange => 0x02,
            Register::Sunk => 0x03,
            Register::Short => 0x04,
            Register::InputLevel => 0x05,
            Register::OutputLevel => 0x06,
            Register::Credit => 0x07,
            Register::Granted => 0x08,
            Register::Owner => 0x09,
            Register::Base => 0x3f,
            Register::Limit(k) => 0x40 + k as u16,
            Register::Select(k) => 0x80 + k as u16,
        }
    }

    /// Whether the register can be written. The others tell the link's status.
    pub fn is_writable(self) -> bool
        ensures { result ≡ (register_properties self).is_writable }
    {
        match self {
            Register::Mode
            | Register::RandomBase
            | Register::RandomRange
            | Register::Base
            | Register::Limit(_)
            | Register::Select(_) => true,
            Register::Sunk
            | Register::Short
            | Register::InputLevel
            | Register::OutputLevel
            | Register::Credit
            | Register::Granted
            | Register::Owner => false,
        }
    }

    /// Whether the register can't be set while its link is busy.
    pub fn waits(self) -> bool
        ensures { result ≡ waits self }
    {
        match self {
            Register::Mode => true,
            _ => false,
        }
    }

    /// Whether a register that can be written may be set to this value.
    // A row may name a link past the last in the code's type, and its number could then be that of the sink. So the range
    // asks besides that a row selects what its number stands for.
    pub fn takes(self, value: u32) -> bool
        requires { IsTrue (register_properties self).is_writable }
        ensures { result ≡ register_takes self value }
    {
        match self {
            Register::Mode => value <= 0x0f,
            Register::RandomBase | Register::Base => value <= 0xffff,
            Register::RandomRange | Register::Limit(_) => value <= 0x10000,
            Register::Select(_) => value <= DISCARD_CODE || value == SINK_CODE,
            _ => false,
        }
    }
}

/// What stands at an address.
#[derive(Clone, Copy, Debug, PartialEq, Eq)]
pub enum Address {
    /// The number of the kind of device.
    DeviceId,
    /// Whether the switch is started.
    Started,
    /// A register of the link of this number.
    AtLink(usize, Register),
}

impl Address {
    /// What stands at this address, if anything does.
    pub fn at(addr: u16) -> Option<Self>
        ensures found { result ≡ address_of addr }

        // Exactly the registers of the switch and of its links stand there, each at its address.
        ensures table { (x : Address) →
            (result ≡ Some x) ↔ (IsAddress x × (address_number x ≡ addr)) }
        ensures is_address { IfSome result (λ x. IsAddress x) }
    {
        match addr {
            0x0000 => Some(Address::DeviceId),
            0x0001 => Some(Address::Started),
            0x0100..=0x20ff => {
                let register = Register::at(addr % 0x100)?;
                Some(Address::AtLink((addr / 0x100 - 1) as usize, register))
            }
            _ => None,
        }
    }

    /// The address of what stands there: a link is 0 to 31, and the row of a limit or a select 0 to
    /// 35.
    pub fn number(self) -> u16
        requires { IsAddress self }
        ensures { result ≡ address_number self }
    {
        match self {
            Address::DeviceId => 0x0000,
            Address::Started => 0x0001,
            Address::AtLink(link, register) => 0x100 * (link as u16 + 1) + register.offset(),
        }
    }

    /// Whether a poke can set what stands there.
    pub fn is_writable(self) -> bool
        ensures { result ≡ is_writable_address self }
    {
        match self {
            Address::AtLink(_, register) => register.is_writable(),
            _ => false,
        }
    }
}
