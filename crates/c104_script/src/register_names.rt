//! The names of registers, in the lines of a script and where registers are printed.
ghost use Rattle.std.specs.Prelude.{Err, IfSome, is_some, ◌≡◌};
ghost use Rattle.c104_regs.specs.Addresses.{IsAddress, address_number, address_of};
ghost use Rattle.c104_script.specs.{HexWords.address_word, RegisterNames.IsReadAs, declared.faults.LineFault.TheVariants.{BadHex}};
ghost use Rattle.c104_script.specs.RegisterWords.{address_link, address_name, address_row, link_register_name};

use c104_regs::{Address, Register};

/// A register by its name.
#[derive(Clone, Copy)]
pub struct RegisterName {
    /// The link whose register it is, 0 to 31. None of a register of the switch itself.
    pub link: Option<usize>,
    /// The name that registers of this kind have.
    pub name: &'static str,
    /// The row that the register belongs to, 0 to 35. None where it belongs to no row.
    pub row: Option<usize>,
}

impl RegisterName {
    /// The name of the register at an address. None where no register has the address.
    pub fn at(addr: u16) -> Option<Self>
        ensures named { is_some result ≡ is_some (address_of addr) }

        // A line of a script names that register so, behind its switch, with the link where there is one.
        ensures read_back { IfSome result (λ it. IsReadAs it.link it.name.now it.row addr) }

        // No name could be meant as an address.
        ensures no_address { IfSome result (λ it. address_word it.name.now ≡ Err BadHex) }
    {
        let address = Address::at(addr)?;
        Some(RegisterName::of(address))
    }

    /// The name of what stands at an address.
    pub(crate) fn of(address: Address) -> Self
        requires { IsAddress address }
        ensures link { result.link ≡ address_link address }
        ensures name { result.name.now ≡ address_name address }
        ensures row { result.row ≡ address_row address }
    {
        RegisterName {
            link: link_of(address),
            name: address_name(address),
            row: row_of(address),
        }
    }
}

/// The link whose register stands at an address.
fn link_of(address: Address) -> Option<usize>
    ensures { result ≡ address_link address }
{
    match address {
        Address::AtLink(link, _) => Some(link),
        _ => None,
    }
}

/// The row whose register stands at an address.
fn row_of(address: Address) -> Option<usize>
    ensures { result ≡ address_row address }
{
    match address {
        Address::AtLink(_, Register::Limit(row) | Register::Select(row)) => Some(row),
        _ => None,
    }
}

/// The name of what stands at an address.
pub(crate) fn address_name(address: Address) -> &'static str
    ensures { result.now ≡ address_name address }
{
    match address {
        Address::DeviceId => "identity",
        Address::Started => "started",
        Address::AtLink(_, register) => register_name(register),
    }
}

/// The name of a register of a link.
pub(crate) fn register_name(register: Register) -> &'static str
    ensures { result.now ≡ link_register_name register }
{
    match register {
        Register::Mode => "mode",
        Register::RandomBase => "random-base",
        Register::RandomRange => "random-range",
        Register::Sunk => "sunk",
        Register::Short => "short",
        Register::InputLevel => "input-level",
        Register::OutputLevel => "output-level",
        Register::Credit => "credit",
        Register::Granted => "granted",
        Register::Owner => "owner",
        Register::Base => "base",
        Register::Limit(_) => "limit",
        Register::Select(_) => "select",
    }
}
