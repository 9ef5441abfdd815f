//! The words that stand for a register: its address, or a name, behind which the number of a row may stand.
ghost use Rattle.std.specs.Prelude.{All, IfOk, IfSome, option_map, ◌<◌, ◌≡◌};
ghost use Rattle.{c104_plan.specs.Plans.switch_number, c104_regs.specs.Addresses.{IsAddress, IsRegister}};
ghost use Rattle.c104_script.specs.RegisterWords.{IsPlace, is_row_due, named_address, named_register, register_place};
ghost use Rattle.c104_script.specs.RegisterWords.{register_with, row_place, row_registers, single_place, takes_row};

use crate::faults::LineFault;
use crate::hex_words::read_address;
use crate::register_names::{address_name, register_name};
use crate::words::{PlaceWord, read_number_word};
use c104_event::EventFault;
use c104_interval::ROWS;
use c104_plan::Plan;
use c104_regs::{Address, LINKS, Register};

/// The registers of a switch itself.
const SWITCH_REGISTERS: [Address; 2] = [Address::DeviceId, Address::Started];

/// The registers of a link that belong to no row.
const SINGLE_REGISTERS: [Register; 11] = [
    Register::Mode,
    Register::RandomBase,
    Register::RandomRange,
    Register::Sunk,
    Register::Short,
    Register::InputLevel,
    Register::OutputLevel,
    Register::Credit,
    Register::Granted,
    Register::Owner,
    Register::Base,
];

/// Where words say that a register stands.
#[derive(Clone, Copy)]
pub(crate) enum RegisterPlace {
    /// At this address of a switch.
    OfSwitch(u16),
    /// At the link that the switch is named with.
    OfLink(Register),
}

/// Where the words say that a register stands: a name or an address, with the word for a row's number where one stands behind
/// it. BadNumber comes where that is none, and BadHex where the first word is neither.
pub(crate) fn read_register_place(
    word: &[u8],
    row: Option<&[u8]>,
) -> Result<RegisterPlace, LineFault>
    ensures place { result ≡ register_place word.now (option_map (λ word. word.now) row.entry) }
    ensures is_place { IfOk result IsPlace }
{
    match row {
        None => read_single_place(word),
        Some(row) => read_row_place(word, row),
    }
}

/// Whether the number of a row stands behind a name that takes one, and behind no other word.
pub(crate) fn is_row_due(word: &[u8], row: Option<&[u8]>) -> bool
    ensures { result ≡ is_row_due word.now (option_map (λ word. word.now) row.entry) }
{
    match row {
        None => !takes_row(word),
        Some(_) => takes_row(word),
    }
}

/// Whether the number of a row follows a name.
pub(crate) fn takes_row(word: &[u8]) -> bool
    ensures { result ≡ takes_row word.now }
{
    find_register(&row_registers(0), word).is_some()
}

/// The switch that a place names, and the address at which the register stands there. A register of a link takes the link
/// from the place, and any other a place without a link.
pub(crate) fn find_place(
    plan: &Plan,
    place: PlaceWord<'_>,
    register: RegisterPlace,
) -> Result<(usize, u16), EventFault>
    requires { IsPlace register }
    ensures { result ≡ register_with (switch_number plan.now place.entry.name.now) place.entry.link register }
{
    let Some(switch) = plan.switch_number(place.name) else {
        return Err(EventFault::NoNode);
    };
    match (place.link, register) {
        (None, RegisterPlace::OfSwitch(addr)) => Ok((switch, addr)),
        (Some(link), RegisterPlace::OfLink(register)) if (link as usize) < LINKS => {
            let address = Address::AtLink(link as usize, register);
            Ok((switch, address.number()))
        }
        _ => Err(EventFault::NoLink),
    }
}

/// Where a word alone says that a register stands.
#[tactic(auto, using(crate::proofs::RegisterLists::are_single))]
fn read_single_place(word: &[u8]) -> Result<RegisterPlace, LineFault>
    ensures place { result ≡ single_place word.now }
    ensures is_place { IfOk result IsPlace }
{
    if let Some(address) = find_address(word) {
        return Ok(RegisterPlace::OfSwitch(address.number()));
    }
    if let Some(register) = find_register(&SINGLE_REGISTERS, word) {
        return Ok(RegisterPlace::OfLink(register));
    }
    let addr = read_address(word)?;
    Ok(RegisterPlace::OfSwitch(addr))
}

/// Where a name with the number of a row says that a register stands.
fn read_row_place(word: &[u8], row: &[u8]) -> Result<RegisterPlace, LineFault>
    ensures place { result ≡ row_place word.now row.now }
    ensures is_place { IfOk result IsPlace }
{
    let row = read_number_word(row)? as usize;
    if row >= ROWS {
        return Err(LineFault::BadNumber);
    }
    let Some(register) = find_register(&row_registers(row), word) else {
        return Err(LineFault::BadHex);
    };
    Ok(RegisterPlace::OfLink(register))
}

/// The registers of a row, 0 to 35.
#[tactic(auto, using(crate::proofs::RegisterLists::are_of_row))]
fn row_registers(row: usize) -> [Register; 2]
    requires { row < ROWS }
    ensures registers { result ≡ row_registers row }
    ensures all { All IsRegister result }
{
    [Register::Limit(row), Register::Select(row)]
}

/// The register of a switch itself that has this name.
fn find_address(word: &[u8]) -> Option<Address>
    ensures named { result ≡ named_address word.now }
    ensures is_address { IfSome result IsAddress }
{
    for address in SWITCH_REGISTERS.as_slice() {
        if address_name(*address).as_bytes() == word {
            return Some(*address);
        }
    }
    None
}

/// That of these registers of a link which has this name.
fn find_register(registers: &[Register], word: &[u8]) -> Option<Register>
    requires { All IsRegister registers.now }
    ensures named { result ≡ named_register registers.now word.now }
    ensures is_register { IfSome result IsRegister }
{
    for register in registers {
        if register_name(*register).as_bytes() == word {
            return Some(*register);
        }
    }
    None
}
