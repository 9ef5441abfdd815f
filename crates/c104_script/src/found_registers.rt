//! Registers, as the debugger found them, and how they are printed.
ghost use Rattle.std.specs.Prelude.{OnOk, Some, flat_map, ◌++◌, ◌∷◌, ◌≡◌};
ghost use Rattle.c104_script.specs.Findings.{found_text, loaded_text, name_text, numbered_text, registers_text, word_text};
ghost use Rattle.c104_regs.specs.Addresses.{IsAddress, address_of};

use crate::answers::add_number;
use crate::findings::add_word;
use crate::register_names::RegisterName;
use c104_plan::Name;
use c104_regs::Address;
use c104_token::NoMemory;

/// A register that was found.
#[derive(Debug, Drop)]
pub struct FoundRegister {
    /// The name of its switch.
    pub switch: Name,
    /// Its address.
    pub addr: u16,
    /// What it reads.
    pub value: u32,
    /// What was loaded there, where it is compared with that.
    pub loaded: Option<u32>,
}

/// Registers that were found join the text: how many they are, and a line for each.
pub(crate) fn add_registers(registers: &[FoundRegister], text: &mut Vec<u8>) -> Result<(), NoMemory>
    ensures { OnOk result (text.new.items ≡ text.old.items ++ registers_text registers.now) }
{
    text.extend_from_slice(b"registers ")?;
    add_number(registers.len(), text)?;
    add_lines(registers, text)?;
    Ok(())
}

/// A line for each register joins the text.
fn add_lines(registers: &[FoundRegister], text: &mut Vec<u8>) -> Result<(), NoMemory>
    ensures { OnOk result (text.new.items ≡ text.old.items ++ flat_map found_text registers.now) }
{
    for register in registers {
        add_line(register, text)?;
    }
    Ok(())
}

/// The line of a register joins the text.
fn add_line(register: &FoundRegister, text: &mut Vec<u8>) -> Result<(), NoMemory>
    ensures { OnOk result (text.new.items ≡ text.old.items ++ found_text register.now) }
{
    text.push(b'\n')?;
    text.extend_from_slice(register.switch.as_bytes())?;
    add_name_at(register.addr, text)?;
    add_spaced(register.value, text)?;
    add_loaded(register.loaded, text)?;
    Ok(())
}

/// The name of the register at an address joins the text, behind that of its switch.
fn add_name_at(addr: u16, text: &mut Vec<u8>) -> Result<(), NoMemory>
    ensures { OnOk result (text.new.items ≡ text.old.items ++ name_text (address_of addr)) }
{
    match Address::at(addr) {
        Some(address) => add_name(address, text),
        None => Ok(()),
    }
}

/// The name of what stands at an address joins the text.
fn add_name(address: Address, text: &mut Vec<u8>) -> Result<(), NoMemory>
    requires { IsAddress address }
    ensures { OnOk result (text.new.items ≡ text.old.items ++ name_text (Some address)) }
{
    let register = RegisterName::of(address);
    add_numbered(b'.', register.link, text)?;
    text.push(b' ')?;
    text.extend_from_slice(register.name.as_bytes())?;
    add_numbered(b' ', register.row, text)?;
    Ok(())
}

/// A number joins the text behind a mark, where there is one.
fn add_numbered(mark: u8, number: Option<usize>, text: &mut Vec<u8>) -> Result<(), NoMemory>
    ensures { OnOk result (text.new.items ≡ text.old.items ++ numbered_text mark number) }
{
    if let Some(number) = number {
        text.push(mark)?;
        add_number(number, text)?;
    }
    Ok(())
}

/// A value joins the text behind a space.
fn add_spaced(value: u32, text: &mut Vec<u8>) -> Result<(), NoMemory>
    ensures { OnOk result (text.new.items ≡ text.old.items ++ 32 ∷ word_text value) }
{
    text.push(b' ')?;
    add_word(value, text)
}

/// What was loaded joins the text, where a register is compared with that.
fn add_loaded(loaded: Option<u32>, text: &mut Vec<u8>) -> Result<(), NoMemory>
    ensures { OnOk result (text.new.items ≡ text.old.items ++ loaded_text loaded) }
{
    if let Some(value) = loaded {
        text.extend_from_slice(b" loaded")?;
        add_spaced(value, text)?;
    }
    Ok(())
}
