//! Commands, and their bytes.
ghost use Rattle.std.specs.Prelude.{Err, Ok, ◌↔◌, ◌≡◌};
ghost use Rattle.c104_control.specs.{Reading.read_command, Table.{IsCommand, IsUnknownCode, command_bytes}};
ghost use Rattle.c104_control.specs.declared.faults.CommandFault.TheVariants as fault;

use crate::bytes::ControlBytes;
use crate::faults::CommandFault;

/// What a switch can be told over its control link.
#[derive(Clone, Copy, Debug, PartialEq, Eq)]
pub enum Command {
    /// It is started: from then on it grants credit and moves tokens.
    Start,
    /// All that it holds is thrown away, and its registers have their first values.
    Reset,
    /// It says what it is.
    Identify,
    /// The register at this address, 0 to 0xFFFF, is read.
    CPeek(u16),
    /// The register at this address is set to this value.
    CPoke(u16, u32),
}

/// The command that these bytes are. UnknownCode where no command begins with the first byte;
/// WrongLength where the command that does has another length, and where there are no bytes.
pub fn read_command(bytes: &[u8]) -> Result<Command, CommandFault>
    ensures read { result ≡ read_command bytes.now }

    // Exactly the table's commands are read, each from its bytes.
    ensures table { (c : Command) → (result ≡ Ok c) ↔
        (IsCommand c × (command_bytes c ≡ bytes.now)) }
    ensures unknown { (result ≡ Err fault.UnknownCode) ↔ IsUnknownCode bytes.now }
{
    read(bytes)
}

fn read(bytes: &[u8]) -> Result<Command, CommandFault>
    ensures { result ≡ read_command bytes.now }
{
    match bytes {
        [0x01] => Ok(Command::Start),
        [0x02] => Ok(Command::Reset),
        [0x03] => Ok(Command::Identify),
        [0x04, low, high] => Ok(Command::CPeek(u16::from_le_bytes([*low, *high]))),
        [0x05, low, high, first, second, third, last] => {
            let addr = u16::from_le_bytes([*low, *high]);
            let value = u32::from_le_bytes([*first, *second, *third, *last]);
            Ok(Command::CPoke(addr, value))
        }
        [] | [0x01..=0x05, ..] => Err(CommandFault::WrongLength),
        _ => Err(CommandFault::UnknownCode),
    }
}

/// The bytes of a command.
pub fn write_command(command: &Command) -> ControlBytes
    ensures bytes { result ≡ command_bytes command.now }
    ensures read_back { read_command result ≡ Ok command.now }
{
    match *command {
        Command::Start => ControlBytes::new(&[0x01]),
        Command::Reset => ControlBytes::new(&[0x02]),
        Command::Identify => ControlBytes::new(&[0x03]),
        Command::CPeek(addr) => {
            let [low, high] = addr.to_le_bytes();
            ControlBytes::new(&[0x04, low, high])
        }
        Command::CPoke(addr, value) => {
            let [low, high] = addr.to_le_bytes();
            let [first, second, third, last] = value.to_le_bytes();
            ControlBytes::new(&[0x05, low, high, first, second, third, last])
        }
    }
}
