//! The lines of a script that hand control commands to switches.
ghost use Rattle.std.specs.Prelude.{IfOk, OnOk, flat_map, ◌++◌, ◌≡◌};
ghost use Rattle.c104_commands.specs.Boots.{command_line, commands_text, spaced_byte};

use crate::boots::{SwitchCommand, boot_commands};
use c104_control::ControlBytes;
use c104_plan::{Image, Plan};
use c104_token::{NoMemory, digit_of};
use std::alloc::{AllocError, Global};

/// The script that loads an image and starts the switches, by the names of a plan. The only error is out of memory.
pub(crate) fn boot_script_text(
    alloc: Global,
    plan: &Plan,
    image: &Image,
) -> Result<Vec<u8>, NoMemory>
    ensures { IfOk result (λ text. text.items ≡ commands_text plan.now image.now) }
{
    let commands = boot_commands(alloc, image)?;
    let mut text = Vec::new(alloc);
    add_lines(&mut text, plan, commands.as_slice())?;
    Ok(text)
}

/// The lines of commands join the text.
fn add_lines(text: &mut Vec<u8>, plan: &Plan, commands: &[SwitchCommand]) -> Result<(), AllocError>
    ensures { OnOk result (text.new.items ≡ text.old.items ++ flat_map (command_line plan.now) commands.now) }
{
    for command in commands {
        add_line(text, plan, command)?;
    }
    Ok(())
}

/// The line of a command joins the text.
fn add_line(text: &mut Vec<u8>, plan: &Plan, command: &SwitchCommand) -> Result<(), AllocError>
    ensures { OnOk result (text.new.items ≡ text.old.items ++ command_line plan.now command.now) }
{
    text.extend_from_slice(b"control ")?;
    text.extend_from_slice(plan.switch_name(command.switch).as_bytes())?;
    add_bytes(text, &command.bytes)?;
    text.push(b'\n')?;
    Ok(())
}

/// Bytes join the text, each of them behind a space, in two hexadecimal digits.
fn add_bytes(text: &mut Vec<u8>, bytes: &ControlBytes) -> Result<(), AllocError>
    ensures { OnOk result (text.new.items ≡ text.old.items ++ flat_map spaced_byte bytes.now) }
{
    for byte in bytes.as_slice() {
        text.push(b' ')?;
        text.push(digit_of(byte / 16) as u8)?;
        text.push(digit_of(byte % 16) as u8)?;
    }
    Ok(())
}
