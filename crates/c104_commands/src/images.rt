//! What `label` prints of an image.
ghost use Rattle.std.specs.{Prelude.{IfOk, OnOk, length, slice_get, ◌++◌, ◌≡◌}, String.string_bytes};
ghost use Rattle.c104_commands.specs.ImageTexts.{image_text, range_line, range_lines, switch_lines, value_line, value_lines};
ghost use Rattle.c104_plan.specs.PortTexts.{switch_name, terminal_name};

use c104_plan::{Image, Plan};
use c104_token::NoMemory;
use std::alloc::{AllocError, Global};

/// The lines of an image by the names of a plan: of each terminal its first label and how many it has, in decimal;
/// then of each switch the address and the value of each register that doesn't read as after a reset, in ascending
/// order of addresses, in 4 and 8 hexadecimal digits. The only error is out of memory.
pub fn image_text(alloc: Global, plan: &Plan, image: &Image) -> Result<String, NoMemory>
    ensures { IfOk result (λ text. string_bytes text ≡ image_text plan.now image.now) }
{
    let mut text = String::new(alloc);
    add_ranges(alloc, &mut text, plan, image)?;
    add_switches(alloc, &mut text, plan, image)?;
    Ok(text)
}

/// The lines of the terminals' labels join the text.
pub(crate) fn add_ranges(
    alloc: Global,
    text: &mut String,
    plan: &Plan,
    image: &Image,
) -> Result<(), AllocError>
    ensures { OnOk result (string_bytes text.new ≡
        string_bytes text.old ++ range_lines plan.now image.now (length plan.now.terminals)) }
{
    for terminal in 0..plan.terminals().len() {
        let line = range_line(alloc, plan, terminal, image.range(terminal))?;
        text.push_str(line.as_str())?;
    }
    Ok(())
}

/// The line of a terminal's labels.
fn range_line(
    alloc: Global,
    plan: &Plan,
    terminal: usize,
    range: Option<(u32, u32)>,
) -> Result<String, AllocError>
    ensures { IfOk result (λ line. string_bytes line ≡ range_line plan.now terminal range) }
{
    let Some((first, count)) = range else {
        return Ok(String::new(alloc));
    };
    let name = plan.terminal_name(terminal);
    format!(in alloc; "range {name} {first} {count}\n")
}

/// The lines of the switches' registers join the text.
fn add_switches(
    alloc: Global,
    text: &mut String,
    plan: &Plan,
    image: &Image,
) -> Result<(), AllocError>
    ensures { OnOk result (string_bytes text.new ≡
        string_bytes text.old ++ switch_lines plan.now image.now (length plan.now.switches)) }
{
    for switch in 0..plan.switches().len() {
        add_values(alloc, text, plan, image, switch)?;
    }
    Ok(())
}

/// The lines of a switch's registers join the text.
fn add_values(
    alloc: Global,
    text: &mut String,
    plan: &Plan,
    image: &Image,
    switch: usize,
) -> Result<(), AllocError>
    ensures { OnOk result (string_bytes text.new ≡ string_bytes text.old
        ++ value_lines (switch_name plan.now switch) (slice_get image.now.settings switch)) }
{
    let Some(values) = image.values(switch) else {
        return Ok(());
    };
    let name = plan.switch_name(switch);
    for value in values {
        let line = value_line(alloc, name, *value)?;
        text.push_str(line.as_str())?;
    }
    Ok(())
}

/// The line of a switch's register.
fn value_line(alloc: Global, switch: &str, value: (u16, u32)) -> Result<String, AllocError>
    ensures { IfOk result (λ line. string_bytes line ≡ value_line switch.now value) }
{
    let (address, value) = value;
    format!(in alloc; "{switch} {address:04x} {value:08x}\n")
}
