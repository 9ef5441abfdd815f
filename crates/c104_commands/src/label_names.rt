//! The labelling of a description, with the names of registers.
ghost use Rattle.c104_commands.specs.ImageTexts.{IsOfRegister, PrintsNames};
ghost use Rattle.{c104_script.specs.RegisterNames.IsReadAs, c104_setup.specs.Endings.CommandRuns};
ghost use Rattle.std.specs.Prelude.{All, ◌≡◌};

use crate::images::add_ranges;
use crate::shows::{Printed, Shows, show_description};
use c104_mistakes::Messages;
use c104_plan::{Image, Plan};
use c104_script::RegisterName;
use c104_setup::{Setup, Status};
use c104_token::NoMemory;
use std::alloc::{AllocError, Global};
use std::io::{Read, Write};

/// Shows the image of a network with the names of registers.
struct LabelNames;

impl Shows for LabelNames {
    ghost use Rattle.c104_commands.specs.ImageTexts.{PrintsNames};

    ghost prints = { λ _. PrintsNames };

    fn show(&self, alloc: Global, setup: &Setup) -> Result<Printed, NoMemory> {
        let text = names_text(alloc, &setup.plan, &setup.image)?;
        Ok(Printed::of_labels(text))
    }
}

/// Reads a description and labels its network; writes the labels of each terminal and what is to be set in the
/// registers of each switch, each by its name, or why the network isn't labelled, or the first fault of the description.
///
/// Reading ends at 1 MiB, whatever the reader. Each error of the reader or the writer is a fault at once. People are
/// told why the description or its labels are refused, and which labels up and down were made; what is written and how it
/// ends are the same whatever takes the messages does.
pub fn label_names_command<D: Read, W: Write, M: Messages>(
    alloc: Global,
    description: &mut D,
    writer: &mut W,
    messages: &mut M,
) -> Status
    ensures { CommandRuns PrintsNames (D.remaining description.old)
        (W.contents writer.old) (W.contents writer.new) result }
{
    show_description(alloc, &LabelNames, description, writer, messages)
}

/// The lines of an image, as `image_text` makes them, but for the names of registers. The only error is out of memory.
fn names_text(alloc: Global, plan: &Plan, image: &Image) -> Result<String, NoMemory> {
    let mut text = String::new(alloc);
    add_ranges(alloc, &mut text, plan, image)?;
    for switch in 0..plan.switches().len() {
        add_values(alloc, &mut text, plan, image, switch)?;
    }
    Ok(text)
}

/// The lines of a switch's registers join the text.
fn add_values(
    alloc: Global,
    text: &mut String,
    plan: &Plan,
    image: &Image,
    switch: usize,
) -> Result<(), AllocError> {
    let Some(values) = image.values(switch) else {
        return Ok(());
    };
    add_lines(alloc, text, plan.switch_name(switch), values)
}

/// The lines of registers, by their addresses and values, join the text.
fn add_lines(
    alloc: Global,
    text: &mut String,
    switch: &str,
    values: &[(u16, u32)],
) -> Result<(), AllocError>
    requires { All IsOfRegister values.now }
{
    for value in values {
        let line = value_line(alloc, switch, NamedValue::of(*value))?;
        text.push_str(line.as_str())?;
    }
    Ok(())
}

/// The value of a register, by its name.
#[derive(Clone, Copy)]
struct NamedValue {
    register: RegisterName,
    value: u32,
}

impl NamedValue {
    /// A register's address and its value.
    fn of(value: (u16, u32)) -> Self
        requires { IsOfRegister value }
        ensures register { IsReadAs result.register.link result.register.name.now result.register.row value.0 }
        ensures value { result.value ≡ value.1 }
    {
        let (address, value) = value;
        let Some(register) = RegisterName::at(address) else {
            unreachable!()
        };
        NamedValue { register, value }
    }
}

/// The line of a switch's register: the words that stand behind `poke` to set it.
fn value_line(alloc: Global, switch: &str, named: NamedValue) -> Result<String, AllocError> {
    let NamedValue { register, value } = named;
    let RegisterName { link, name, row } = register;
    match (link, row) {
        (Some(link), Some(row)) => {
            format!(in alloc; "{switch}.{link} {name} {row} {value:08x}\n")
        }
        (Some(link), None) => format!(in alloc; "{switch}.{link} {name} {value:08x}\n"),
        (None, _) => format!(in alloc; "{switch} {name} {value:08x}\n"),
    }
}
