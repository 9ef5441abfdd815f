//! A description's network as a script of control commands.
ghost use Rattle.{c104_commands.specs.Boots.PrintsCommands, c104_setup.specs.Endings.CommandRuns};

use crate::boot_lines::boot_script_text;
use crate::shows::{Printed, Shows, Telling, show_description};
use c104_mistakes::Messages;
use c104_setup::{Setup, Status};
use c104_token::NoMemory;
use std::alloc::Global;
use std::io::{Read, Write};

/// Shows the script of control commands that load and start a network.
struct BootScript;

impl Shows for BootScript {
    ghost use Rattle.c104_commands.specs.Boots.{PrintsCommands};

    ghost prints = { λ _. PrintsCommands };

    fn show(&self, alloc: Global, setup: &Setup) -> Result<Printed, NoMemory> {
        let text = boot_script_text(alloc, &setup.plan, &setup.image)?;
        Ok(Printed {
            text,
            refused: false,
            telling: Telling::Labels,
        })
    }
}

/// Reads a description and labels its network; writes a script of control commands that load and start it, in the order of
/// the loader, or why the network isn't labelled, or the first fault of the description. Run on a network with the same
/// switches, the script leaves each switch started, with the same registers.
///
/// Reading ends at 1 MiB, whatever the reader. Each error of the reader or the writer is a fault at once. People are
/// told why the description or its labels are refused, and which labels up and down were made; what is written and how it
/// ends are the same whatever takes the messages does.
pub fn boot_script_command<D: Read, W: Write, M: Messages>(
    alloc: Global,
    description: &mut D,
    writer: &mut W,
    messages: &mut M,
) -> Status
    ensures { CommandRuns PrintsCommands (D.remaining description.old)
        (W.contents writer.old) (W.contents writer.new) result }
{
    show_description(alloc, &BootScript, description, writer, messages)
}
