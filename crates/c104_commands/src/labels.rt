//! The labelling of a description.
ghost use Rattle.{c104_commands.specs.ImageTexts.PrintsLabels, c104_setup.specs.Endings.CommandRuns};

use crate::images::image_text;
use crate::shows::{Printed, Shows, show_description};
use c104_mistakes::Messages;
use c104_setup::{Setup, Status};
use c104_token::NoMemory;
use std::alloc::Global;
use std::io::{Read, Write};

/// Shows the image of a network.
struct Labels;

impl Shows for Labels {
    ghost use Rattle.c104_commands.specs.ImageTexts.{PrintsLabels};

    ghost prints = { λ _. PrintsLabels };

    fn show(&self, alloc: Global, setup: &Setup) -> Result<Printed, NoMemory> {
        let text = image_text(alloc, &setup.plan, &setup.image)?;
        Ok(Printed::of_labels(text))
    }
}

/// Reads a description and labels its network; writes the labels of each terminal and what is to be set in the
/// registers of each switch, or why the network isn't labelled, or the first fault of the description.
///
/// Reading ends at 1 MiB, whatever the reader. Each error of the reader or the writer is a fault at once. People are
/// told why the description or its labels are refused, and which labels up and down were made; what is written and how it
/// ends are the same whatever takes the messages does.
pub fn label_command<D: Read, W: Write, M: Messages>(
    alloc: Global,
    description: &mut D,
    writer: &mut W,
    messages: &mut M,
) -> Status
    ensures { CommandRuns PrintsLabels (D.remaining description.old)
        (W.contents writer.old) (W.contents writer.new) result }
{
    show_description(alloc, &Labels, description, writer, messages)
}
