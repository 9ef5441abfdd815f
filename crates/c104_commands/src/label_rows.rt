//! The labelling of a description by `row` lines.
ghost use Rattle.std.specs.{Prelude.{IfOk, false, true, ◌≡◌, ◌≢◌}, String.string_bytes};
ghost use Rattle.{c104_commands.specs.LabelRows.{IsShapedText, PrintsRows, unsayable_text}, c104_plan.specs.PlanImage.Fits};
ghost use Rattle.c104_setup.specs.Endings.{CommandRuns};

use crate::shape_lines::shaped_text;
use crate::shows::{Printed, Shows, show_description};
use c104_label::UpDownReport;
use c104_mistakes::Messages;
use c104_plan::{Image, Plan};
use c104_setup::{Setup, Status};
use c104_token::NoMemory;
use std::alloc::{AllocError, Global};
use std::io::{Read, Write};

/// What people are told of labels that `row` lines can't say.
pub(crate) const UNSAYABLE: &str = "these labels can't be said by row lines";

/// Shows the description by `row` lines of a network with its labels, or that such lines can't say them.
struct LabelRows;

impl Shows for LabelRows {
    ghost use Rattle.c104_commands.specs.LabelRows.{PrintsRows};

    ghost prints = { λ _. PrintsRows };

    fn show(&self, alloc: Global, setup: &Setup) -> Result<Printed, NoMemory> {
        let Shown { text, refused } = shown_rows(alloc, &setup.plan, &setup.image, setup.report)?;
        if refused {
            Ok(Printed::refused(text, UNSAYABLE))
        } else {
            Ok(Printed::of_labels(text))
        }
    }
}

/// Reads a description and labels its network; writes a line of its shape, a comment, and a description of the same network
/// whose `base`, `row`, `continue`, `delete` and `random` lines set all that the labels do, or that such lines can't say
/// them, or why the network isn't labelled, or the first fault of the description. Read again, what is written has the same
/// labels and the same registers, if it has at most 1 MiB.
///
/// Reading ends at 1 MiB, whatever the reader. Each error of the reader or the writer is a fault at once. People are
/// told why the description or its labels are refused, and which labels up and down were made; what is written and how it
/// ends are the same whatever takes the messages does.
pub fn label_rows_command<D: Read, W: Write, M: Messages>(
    alloc: Global,
    description: &mut D,
    writer: &mut W,
    messages: &mut M,
) -> Status
    ensures { CommandRuns PrintsRows (D.remaining description.old)
        (W.contents writer.old) (W.contents writer.new) result }
{
    show_description(alloc, &LabelRows, description, writer, messages)
}

/// What is printed of a network, and whether that refuses its labels.
#[derive(Drop)]
pub struct Shown {
    /// The text.
    pub text: String,
    /// Whether the labels are refused.
    pub refused: bool,
}

/// What `label_rows_command` prints of a network with its labels, by the root from which they were made, if it is told. The
/// only error is out of memory.
pub fn shown_rows(
    alloc: Global,
    plan: &Plan,
    image: &Image,
    report: Option<UpDownReport>,
) -> Result<Shown, NoMemory>
    requires { Fits image.now plan.now }
    ensures { IfOk result (λ shown. PrintsRows plan.now image.now (string_bytes shown.text) shown.refused) }
{
    match image.row_plan(alloc, plan)? {
        Some(rows) => sayable(alloc, plan, report, &rows),
        None => unsayable(alloc),
    }
}

/// What is printed of labels that the rows of a plan by hand say.
fn sayable(
    alloc: Global,
    plan: &Plan,
    report: Option<UpDownReport>,
    rows: &Plan,
) -> Result<Shown, NoMemory>
    ensures text { IfOk result (λ shown. IsShapedText plan.now rows.now (string_bytes shown.text)) }
    ensures refused { IfOk result (λ shown. shown.refused ≡ false) }
{
    let text = shaped_text(alloc, plan, report, rows)?;
    Ok(Shown {
        text,
        refused: false,
    })
}

/// What is printed of labels that no rows say.
fn unsayable(alloc: Global) -> Result<Shown, NoMemory>
    ensures text { IfOk result (λ shown. string_bytes shown.text ≡ unsayable_text) }
    ensures refused { IfOk result (λ shown. shown.refused ≡ true) }
{
    let text = unsayable_text(alloc)?;
    Ok(Shown {
        text,
        refused: true,
    })
}

/// The line where `row` lines can't say the labels.
pub(crate) fn unsayable_text(alloc: Global) -> Result<String, AllocError>
    ensures { IfOk result (λ text. string_bytes text ≡ unsayable_text) }
{
    format!(in alloc; "rows 1 NotSayable\n")
}
