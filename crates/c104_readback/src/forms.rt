//! What is printed of a plan with an image.
ghost use Rattle.std.specs.{Prelude.IfOk, String.string_bytes};
ghost use Rattle.{c104_plan.specs.PlanImage.Fits, c104_readback.specs.ReadBacks.prints_form};

use c104_commands::{checked_text, image_text, shown_rows};
use c104_label::UpDownReport;
use c104_mistakes::Messages;
use c104_plan::{Image, Plan};
use c104_session::RunText;
use c104_token::NoMemory;
use std::alloc::Global;

/// What is printed of labels.
#[derive(Clone, Copy, Debug)]
pub enum Form {
    /// The labels of the terminals and the values of registers, as `label_command` prints them.
    Registers,
    /// A description by `row` lines, as `label_rows_command` prints it.
    Rows,
    /// Whether they are accepted, as `check_command` prints it.
    Check,
}

impl Form {
    /// What is printed of a plan with an image, by the root from which its labels were made, if it is told, and whether that
    /// refuses it.
    pub(crate) fn text<M: Messages>(
        self,
        alloc: Global,
        plan: &Plan,
        image: &Image,
        report: Option<UpDownReport>,
        messages: &mut M,
    ) -> Result<RunText, NoMemory>
        requires { Fits image.now plan.now }
        ensures { IfOk result (λ made. prints_form self plan.now image.now (string_bytes made.text) made.is_refused) }
    {
        match self {
            Form::Registers => {
                let text = image_text(alloc, plan, image)?;
                Ok(RunText {
                    text,
                    is_refused: false,
                })
            }
            Form::Rows => {
                let shown = shown_rows(alloc, plan, image, report)?;
                Ok(RunText {
                    text: shown.text,
                    is_refused: shown.refused,
                })
            }
            Form::Check => {
                let shown = checked_text(alloc, plan, image, messages)?;
                Ok(RunText {
                    text: shown.text,
                    is_refused: shown.refused,
                })
            }
        }
    }
}
