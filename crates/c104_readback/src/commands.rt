//! The command that reads back the labels of a description's network after a script.
ghost use Rattle.std.specs.{Prelude.{Err, IfOk, ℕ, ◌≡◌, ◌≢◌}, String.string_bytes};
ghost use Rattle.{c104_plan.specs.PlanImage.{Fits, Image as TheImage}, c104_readback.specs.ReadBacks.{AreReset, HasRanges, ReadsBack, ReadsBackOn}};
ghost use Rattle.{c104_session.specs.TextRuns.{TextEnds, WritesRun}, c104_session.specs.declared.session.Session.Session as TheSession};
ghost use Rattle.c104_setup.specs.declared.status.Status.TheVariants as status;
ghost use Rattle.c104_stream.specs.declared.halt.Halt.TheVariants as halt;

use crate::forms::Form;
use crate::registers::{blank_image, copy_registers};
use c104_label::UpDownReport;
use c104_mistakes::Messages;
use c104_plan::{Image, Plan};
use c104_session::{RunText, Session, do_script, write_run};
use c104_setup::{Setup, Status, read_setup};
use c104_stream::Halt;
use std::alloc::Global;
use std::io::{Read, Write};

/// Reads a description, and then reads a script and does its lines on the network, started with the image of its labels; at
/// the end writes what this form prints of an image whose registers are those of the switches by then, and whose labels are
/// the description's. Answers aren't written, nor what arrived. A line that is faulty is left out, and then the status is
/// Refused, as it is where the script is too long, of which the lines are done that end within 16 MiB, and where the form
/// refuses the image.
///
/// It tells people of each line that is faulty, refused or not ready, that a script is too long, and why labels are refused.
/// What is written and how it ends are the same whatever takes the messages does.
///
/// Reading ends at 1 MiB of a description and at 16 MiB of a script, whatever the reader. Each error of a reader or the
/// writer is a fault at once.
pub fn read_back_command<D: Read, S: Read, W: Write, M: Messages>(
    alloc: Global,
    form: Form,
    description: &mut D,
    script: &mut S,
    writer: &mut W,
    messages: &mut M,
) -> Status
    ensures ends { TextEnds (ReadsBack form (S.remaining script.old)) (D.remaining description.old)
        (W.contents writer.old) (W.contents writer.new) result }
    ensures of_description { result ≡ status.CannotRead 0 → script.new ≡ script.old }
{
    let Setup {
        plan,
        image,
        report,
    } = match read_setup(alloc, description, writer, messages) {
        Ok(setup) => setup,
        Err(status) => return status,
    };
    print_after(alloc, form, &plan, image, report, script, writer, messages)
}

/// The same of the network of a plan, with an image that fits it.
#[tactic(auto, using(c104_session::proofs::TextRuns::text_halts))]
fn print_after<S: Read, W: Write, M: Messages>(
    alloc: Global,
    form: Form,
    plan: &Plan,
    image: Image,
    report: Option<UpDownReport>,
    script: &mut S,
    writer: &mut W,
    messages: &mut M,
) -> Status
    requires { Fits image plan.now }
    ensures runs { WritesRun (ReadsBack form (S.remaining script.old) plan.now image)
        (W.contents writer.old) (W.contents writer.new) result }
    ensures of_script { (n : ℕ) → result ≡ status.CannotRead n → n ≡ 1 }
{
    match text_after(alloc, form, plan, image, report, script, messages) {
        Ok(printed) => write_run(printed.text.as_bytes(), printed.is_refused, writer),
        Err(halt) => Status::of_halt(halt, 1),
    }
}

/// What is printed of the network of a plan, with an image that fits it, after a script.
fn text_after<S: Read, M: Messages>(
    alloc: Global,
    form: Form,
    plan: &Plan,
    image: Image,
    report: Option<UpDownReport>,
    script: &mut S,
    messages: &mut M,
) -> Result<RunText, Halt>
    requires { Fits image plan.now }
    ensures printed { IfOk result (λ printed.
        ReadsBack form (S.remaining script.old) plan.now image (string_bytes printed.text) printed.is_refused) }
    ensures unwritten { result ≢ Err halt.CannotWrite }
{
    let mut left = blank_image(alloc, plan, &image)?;
    let mut session = Session::new(alloc, plan, image)?;
    let printed = text_of(
        alloc,
        form,
        plan,
        report,
        &mut session,
        &mut left,
        script,
        messages,
    );
    session.finish().retire();
    printed
}

/// The same of a network that is before the script's first line, and is left as it stands after the script. Its registers are
/// copied into an image of the same labels, whose switches are as after a reset.
#[tactic(auto, using(crate::proofs::ReadBacks::prints_left, crate::proofs::ReadBacks::fits_left))]
fn text_of<S: Read, M: Messages>(
    alloc: Global,
    form: Form,
    plan: &Plan,
    report: Option<UpDownReport>,
    session: &mut Session,
    left: &mut Image,
    script: &mut S,
    messages: &mut M,
) -> Result<RunText, Halt>
    requires fits { Fits left.old plan.now }
    requires reset { AreReset left.old }
    ensures printed { (image : TheImage) (from : TheSession) → HasRanges image left.old → session.old ≡ from →
        IfOk result (λ printed.
        ReadsBackOn form plan.now image from (S.remaining script.old) (string_bytes printed.text) printed.is_refused) }
    ensures unwritten { result ≢ Err halt.CannotWrite }
{
    let is_refused = do_script(alloc, session, script, messages)?;
    copy_registers(alloc, &session.net, left)?;
    let printed = form.text(alloc, plan, left, report, messages)?;
    Ok(RunText {
        text: printed.text,
        is_refused: is_refused || printed.is_refused,
    })
}
