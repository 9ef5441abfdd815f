//! What every command begins with: a description is read, and its network is labelled.
ghost use Rattle.std.specs.{Prelude.{Err, IfErr, IfOk, Ok, Some, false, length, true, ℕ, ◌≡◌, ◌≢◌, ◌≤◌}, String.string_bytes};
ghost use Rattle.{c104_check.specs.Routes.{IsAccepted, routes_of}, c104_describe.specs.PlanText.read_description};
ghost use Rattle.{c104_label.specs.Images.{IsImageOf, is_labelled_shape}, c104_plan.specs.{PlanImage.Fits, TextCut.most_bytes}};
ghost use Rattle.c104_setup.specs.{Endings.{EndsBefore, IsSetup}, Setups.{ComesTo, IsOutOfMemory, RefusalEnds, label_fault_text}};
ghost use Rattle.c104_setup.specs.Setups.{refused_text};
ghost use Rattle.c104_setup.specs.declared.status.Status.TheVariants as status;

use crate::status::Status;
use crate::unreached::unreached_message;
use c104_describe::{PlanFault, PlanFaultKind, description_text, read_description};
use c104_label::{LabelFault, RootWatch, UpDownReport, image_with_report};
use c104_mistakes::{About, Messages, Work, description_message};
use c104_plan::{Image, MAX_DESCRIPTION, Plan};
use c104_stream::{Halt, read_up_to, write_whole};
use c104_token::NoMemory;
use std::alloc::Global;
use std::io::{Read, Write};

/// A network with its labels: its plan, and the image of them.
#[derive(Drop)]
pub struct Setup {
    /// Switches, wires and terminals.
    pub plan: Plan,
    /// The settings of links and the terminals' ranges of labels.
    pub image: Image,
    /// Which labels were made, where packets go up and then down by them.
    pub report: Option<UpDownReport>,
}

/// Why a description gives no network with labels.
#[derive(Clone, Copy, Debug)]
pub enum SetupFault {
    /// The description is faulty.
    Description(PlanFault),
    /// Its network can't be labelled.
    Labels(LabelFault),
}

/// Messages that take how many roots were tried.
#[derive(Drop)]
struct Roots<'a, M: Messages> {
    messages: &'a mut M,
}

impl<M: Messages> RootWatch for Roots<'_, M> {
    fn roots_tried(&mut self, tried: usize, count: usize) {
        let number = |count| u32::try_from(count).unwrap_or(u32::MAX);
        self.messages
            .progress(Work::Roots, number(tried), number(count));
    }
}

/// Reads a description and labels its network. The error is the first fault of the description or of its labels, or out of
/// memory. What takes the messages is told how many roots were tried, where one is looked for.
pub fn set_up<M: Messages>(
    alloc: Global,
    description: &[u8],
    messages: &mut M,
) -> Result<Setup, SetupFault>
    ensures network { IfOk result (λ setup.
        ComesTo (read_description description.now) (Ok (setup.plan, setup.image))) }
    ensures fits { IfOk result (λ setup. Fits setup.image setup.plan) }
    ensures own { IfOk result (λ setup. IsImageOf setup.plan setup.image) }
    ensures accepted { IfOk result (λ setup. is_labelled_shape setup.plan.shape ≡ true
        → IsAccepted (routes_of setup.plan setup.image)) }
    ensures within { IfOk result (λ _. length description.now ≤ most_bytes) }
    ensures refused { IfErr result (λ why.
        (IsOutOfMemory why → ⊥) → ComesTo (read_description description.now) (Err why)) }
{
    let plan = match read_description(alloc, description) {
        Ok(plan) => plan,
        Err(fault) => return Err(SetupFault::Description(fault)),
    };
    let mut report = None;
    match image_with_report(alloc, &plan, &mut report, &mut Roots { messages }) {
        Ok(image) => Ok(Setup {
            plan,
            image,
            report,
        }),
        Err(fault) => {
            drop_plan(plan);
            Err(SetupFault::Labels(fault))
        }
    }
}

/// Reads a description and labels its network. Where that gives none, it writes why, and the error is how the
/// command ends.
///
/// Reading ends at 1 MiB, whatever the reader. Each error of the reader or the writer is a fault at once.
pub fn read_setup<D: Read, W: Write, M: Messages>(
    alloc: Global,
    description: &mut D,
    writer: &mut W,
    messages: &mut M,
) -> Result<Setup, Status>
    ensures network { IfOk result (λ setup.
        IsSetup (D.remaining description.old) (Ok (setup.plan, setup.image))) }
    ensures fits { IfOk result (λ setup. Fits setup.image setup.plan) }
    ensures own { IfOk result (λ setup. IsImageOf setup.plan setup.image) }
    ensures accepted { IfOk result (λ setup. is_labelled_shape setup.plan.shape ≡ true
        → IsAccepted (routes_of setup.plan setup.image)) }
    ensures unwritten { IfOk result (λ _. W.contents writer.old ≡ W.contents writer.new) }
    ensures refused { IfErr result (λ status. EndsBefore (D.remaining description.old)
        (W.contents writer.old) (W.contents writer.new) status) }
{
    let text = match read_up_to(alloc, MAX_DESCRIPTION, description) {
        Ok(text) => text,
        Err(fault) => return Err(Status::of_halt(Halt::from(fault), 0)),
    };
    set_up_text(alloc, text.as_slice(), writer, messages)
}

/// The same of a description that is read.
#[tactic(auto, using(crate::proofs::Refusals::ends_before))]
fn set_up_text<W: Write, M: Messages>(
    alloc: Global,
    description: &[u8],
    writer: &mut W,
    messages: &mut M,
) -> Result<Setup, Status>
    ensures network { IfOk result (λ setup.
        ComesTo (read_description description.now) (Ok (setup.plan, setup.image))) }
    ensures fits { IfOk result (λ setup. Fits setup.image setup.plan) }
    ensures own { IfOk result (λ setup. IsImageOf setup.plan setup.image) }
    ensures accepted { IfOk result (λ setup. is_labelled_shape setup.plan.shape ≡ true
        → IsAccepted (routes_of setup.plan setup.image)) }
    ensures unwritten { IfOk result (λ _. W.contents writer.old ≡ W.contents writer.new) }
    ensures refused { IfErr result (λ status. EndsBefore (Some description.now)
        (W.contents writer.old) (W.contents writer.new) status) }
{
    match set_up(alloc, description, messages) {
        Ok(setup) => Ok(setup),
        Err(fault) => Err(refuse(alloc, description, fault, writer, messages)),
    }
}

/// Drops a plan. A function of its own, so that all that a plan owns is dropped in one place.
fn drop_plan(_plan: Plan) {}

/// Writes why a description gives no network with labels, and tells people of it, which ends any command. Out of memory
/// nothing is written.
pub fn refuse<W: Write, M: Messages>(
    alloc: Global,
    description: &[u8],
    fault: SetupFault,
    writer: &mut W,
    messages: &mut M,
) -> Status
    ensures ends { RefusalEnds fault (W.contents writer.old) (W.contents writer.new) result }
    ensures of_writer { (n : ℕ) → result ≢ status.CannotRead n }
{
    if fault.is_no_memory() {
        return Status::NoMemory;
    }
    let Ok(text) = refused_text(alloc, fault) else {
        return Status::NoMemory;
    };
    let Ok(()) = write_whole(writer, text.as_bytes()) else {
        return Status::CannotWrite;
    };
    if messages.are_wanted() {
        explain(alloc, description, fault, messages);
    }
    Status::Refused
}

/// Tells people why a description gives no network with labels, where there is memory for it.
fn explain<M: Messages>(alloc: Global, description: &[u8], fault: SetupFault, messages: &mut M) {
    match fault {
        SetupFault::Description(fault) => explain_description(alloc, description, fault, messages),
        SetupFault::Labels(fault) => explain_labels(alloc, description, fault, messages),
    }
}

/// Tells people why a network can't be labelled, where there is memory for it.
fn explain_labels<M: Messages>(
    alloc: Global,
    description: &[u8],
    fault: LabelFault,
    messages: &mut M,
) {
    if fault == LabelFault::NotConnected
        && let Some(message) = unreached_message(alloc, description)
    {
        messages.tell(About::Description, message.as_str());
        return;
    }
    let Ok(message) = fault.to_string(alloc) else {
        return;
    };
    messages.tell(About::Description, message.as_str());
}

/// Tells people of a faulty description, where there is memory for it.
fn explain_description<M: Messages>(
    alloc: Global,
    description: &[u8],
    fault: PlanFault,
    messages: &mut M,
) {
    let Some(message) = description_message(alloc, description, fault) else {
        return;
    };
    let about = match fault.line {
        0 => About::Description,
        line => About::DescriptionLine(line),
    };
    messages.tell(about, message.as_str());
}

impl SetupFault {
    /// Whether this is out of memory, of which no line tells.
    fn is_no_memory(self) -> bool
        ensures told { result ≡ false → IsOutOfMemory self → ⊥ }
        ensures untold { result ≡ true → IsOutOfMemory self }
    {
        match self {
            SetupFault::Description(fault) => fault.kind == PlanFaultKind::NoMemory,
            SetupFault::Labels(fault) => fault == LabelFault::NoMemory,
        }
    }
}

/// The line that tells why a description gives no network with labels.
fn refused_text(alloc: Global, fault: SetupFault) -> Result<String, NoMemory>
    ensures { IfOk result (λ text. string_bytes text ≡ refused_text fault) }
{
    match fault {
        SetupFault::Description(fault) => description_text(alloc, fault),
        SetupFault::Labels(fault) => label_fault_text(alloc, fault),
    }
}

/// The line that tells why a network can't be labelled: the fault's number and its name. The only error is out of
/// memory.
pub fn label_fault_text(alloc: Global, fault: LabelFault) -> Result<String, NoMemory>
    ensures { IfOk result (λ text. string_bytes text ≡ label_fault_text fault) }
{
    let number = fault.number();
    let name = fault.name();
    let text = format!(in alloc; "label {number} {name}\n")?;
    Ok(text)
}
