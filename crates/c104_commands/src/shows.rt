//! What a command prints of a description's network, and what people are told of it.
//!
//! A command that prints is a [`Shows`], and [`show_description`] runs it: the description is read, what is printed is
//! written, and then people are told.
ghost use Rattle.std.specs.{Prelude.{Bool, IfOk, List, Ok, Result, false, true, ℕ, ◌≡◌}, String.string_bytes};
ghost use Rattle.c104_describe.specs.declared.faults.PlanFault.{PlanFault as ThePlanFault};
ghost use Rattle.c104_plan.specs.{PlanImage.{Fits, Image as TheImage}, Plans.Plan as ThePlan};
ghost use Rattle.c104_setup.specs.{Endings.{CommandEnds, CommandRuns}, Setups.ComesTo};

use crate::checked::tell_refusal;
use crate::reports::tell_labels;
use c104_check::CheckFault;
use c104_mistakes::{About, Messages};
use c104_setup::{Setup, Status, read_setup};
use c104_stream::write_whole;
use c104_token::NoMemory;
use std::alloc::Global;
use std::io::{Read, Write};

/// What people are told once a text is written.
#[derive(Drop)]
pub(crate) enum Telling {
    /// Nothing.
    Nothing,
    /// Which labels were made, where packets go up and down by them.
    Labels,
    /// A sentence.
    Sentence(&'static str),
    /// Where a header goes wrong.
    Refusal(CheckFault),
}

/// What is printed of a network, and whether that refuses it.
#[derive(Drop)]
pub(crate) struct Printed {
    pub(crate) text: Vec<u8>,
    pub(crate) refused: bool,
    pub(crate) telling: Telling,
}

impl Printed {
    /// What is printed of labels that were made.
    pub(crate) fn of_labels(text: String) -> Self
        ensures text { result.text.items ≡ string_bytes text }
        ensures refused { result.refused ≡ false }
    {
        Printed {
            text: text.into_bytes(),
            refused: false,
            telling: Telling::Labels,
        }
    }

    /// A line that refuses a network, and what people are told of it.
    pub(crate) fn refused(text: String, sentence: &'static str) -> Self
        ensures text { result.text.items ≡ string_bytes text }
        ensures refused { result.refused ≡ true }
    {
        Printed {
            text: text.into_bytes(),
            refused: true,
            telling: Telling::Sentence(sentence),
        }
    }
}

/// A command that prints something of a description's network.
pub(crate) trait Shows {
    /// What it prints of a plan with an image, and whether that refuses it.
    ghost prints: { Self → ThePlan → TheImage → List ℕ → Bool → Type 0 };

    /// What it prints of a network. The only error is out of memory.
    fn show(&self, alloc: Global, setup: &Setup) -> Result<Printed, NoMemory>
        requires { Fits setup.now.image setup.now.plan }
        ensures { IfOk result (λ printed. prints self.now setup.now.plan setup.now.image printed.text.items printed.refused) };
}

/// Reads a description and labels its network; writes what a command prints of it, or why the network isn't labelled, or the
/// first fault of the description.
#[tactic(auto, using(c104_setup::proofs::Refusals::runs_before))]
pub(crate) fn show_description<D: Read, W: Write, M: Messages, S: Shows>(
    alloc: Global,
    shows: &S,
    description: &mut D,
    writer: &mut W,
    messages: &mut M,
) -> Status
    ensures { CommandRuns (S.prints shows.now) (D.remaining description.old)
        (W.contents writer.old) (W.contents writer.new) result }
{
    match read_setup(alloc, description, writer, messages) {
        Ok(setup) => show_setup(alloc, shows, &setup, writer, messages),
        Err(status) => status,
    }
}

/// Writes what a command prints of a network, and tells people of it.
fn show_setup<W: Write, M: Messages, S: Shows>(
    alloc: Global,
    shows: &S,
    setup: &Setup,
    writer: &mut W,
    messages: &mut M,
) -> Status
    requires { Fits setup.now.image setup.now.plan }
    ensures { (due : Result ThePlan ThePlanFault) → ComesTo due (Ok (setup.now.plan, setup.now.image))
        → CommandEnds (S.prints shows.now) due (W.contents writer.old) (W.contents writer.new) result }
{
    let Ok(printed) = shows.show(alloc, setup) else {
        return Status::NoMemory;
    };
    let Ok(()) = write_whole(writer, printed.text.as_slice()) else {
        return Status::CannotWrite;
    };
    tell(alloc, setup, &printed.telling, messages);
    if printed.refused {
        Status::Refused
    } else {
        Status::Done
    }
}

/// Tells people of what was written.
fn tell<M: Messages>(alloc: Global, setup: &Setup, telling: &Telling, messages: &mut M)
    requires { Fits setup.now.image setup.now.plan }
{
    match telling {
        Telling::Nothing => {}
        Telling::Labels => tell_labels(alloc, setup, messages),
        Telling::Sentence(sentence) => messages.tell(About::Description, sentence),
        Telling::Refusal(fault) => tell_refusal(alloc, &setup.plan, &setup.image, fault, messages),
    }
}
