//! Runs: a description, and a script that is answered on its network.
ghost use Rattle.std.specs.{Io.KnownBytes.{IsAtEnd, prepend_known}, Prelude.{List, Ok, Result, length, ℕ, ◌≡◌, ◌≤◌}};
ghost use Rattle.c104_describe.specs.{PlanText.read_description, declared.faults.PlanFault.PlanFault as ThePlanFault};
ghost use Rattle.{c104_plan.specs.{PlanImage.Fits, Plans.Plan as ThePlan, TextCut.most_bytes}, c104_script.specs.Parts.AreOnlyParts};
ghost use Rattle.{c104_script.specs.Parts.{StopsBeforeScript, parts}, c104_session.specs.{Lines.AreOnlyLines, PrintedRuns.PrintsAllOf}};
ghost use Rattle.c104_session.specs.{PrintedRuns.{PrintsPacketsOf, PrintsSettledOf}, RunCommands.{RunsDescription, RunsParts, RunsText}};
ghost use Rattle.{c104_setup.specs.Setups.ComesTo, c104_stream.specs.ScriptLines.script_lines};
ghost use Rattle.c104_setup.specs.declared.status.Status.TheVariants as status;

use crate::runs::run_plan;
use c104_mistakes::{Behind, Messages};
use c104_plan::{Image, MAX_DESCRIPTION, Plan};
use c104_script::read_first_part;
use c104_setup::{Setup, Status, refuse, set_up};
use c104_stream::{Ahead, Halt, read_up_to};
use std::alloc::Global;
use std::io::{Read, Write};

/// Reads a description, and then reads and answers a script on its network, started with the image of
/// its labels; at the end writes what arrived. All answers are written before the script's reader is asked for
/// more: where it gives at most a line at a time, each line is answered before the next is read.
///
/// It tells people of each line that is faulty, refused or not ready, and at the end of what didn't arrive. Where a
/// person types the script, the messages also answer the questions in comments of its lines. What is written and how it
/// ends are the same whatever takes the messages does.
///
/// Reading ends at 1 MiB of a description and at 16 MiB of a script, whatever the reader. Each error
/// of a reader or a writer is a fault at once.
#[tactic(auto, using(crate::proofs::LinesLaw::lines_law, crate::proofs::PrintedRunsLaw::printed_runs, crate::proofs::PrintedRunsLaw::delivered_runs, crate::proofs::PrintedRunsLaw::settled_runs))]
pub fn run<D: Read, S: Read, W: Write, M: Messages>(
    alloc: Global,
    description: &mut D,
    script: &mut S,
    writer: &mut W,
    messages: &mut M,
) -> Status
    ensures runs { RunsParts (D.remaining description.old) (S.remaining script.old)
        (S.remaining script.new)
        (W.contents writer.old) (W.contents writer.new) result }

    // A read fault 0 is of the description, and the script's reader wasn't asked; 1 is of the script, and
    // the description was read to its end.
    ensures of_description { result ≡ status.CannotRead 0 → script.new ≡ script.old }
    ensures of_script { result ≡ status.CannotRead 1 → IsAtEnd (D.remaining description.new) }

    // What the lines of a script are, in words.
    ensures lines { (script : List ℕ) → AreOnlyLines script (script_lines script) }

    // What is printed behind the answers, of packets: lines of packets that were sent, each whole and none twice; and of all
    // that were sent to a terminal, with rounds enough, where channels do not depend on one another in a cycle, or where
    // a line behind them settles and no token is left.
    ensures packets { (text script : List ℕ) → PrintsPacketsOf text script }
    ensures all { (text script : List ℕ) → PrintsAllOf text script }
    ensures settled { (text script : List ℕ) → PrintsSettledOf text script }
{
    let text = match read_up_to(alloc, MAX_DESCRIPTION, description) {
        Ok(text) => text,
        Err(fault) => return Status::of_halt(Halt::from(fault), 0),
    };
    let Ok(mut ahead) = Ahead::new(alloc) else {
        return Status::NoMemory;
    };
    run_description(alloc, text.as_slice(), &mut ahead, script, writer, messages)
}

/// `run` of a script that comes line by line, from a program or from a person who types it.
pub fn debug_command<D: Read, S: Read, W: Write, M: Messages>(
    alloc: Global,
    description: &mut D,
    script: &mut S,
    writer: &mut W,
    messages: &mut M,
) -> Status
    ensures runs { RunsParts (D.remaining description.old) (S.remaining script.old)
        (S.remaining script.new)
        (W.contents writer.old) (W.contents writer.new) result }
    ensures of_description { result ≡ status.CannotRead 0 → script.new ≡ script.old }
    ensures of_script { result ≡ status.CannotRead 1 → IsAtEnd (D.remaining description.new) }
    ensures lines { (script : List ℕ) → AreOnlyLines script (script_lines script) }
    ensures packets { (text script : List ℕ) → PrintsPacketsOf text script }
    ensures all { (text script : List ℕ) → PrintsAllOf text script }
    ensures settled { (text script : List ℕ) → PrintsSettledOf text script }
{
    run(alloc, description, script, writer, messages)
}

/// `run` of one text: its description ends at the first line whose only word is `script`, and the
/// script follows that line. Where there is no such line the script is empty, and where it hasn't
/// ended within 1 MiB the description is too long. Messages name the lines of the text.
#[tactic(auto, using(c104_script::proofs::PartsLaw::parts_law, crate::proofs::LinesLaw::lines_law, crate::proofs::PrintedRunsLaw::printed_runs, crate::proofs::PrintedRunsLaw::delivered_runs, crate::proofs::PrintedRunsLaw::settled_runs))]
pub fn run_text<R: Read, W: Write, M: Messages>(
    alloc: Global,
    text: &mut R,
    writer: &mut W,
    messages: &mut M,
) -> Status
    ensures runs { RunsText (R.remaining text.old) (R.remaining text.new)
        (W.contents writer.old) (W.contents writer.new) result }

    // A read fault 0 is of the description: the line `script` hasn't ended in what the reader gave.
    ensures of_description { result ≡ status.CannotRead 0 →
        StopsBeforeScript (R.remaining text.old) (R.remaining text.new) }

    // What the parts of a text and the lines of a script are, in words.
    ensures parted { (text : List ℕ) → AreOnlyParts text (parts text) }
    ensures lines { (script : List ℕ) → AreOnlyLines script (script_lines script) }

    // What is printed behind the answers, of packets: lines of packets that were sent, each whole and none twice; and of all
    // that were sent to a terminal, with rounds enough, where channels do not depend on one another in a cycle, or where
    // a line behind them settles and no token is left.
    ensures packets { (text : List ℕ) → PrintsPacketsOf (parts text).description (parts text).script }
    ensures all { (text : List ℕ) → PrintsAllOf (parts text).description (parts text).script }
    ensures settled { (text : List ℕ) → PrintsSettledOf (parts text).description (parts text).script }
{
    let Ok(mut ahead) = Ahead::new(alloc) else {
        return Status::NoMemory;
    };
    let description = match read_first_part(alloc, &mut ahead, text) {
        Ok(description) => description,
        Err(fault) => return Status::of_halt(Halt::from(fault), 0),
    };
    let description = description.as_slice();
    let mut messages = Behind::first_part(description, messages);
    run_description(alloc, description, &mut ahead, text, writer, &mut messages)
}

/// Runs a script on the network of a description that is read.
#[tactic(auto, using(crate::proofs::RunRefusals::run_refused))]
fn run_description<S: Read, W: Write, M: Messages>(
    alloc: Global,
    description: &[u8],
    ahead: &mut Ahead,
    script: &mut S,
    writer: &mut W,
    messages: &mut M,
) -> Status
    ensures runs { RunsDescription (read_description description.now)
        (prepend_known ahead.old (S.remaining script.old)) (S.remaining script.new)
        (W.contents writer.old) (W.contents writer.new) result }
    ensures of_script { (n : ℕ) → result ≡ status.CannotRead n → (n ≡ 1) × (length description.now ≤ most_bytes) }
{
    match set_up(alloc, description, messages) {
        Ok(setup) => run_setup(alloc, setup, ahead, script, writer, messages),
        Err(fault) => refuse(alloc, description, fault, writer, messages),
    }
}

/// Runs a script on a network.
fn run_setup<S: Read, W: Write, M: Messages>(
    alloc: Global,
    setup: Setup,
    ahead: &mut Ahead,
    script: &mut S,
    writer: &mut W,
    messages: &mut M,
) -> Status
    requires { Fits setup.image setup.plan }
    ensures runs { (due : Result ThePlan ThePlanFault) → ComesTo due (Ok (setup.plan, setup.image))
        → RunsDescription due
        (prepend_known ahead.old (S.remaining script.old)) (S.remaining script.new)
        (W.contents writer.old) (W.contents writer.new) result }
    ensures of_script { (n : ℕ) → result ≡ status.CannotRead n → n ≡ 1 }
{
    let Setup { plan, image, .. } = setup;
    let status = run_image(alloc, &plan, image, ahead, script, writer, messages);
    drop_plan(plan);
    status
}

/// Drops a plan. A function of its own, so that all that a plan owns is dropped in one place.
fn drop_plan(_plan: Plan) {}

/// The same of a plan and an image that fits it.
fn run_image<S: Read, W: Write, M: Messages>(
    alloc: Global,
    plan: &Plan,
    image: Image,
    ahead: &mut Ahead,
    script: &mut S,
    writer: &mut W,
    messages: &mut M,
) -> Status
    requires { Fits image plan.now }
    ensures runs { (due : Result ThePlan ThePlanFault) → ComesTo due (Ok (plan.now, image))
        → RunsDescription due
        (prepend_known ahead.old (S.remaining script.old)) (S.remaining script.new)
        (W.contents writer.old) (W.contents writer.new) result }
    ensures of_script { (n : ℕ) → result ≡ status.CannotRead n → n ≡ 1 }
{
    match run_plan(alloc, plan, image, ahead, script, writer, messages) {
        Ok(false) => Status::Done,
        Ok(true) => Status::Refused,
        Err(halt) => Status::of_halt(halt, 1),
    }
}
