//! A script, run on the network of a plan.
ghost use Rattle.std.specs.Io.KnownBytes.{prepend_known};
ghost use Rattle.{c104_plan.specs.PlanImage.Fits, c104_session.specs.Runs.{EndsRun, RunsPlan, WritesText, end_text}};

use crate::answering::answer_script;
use crate::ended::EndedNet;
use crate::session::{Ended, Session};
use crate::summary::summary_lines;
use crate::summary_text::write_lines;
use c104_explain::{leftover_messages, tell_leftovers};
use c104_mistakes::{Messages, tell_if_long};
use c104_plan::{Image, Plan};
use c104_stream::{Ahead, Halt, too_long_line, write_whole};
use std::alloc::Global;
use std::io::{Read, Write};

/// Runs a script on the network of a plan, started with an image that fits it: lines are answered as they are
/// read, and at the end what arrived is written. Says whether the script was refused, for its length or
/// for one of its lines. Messages are those of `answer_script`, and at the end those about what didn't
/// arrive.
pub fn run_plan<S: Read, W: Write, M: Messages>(
    alloc: Global,
    plan: &Plan,
    image: Image,
    ahead: &mut Ahead,
    script: &mut S,
    writer: &mut W,
    messages: &mut M,
) -> Result<bool, Halt>
    requires { Fits image plan.now }
    ensures { RunsPlan plan.now image
        (prepend_known ahead.old (S.remaining script.old)) (S.remaining script.new)
        (W.contents writer.old) (W.contents writer.new) result }
{
    let mut session = Session::new(alloc, plan, image)?;
    let answered = answer_script(alloc, &mut session, ahead, script, writer, messages);
    let leftovers = leftovers_of(alloc, &session, messages);
    let ended = session.finish();
    let came = end_run(alloc, answered, &ended, &leftovers, writer, messages);
    ended.retire();
    came
}

/// Ends a run whose script was answered so: writes what follows the answers, and tells what didn't arrive.
fn end_run<W: Write, M: Messages>(
    alloc: Global,
    answered: Result<bool, Halt>,
    ended: &Ended,
    leftovers: &Option<Vec<String>>,
    writer: &mut W,
    messages: &mut M,
) -> Result<bool, Halt>
    ensures { EndsRun answered ended.now (W.contents writer.old) (W.contents writer.new) result }
{
    let is_long = answered?;
    write_end(alloc, is_long, &ended.run, writer)?;
    tell_if_long(is_long, messages);
    tell_leftovers(leftovers, messages);
    Ok(is_long || ended.faulty)
}

/// Writes what follows the answers: that the script is too long, or the summary of its run.
fn write_end<W: Write>(
    alloc: Global,
    is_long: bool,
    run: &EndedNet,
    writer: &mut W,
) -> Result<(), Halt>
    ensures { WritesText (end_text is_long run.now) (W.contents writer.old) (W.contents writer.new) result }
{
    if is_long {
        write_whole(writer, too_long_line())?;
        return Ok(());
    }
    let lines = summary_lines(alloc, run)?;
    write_lines(alloc, run.plan(), lines.as_slice(), writer)
}

/// What is to be told at the end of what didn't arrive.
pub(crate) fn leftovers_of<M: Messages>(
    alloc: Global,
    session: &Session,
    messages: &M,
) -> Option<Vec<String>> {
    if !messages.are_wanted() {
        return None;
    }
    leftover_messages(alloc, &session.net)
}
