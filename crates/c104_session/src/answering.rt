//! A script, read and answered line by line.
ghost use Rattle.std.specs.{Io.KnownBytes.prepend_known, Prelude.{Err, IfOk, List, ℕ, ◌≢◌}};
ghost use Rattle.{c104_script.specs.Answering.DoesScript, c104_session.specs.{Driven.driven_outcome, Lines.AreOnlyLines, TextRuns.IsDoneBy}};
ghost use Rattle.{c104_session.specs.Shown.line_outcome, c104_stream.specs.{ScriptLines.script_lines, Scripts.AnswersScript}};
ghost use Rattle.c104_stream.specs.declared.halt.Halt.TheVariants as halt;

use crate::driven::Driven;
use crate::driver::Driver;
use crate::keepers::Keeper;
use crate::session::Session;
use crate::telling::Telling;
use c104_mistakes::{Messages, tell_if_long};
use c104_script::{answer_lines, do_lines};
use c104_stream::{Ahead, Halt};
use std::alloc::Global;
use std::io::{Read, Write};

/// Answers the lines of a script as they are read. Answers are written before the script's reader is asked for
/// more, whenever there are 64 KiB of them, and at the end. Says whether the script is longer than it may
/// be; of such a script the lines that end within the first 16 MiB are answered. Where the reader fails, or when out
/// of memory, the answers to the first lines are written, each of them whole.
///
/// A message about each line that is faulty or refused, or that asks for what isn't ready, follows its answer. What is
/// answered is the same whatever takes the messages does.
#[tactic(auto, using(crate::proofs::LinesLaw::lines_law), unfolding(crate::specs::Shown::line_outcome))]
pub fn answer_script<S: Read, W: Write, M: Messages>(
    alloc: Global,
    session: &mut Session,
    ahead: &mut Ahead,
    script: &mut S,
    writer: &mut W,
    messages: &mut M,
) -> Result<bool, Halt>
    ensures answered { AnswersScript line_outcome session.old (prepend_known ahead.old (S.remaining script.old))
        (S.remaining script.new) (W.contents writer.old) (W.contents writer.new) session.new result }

    // What the lines of a script are, in words: those that are answered are computed byte by byte.
    ensures lines { (script : List ℕ) → AreOnlyLines script (script_lines script) }
{
    let mut telling = Telling::new(messages);
    let answered = answer_lines(alloc, session, ahead, script, writer, &mut telling);
    telling.end(&answered);
    answered
}

/// Does the lines of a script, as `answer_script` does, but writes no answers. Says whether the script is refused: it is too
/// long, which is told, or a line is faulty. It never fails to write.
#[tactic(auto, using(crate::proofs::TextRuns::done_by, crate::proofs::NewScripts::done_anew), unfolding(crate::specs::Shown::line_outcome))]
pub fn do_script<S: Read, M: Messages>(
    alloc: Global,
    session: &mut Session,
    script: &mut S,
    messages: &mut M,
) -> Result<bool, Halt>
    ensures done { IfOk result (λ refused. IsDoneBy session.old (S.remaining script.old) session.new refused) }
    ensures unwritten { result ≢ Err halt.CannotWrite }
{
    let mut ahead = Ahead::new(alloc)?;
    let mut telling = Telling::new(messages);
    let done = do_lines(alloc, session, &mut ahead, script, &mut telling);
    telling.end(&done);
    let is_long = done?;
    tell_if_long(is_long, telling.messages);
    Ok(is_long || session.faulty)
}

/// Does the lines of a script by a driver, as `answer_script` does, but writes no answers. Where the script is too long, that
/// is told. It never fails to write.
#[tactic(auto, using(crate::proofs::NewScripts::done_anew))]
pub(crate) fn drive_script<D: Driver + Keeper, S: Read, M: Messages>(
    alloc: Global,
    driven: &mut Driven<D>,
    script: &mut S,
    messages: &mut M,
) -> Result<bool, Halt>
    ensures done { IfOk result (λ is_long.
        DoesScript (driven_outcome D.drives) driven.old (S.remaining script.old) driven.new is_long) }
    ensures unwritten { result ≢ Err halt.CannotWrite }
{
    let mut ahead = Ahead::new(alloc)?;
    let mut telling = Telling::new(messages);
    let done = do_lines(alloc, driven, &mut ahead, script, &mut telling);
    telling.end(&done);
    if let Ok(is_long) = done {
        tell_if_long(is_long, telling.messages);
    }
    done
}
