//! A script, read and answered line by line.
ghost use Rattle.std.specs.{Io.KnownBytes.prepend_known, Prelude.{Err, IfOk, MatchResult, OnErr, OnOk, [], ◌≡◌, ◌≢◌}};
ghost use Rattle.{c104_script.specs.Answering.{DoesScript, shown_by}, c104_stream.specs.Scripts.{AnswersLine, AnswersLines as AnswersAll}};
ghost use Rattle.c104_stream.specs.{Scripts.{AnswersScript, LineStops}, Writing.{AppendsAndKeeps, AppendsPrefix}};
ghost use Rattle.c104_stream.specs.declared.halt.Halt.TheVariants as halt;

use crate::answers::Answer;
use crate::kept_answers::keep_answer;
use c104_stream::{Ahead, CannotWrite, Halt, Kept, MAX_SCRIPT, add_bytes, next_byte};
use c104_token::NoMemory;
use std::alloc::Global;
use std::io;
use std::io::{Read, Write};

/// What answers the lines of a script, one after the other. A `T` is told about them: no contract speaks of that.
pub trait AnswersLines<T> {
    ghost use Rattle.std.specs.Prelude.{IfOk, Option, ◌≡◌};
    ghost use Rattle.c104_script.specs.{Answering.LineAnswers, declared.answers.Answer.Answer as TheAnswer};

    /// What is told about a line.
    type Message: Drop;

    /// What answers a line, and the state after it.
    ghost answers: { LineAnswers Self };

    /// Does what the line of this number asks, and gives what answers it. None where it asks nothing. The only error is
    /// out of memory.
    fn answer(
        &mut self,
        alloc: Global,
        number: usize,
        line: &[u8],
        told: &mut T,
    ) -> Result<Option<Answer>, NoMemory>
        ensures { IfOk result (λ answer. ◌≡◌ {A = Option TheAnswer × Self}
            (answer, self.new) (answers self.old line.now)) };

    /// What is to be told about a line that was answered so. None where nothing is, and out of memory.
    fn message(
        &self,
        alloc: Global,
        number: usize,
        line: &[u8],
        answer: &Option<Answer>,
        told: &mut T,
    ) -> Option<Self::Message>;

    /// Tells it.
    fn tell(message: Self::Message, told: &mut T);
}

/// What a script's line is read into, and what its answer is printed into.
#[derive(Drop)]
struct Buffers {
    line: Vec<u8>,
    text: Vec<u8>,
}

/// Answers the lines of a script as they are read. Answers are written before the script's reader is asked for
/// more, whenever there are 64 KiB of them, and at the end. Says whether the script is longer than it may
/// be; of such a script the lines that end within the first 16 MiB are answered. Where the reader fails, or when out
/// of memory, the answers to the first lines are written, each of them whole.
///
/// What is told about a line follows its answer. What is answered is the same whatever is told.
pub fn answer_lines<T, A: AnswersLines<T>, S: Read, W: Write>(
    alloc: Global,
    state: &mut A,
    ahead: &mut Ahead,
    script: &mut S,
    writer: &mut W,
    told: &mut T,
) -> Result<bool, Halt>
    ensures { AnswersScript (shown_by A.answers) state.old (prepend_known ahead.old (S.remaining script.old))
        (S.remaining script.new) (W.contents writer.old) (W.contents writer.new) state.new result }
{
    let mut kept = Kept::new(alloc)?;
    let mut buffers = Buffers {
        line: Vec::new(alloc),
        text: Vec::new(alloc),
    };
    let answered = read_and_answer(
        alloc,
        state,
        ahead,
        script,
        &mut buffers,
        &mut kept,
        writer,
        told,
    );

    // Where memory ran out and the answers so far can't be written either, that is a write fault.
    kept.flush(writer)?;
    answered
}

/// Does what the lines of a script ask, as `answer_lines` does, but writes no answers. It never fails to write.
#[tactic(auto, using(crate::proofs::DoneScripts::script_done))]
pub fn do_lines<T, A: AnswersLines<T>, S: Read>(
    alloc: Global,
    state: &mut A,
    ahead: &mut Ahead,
    script: &mut S,
    told: &mut T,
) -> Result<bool, Halt>
    ensures done { IfOk result (λ is_long. DoesScript (shown_by A.answers) state.old
        (prepend_known ahead.old (S.remaining script.old)) state.new is_long) }
    ensures unwritten { result ≢ Err halt.CannotWrite }
{
    match answer_lines(alloc, state, ahead, script, &mut io::sink(), told) {
        Ok(is_long) => Ok(is_long),
        // What takes all bytes doesn't fail, but no contract says that.
        Err(Halt::CannotWrite) => Err(Halt::NoMemory),
        Err(halt) => Err(halt),
    }
}

/// Answers the lines of a script in these buffers. The last answers may be kept.
fn read_and_answer<T, A: AnswersLines<T>, S: Read, W: Write>(
    alloc: Global,
    state: &mut A,
    ahead: &mut Ahead,
    script: &mut S,
    buffers: &mut Buffers,
    kept: &mut Kept,
    writer: &mut W,
    told: &mut T,
) -> Result<bool, Halt>
    requires kept { kept.old ≡ [] }
    requires line { buffers.old.line.items ≡ [] }
    ensures { AnswersAll (shown_by A.answers) state.old (prepend_known ahead.old (S.remaining script.old))
        (S.remaining script.new) (W.contents writer.old) (W.contents writer.new) kept.new state.new result }
{
    let mut number = 1;
    let mut left = MAX_SCRIPT;
    while left > 0 {
        let Some(byte) = next_byte(ahead, script, kept, writer)? else {
            answer_line(alloc, state, number, buffers, kept, writer, told)?;
            return Ok(false);
        };
        left -= 1;
        if byte == b'\n' {
            answer_line(alloc, state, number, buffers, kept, writer, told)?;
            number += 1;
        } else {
            left -= add_bytes(ahead, &mut buffers.line, byte, left)?;
        }
    }
    match next_byte(ahead, script, kept, writer)? {
        Some(_) => Ok(true),
        None => {
            answer_line(alloc, state, number, buffers, kept, writer, told)?;
            Ok(false)
        }
    }
}

/// Does what the line in the buffers asks. The line that answers it joins what is kept, then what is to be told about it
/// is told, and the buffer is empty for the next line.
fn answer_line<T, A: AnswersLines<T>, W: Write>(
    alloc: Global,
    state: &mut A,
    number: usize,
    buffers: &mut Buffers,
    kept: &mut Kept,
    writer: &mut W,
    told: &mut T,
) -> Result<(), Halt>
    ensures answered { MatchResult result
        (λ _. AnswersLine (shown_by A.answers) state.old number buffers.old.line.items
        (W.contents writer.old) (W.contents writer.new) kept.old kept.new state.new)
        (λ halt. LineStops (shown_by A.answers) state.old number buffers.old.line.items
        (W.contents writer.old) (W.contents writer.new) kept.old kept.new halt) }
    ensures cleared { OnOk result (buffers.new.line.items ≡ []) }
{
    let Buffers { line, text } = buffers;
    answer_and_tell(
        alloc,
        state,
        number,
        line.as_slice(),
        text,
        kept,
        writer,
        told,
    )?;
    line.clear();
    Ok(())
}

/// Does what a line asks. The line that answers it joins what is kept, then what is to be told about it is told; the text
/// is where the answer is printed.
fn answer_and_tell<T, A: AnswersLines<T>, W: Write>(
    alloc: Global,
    state: &mut A,
    number: usize,
    line: &[u8],
    text: &mut Vec<u8>,
    kept: &mut Kept,
    writer: &mut W,
    told: &mut T,
) -> Result<(), Halt>
    ensures { MatchResult result
        (λ _. AnswersLine (shown_by A.answers) state.old number line.now
        (W.contents writer.old) (W.contents writer.new) kept.old kept.new state.new)
        (λ halt. LineStops (shown_by A.answers) state.old number line.now
        (W.contents writer.old) (W.contents writer.new) kept.old kept.new halt) }
{
    let answer = give_answer(alloc, state, number, line, text, kept, writer, told)?;
    tell_about(alloc, state, number, line, &answer, kept, writer, told)?;
    Ok(())
}

/// Does what a line asks, and gives what answers it. The line of that joins what is kept.
fn give_answer<T, A: AnswersLines<T>, W: Write>(
    alloc: Global,
    state: &mut A,
    number: usize,
    line: &[u8],
    text: &mut Vec<u8>,
    kept: &mut Kept,
    writer: &mut W,
    told: &mut T,
) -> Result<Option<Answer>, Halt>
    ensures { MatchResult result
        (λ _. AnswersLine (shown_by A.answers) state.old number line.now
        (W.contents writer.old) (W.contents writer.new) kept.old kept.new state.new)
        (λ halt. LineStops (shown_by A.answers) state.old number line.now
        (W.contents writer.old) (W.contents writer.new) kept.old kept.new halt) }
{
    let answer = state.answer(alloc, number, line, told)?;
    keep_answer(number, &answer, text, kept, writer)?;
    Ok(answer)
}

/// Tells what is to be told about a line that was answered so: all that is kept is written before.
fn tell_about<T, A: AnswersLines<T>, W: Write>(
    alloc: Global,
    state: &A,
    number: usize,
    line: &[u8],
    answer: &Option<Answer>,
    kept: &mut Kept,
    writer: &mut W,
    told: &mut T,
) -> Result<(), CannotWrite>
    ensures kept { OnOk result (AppendsAndKeeps (W.contents writer.old) (W.contents writer.new) kept.new kept.old) }
    ensures prefix { OnErr result (AppendsPrefix (W.contents writer.old) (W.contents writer.new) kept.old) }
    ensures empty { OnErr result (kept.new ≡ []) }
{
    let Some(message) = state.message(alloc, number, line, answer, told) else {
        return Ok(());
    };
    kept.flush(writer)?;
    A::tell(message, told);
    Ok(())
}
