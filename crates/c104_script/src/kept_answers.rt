//! Answers that are kept until they are written.
ghost use Rattle.std.specs.Prelude.{MatchResult, ◌++◌};
ghost use Rattle.{c104_script.specs.Texts.shown, c104_stream.specs.{Scripts.TextStops, Writing.AppendsAndKeeps}};

use crate::answers::{Answer, add_answer};
use c104_stream::{Halt, Kept};
use std::io::Write;

/// The line of an answer, if there is one, joins what is kept; the text is where it is printed.
pub fn keep_answer<W: Write>(
    number: usize,
    answer: &Option<Answer>,
    text: &mut Vec<u8>,
    kept: &mut Kept,
    writer: &mut W,
) -> Result<(), Halt>
    ensures { MatchResult result
        (λ _. AppendsAndKeeps (W.contents writer.old) (W.contents writer.new) kept.new
        (kept.old ++ shown number answer.now))
        (λ halt. TextStops (shown number answer.now)
        (W.contents writer.old) (W.contents writer.new) kept.old kept.new halt) }
{
    text.clear();
    if let Some(answer) = answer {
        add_answer(number, answer, text)?;
    }
    kept.add(writer, text.as_slice())?;
    Ok(())
}
