//! A script, byte by byte within its limit, and answers that are kept until it is read on.
ghost use Rattle.std.specs.{Io.KnownBytes.prepend_known, Prelude.{IfOk, MatchResult, ◌≡◌}};
ghost use Rattle.c104_stream.specs.{Reading.GivesByte, ScriptLines.{JoinsLine, script_too_long}, Scripts.ReadStops};
ghost use Rattle.c104_stream.specs.Writing.{AppendsAndKeeps};

use crate::halt::Halt;
use crate::kept::Kept;
use crate::reading::Ahead;
use c104_token::NoMemory;
use std::io::{Read, Write};

/// The most bytes of a script: 16 MiB.
pub const MAX_SCRIPT: usize = 16_777_216;

/// The line that stands where the end would, of a script that is too long.
pub fn too_long_line() -> &'static [u8]
    ensures { result.now ≡ script_too_long }
{
    b"script too long\n"
}

/// The next byte of a script, or None at its end. What is kept is written before the reader is asked.
pub fn next_byte<S: Read, W: Write>(
    ahead: &mut Ahead,
    script: &mut S,
    kept: &mut Kept,
    writer: &mut W,
) -> Result<Option<u8>, Halt>
    ensures { MatchResult result
        (λ next. GivesByte (prepend_known ahead.old (S.remaining script.old))
        (prepend_known ahead.new (S.remaining script.new)) next ×
        AppendsAndKeeps (W.contents writer.old) (W.contents writer.new) kept.new kept.old)
        (λ halt. ReadStops (prepend_known ahead.old (S.remaining script.old)) (S.remaining script.new)
        (W.contents writer.old) (W.contents writer.new) kept.old kept.new halt) }
{
    if ahead.is_empty() {
        kept.flush(writer)?;
    }
    let next = ahead.next_byte(script)?;
    Ok(next)
}

/// A byte joins the line, and so does what is read ahead of that line, but no more than `most` bytes. Says
/// how many joined after the first. The only error is out of memory.
pub fn add_bytes(
    ahead: &mut Ahead,
    line: &mut Vec<u8>,
    byte: u8,
    most: usize,
) -> Result<usize, NoMemory>
    ensures { IfOk result (λ count. JoinsLine byte most ahead.old ahead.new line.old.items line.new.items count) }
{
    line.push(byte)?;
    let count = ahead.take_before(b'\n', most, line)?;
    Ok(count)
}
