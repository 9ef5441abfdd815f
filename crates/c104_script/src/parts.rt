//! The two parts of a text: a description, and the script that follows the line `script`.
ghost use Rattle.std.specs.Prelude.{ℕ, suc, ◌≡◌, ◌+◌, false, List, [], ◌∷◌, ◌++◌, length, map, IfOk, if◌then◌else◌};
ghost use Rattle.std.specs.Io.KnownBytes.{prepend_known};
ghost use Rattle.c104_plan.specs.TextCut.{line_words};
ghost use Rattle.c104_stream.specs.declared.reading.ReadFault.TheVariants as fault;
ghost use Rattle.c104_script.specs.Parts.{is_script_word, is_script_line, parts, parts_within, AreOnlyParts, StopsBeforeScript, TakesByte, TakesFirstPart};

use c104_plan::{MAX_DESCRIPTION, cut_words, first_word, uncommented};
use c104_stream::{Ahead, ReadFault};
use c104_token::NoMemory;
use std::alloc::{AllocError, Global};
use std::io::Read;

/// The first part of a text, its description: what stands before the first line whose only word is
/// `script`. That line is read and left out; what follows it is the script, and is left. Where the
/// line hasn't ended within 1 MiB, what is given is one byte longer than a description may be. Where the
/// reader fails, that line hasn't ended in what it gave.
#[tactic(auto, using(crate::proofs::PartsLaw::parts_law))]
pub fn read_first_part<R: Read>(
    alloc: Global,
    ahead: &mut Ahead,
    reader: &mut R,
) -> Result<Vec<u8>, ReadFault>
    ensures taken { IfOk result (λ bytes. TakesFirstPart
        (prepend_known ahead.old (R.remaining reader.old))
        (prepend_known ahead.new (R.remaining reader.new)) bytes.items) }
    ensures stopped { result ≡ Err fault.CannotRead →
        StopsBeforeScript (prepend_known ahead.old (R.remaining reader.old)) (R.remaining reader.new) }

    // What the parts of a text are, in words: what was taken is computed byte by byte.
    ensures parted { (text : List ℕ) → AreOnlyParts text (parts text) }
{
    let mut part = FirstPart::new(alloc);
    let mut left = MAX_DESCRIPTION;
    while left > 0 {
        let Some(byte) = ahead.next_byte(reader)? else {
            return Ok(part.into_front(alloc)?);
        };
        if part.take_byte(alloc, byte)? {
            return Ok(part.front);
        }
        left -= 1;
    }
    match ahead.next_byte(reader)? {
        None => Ok(part.into_front(alloc)?),
        Some(byte) => Ok(part.into_front_with(byte)?),
    }
}

/// What was read of a text while its line `script` is looked for: the lines before, and what was read
/// of the present one.
#[derive(Drop)]
struct FirstPart {
    front: Vec<u8>,
    line: Vec<u8>,
}

impl FirstPart {
    fn new(alloc: Global) -> FirstPart
        ensures front { result.front.items ≡ [] }
        ensures line { result.line.items ≡ [] }
    {
        FirstPart {
            front: Vec::new(alloc),
            line: Vec::new(alloc),
        }
    }

    /// Takes a byte, and says whether it ended the line `script`, which isn't kept.
    fn take_byte(&mut self, alloc: Global, byte: u8) -> Result<bool, NoMemory>
        ensures steps { IfOk result (λ is_over. (left : ℕ) (text : List ℕ) →
            parts_within (suc left) self.old.front.items self.old.line.items (byte ∷ text) ≡
            (if is_over then record { description = self.new.front.items; script = text }
            else parts_within left self.new.front.items self.new.line.items text)) }
        ensures grows { IfOk result (λ is_over. is_over ≡ false →
            length self.new.front.items + length self.new.line.items ≡
            length self.old.front.items + length self.old.line.items + 1) }
        ensures reads { IfOk result (λ is_over. is_over ≡ false → TakesByte byte
            self.old.front.items self.old.line.items self.new.front.items self.new.line.items) }
    {
        if byte != b'\n' {
            self.line.push(byte)?;
            return Ok(false);
        }
        if is_script_line(alloc, self.line.as_slice())? {
            return Ok(true);
        }
        self.front.extend_from_slice(self.line.as_slice())?;
        self.front.push(b'\n')?;
        self.line.clear();
        Ok(false)
    }

    /// All that was read, where the text ends here; but not the line `script`.
    fn into_front(mut self, alloc: Global) -> Result<Vec<u8>, NoMemory>
        ensures { IfOk result (λ bytes. (left : ℕ) →
            parts_within left self.front.items self.line.items [] ≡
            record { description = bytes.items; script = [] }) }
    {
        if !is_script_line(alloc, self.line.as_slice())? {
            self.front.extend_from_slice(self.line.as_slice())?;
        }
        Ok(self.front)
    }

    /// All that was read, and one byte more.
    fn into_front_with(mut self, byte: u8) -> Result<Vec<u8>, AllocError>
        ensures { IfOk result (λ bytes. bytes.items ≡ self.front.items ++ self.line.items ++ byte ∷ []) }
    {
        self.front.extend_from_slice(self.line.as_slice())?;
        self.front.push(byte)?;
        Ok(self.front)
    }
}

/// Whether the only word of a line is `script`. A line that begins with another word, as nearly all do,
/// needs no list of its words.
#[tactic(auto, unfolding(crate::specs::Parts::is_script_line))]
fn is_script_line(alloc: Global, line: &[u8]) -> Result<bool, NoMemory>
    ensures { IfOk result (λ found. found ≡ is_script_line line.now) }
{
    let line = uncommented(line);
    if !begins_with_script(line) {
        return Ok(false);
    }
    let words = cut_words(alloc, line)?;
    Ok(is_script_word(words.as_slice()))
}

/// Whether the first word of a line is `script`.
#[tactic(auto, using(crate::proofs::FirstWord::no_word, crate::proofs::FirstWord::other_word))]
fn begins_with_script(line: &[u8]) -> bool
    ensures { result ≡ false → is_script_word (line_words line.now) ≡ false }
{
    match first_word(line) {
        Some(word) => word == b"script".as_slice(),
        None => false,
    }
}

/// Whether the only word is `script`.
fn is_script_word(words: &[&[u8]]) -> bool
    ensures { result ≡ is_script_word (map (λ word. word.now) words.now) }
{
    match words {
        [word] => *word == b"script".as_slice(),
        _ => false,
    }
}
