//! The words of a text: how it is cut into lines and words, and what a number and a name are.
ghost use Rattle.std.specs.{List.list_all, Prelude.{IfOk, IfSome, length, map, option_map, position, slice_get, ◌<◌, ◌==◌, ◌^◌, ◌≡◌}};
ghost use Rattle.c104_plan.specs.TextCut.{is_plain_line, is_printable, line_words, lines, parts_words, uncommented_line};
ghost use Rattle.c104_plan.specs.TextWords.{IsInside, dots, is_name, is_name_byte, most_digits, read_number};

use c104_token::NoMemory;
use smallvec::SmallVec;
use std::alloc::{AllocError, Global};

/// The most bytes of a name.
const MAX_NAME: usize = 32;

/// The most digits of a number.
const MAX_DIGITS: usize = 7;

/// How many dots a word has, and where a lone one stands, as in the port `A.0`.
#[derive(Clone, Copy, Debug, PartialEq, Eq)]
pub enum Dots {
    /// The word has none.
    Without,
    /// The word has one, at this place from 0.
    At(usize),
    /// The word has more.
    Several,
}

/// The lines of a text. A line feed ends a line; what follows the last one is a line too. The only
/// error is out of memory.
pub fn cut_lines<'a>(alloc: Global, text: &'a [u8]) -> Result<Vec<&'a [u8]>, NoMemory>
    ensures { IfOk result (λ list. map (λ line. line.now) list.items ≡ lines text.now) }
{
    let list = line_list(alloc, text)?;
    Ok(list)
}

/// The lines of a text.
fn line_list<'a>(alloc: Global, text: &'a [u8]) -> Result<Vec<&'a [u8]>, AllocError>
    ensures { IfOk result (λ list. map (λ line. line.now) list.items ≡ lines text.now) }
{
    text.split(|byte| *byte == b'\n').collect(alloc)
}

/// A line without its comment, which begins at the first `#`.
pub fn uncommented(line: &[u8]) -> &[u8]
    ensures { result.now ≡ uncommented_line line.now }
{
    match place_of(b'#', line) {
        Some(at) => &line[..at],
        None => line,
    }
}

/// The words of a line. Most lines have few, and these need no memory of their own.
pub type Words<'a> = SmallVec<&'a [u8], 4>;

/// The words of a line, which spaces, tabs and carriage returns part. The only error is out of memory.
pub fn cut_words<'a>(alloc: Global, line: &'a [u8]) -> Result<Words<'a>, NoMemory>
    ensures { IfOk result (λ list. map (λ word. word.now) list.items ≡ line_words line.now) }
{
    let list = word_list(alloc, line)?;
    Ok(list)
}

/// The words of a line.
fn word_list<'a>(alloc: Global, line: &'a [u8]) -> Result<Words<'a>, AllocError>
    ensures { IfOk result (λ list. map (λ word. word.now) list.items ≡ line_words line.now) }
{
    line.split(|byte| parts_words(*byte))
        .filter(|word| !word.is_empty())
        .collect(alloc)
}

/// The first word of a line. None where it has no words.
pub fn first_word(line: &[u8]) -> Option<&[u8]>
    ensures { option_map (λ word. word.now) result ≡ slice_get (line_words line.now) 0 }
{
    line.split(|byte| parts_words(*byte))
        .filter(|word| !word.is_empty())
        .next()
}

/// Whether a byte parts words.
fn parts_words(byte: u8) -> bool
    ensures { result ≡ parts_words byte }
{
    byte == b' ' || byte == b'\t' || byte == b'\r'
}

/// Whether each byte is a printable one of ASCII, 32 to 126, or parts words.
pub fn is_plain(line: &[u8]) -> bool
    ensures { result ≡ is_plain_line line.now }
{
    // Most lines have neither tabs nor carriage returns, and this is the quicker walk.
    are_printable(line)
        || line
            .iter()
            .all(|byte| is_printable(*byte) || parts_words(*byte))
}

/// Whether each byte is a printable one of ASCII.
fn are_printable(bytes: &[u8]) -> bool
    ensures { result ≡ list_all is_printable bytes.now }
{
    bytes.iter().all(|byte| is_printable(*byte))
}

/// Whether a byte is a printable one of ASCII, 32 to 126.
fn is_printable(byte: u8) -> bool
    ensures { result ≡ is_printable byte }
{
    byte >= b' ' && byte <= b'~'
}

/// The value of a number, 1 to 7 decimal digits. None for every other word.
pub fn read_number(word: &[u8]) -> Option<u32>
    ensures value { result ≡ read_number word.now }
    ensures range { IfSome result (λ value. value < 10 ^ most_digits) }
{
    if word.is_empty() || word.len() > MAX_DIGITS {
        return None;
    }
    let mut value = 0;
    for digit in word {
        if !digit.is_ascii_digit() {
            return None;
        }
        value = 10 * value + u32::from(digit - b'0');
    }
    Some(value)
}

/// Whether a word is a name: a letter, and then letters, digits, `_` and `-`, at most 32 bytes.
pub fn is_name(word: &[u8]) -> bool
    ensures { result ≡ is_name word.now }
{
    match word {
        [first, rest @ ..] => {
            first.is_ascii_alphabetic() && rest.len() < MAX_NAME && are_name_bytes(rest)
        }
        [] => false,
    }
}

/// Whether a byte may stand in a name after its first letter.
fn is_name_byte(byte: u8) -> bool
    ensures { result ≡ is_name_byte byte }
{
    byte.is_ascii_alphanumeric() || byte == b'_' || byte == b'-'
}

fn are_name_bytes(bytes: &[u8]) -> bool
    ensures { result ≡ list_all is_name_byte bytes.now }
{
    bytes.iter().all(|byte| is_name_byte(*byte))
}

/// The first place of a byte.
fn place_of(byte: u8, bytes: &[u8]) -> Option<usize>
    ensures place { result ≡ position (λ b. b == byte) bytes.now }
    ensures inside { IfSome result (λ at. at < length bytes.now) }
{
    bytes.iter().position(|b| *b == byte)
}

/// Looks for the dot that parts a node's name from a link's number, as in `A.0`.
pub fn find_dots(word: &[u8]) -> Dots
    ensures value { result ≡ dots word.now }
    ensures inside { IsInside result (length word.now) }
{
    match place_of(b'.', word) {
        None => Dots::Without,
        Some(at) if word[at + 1..].contains(&b'.') => Dots::Several,
        Some(at) => Dots::At(at),
    }
}
