//! What is told of a command that a switch refused.
ghost use Rattle.std.specs.Prelude.{◌≡◌};
ghost use Rattle.c104_mistakes.specs.Refusals.{is_refusal};

use crate::register_ranges::range_of;
use crate::script_mistakes::{BUSY, COMMAND_LENGTH, NO_COMMAND, NO_REGISTER, READ_ONLY, STARTED};
use crate::words::{Mistake, word_at};
use c104_plan::{cut_words, uncommented};
use c104_token::read_byte;
use std::alloc::Global;

/// The byte with which the reply to a refused command begins; the refusal's number follows.
const REFUSED: u8 = 0xff;

/// Whether a reply says that the command is refused.
pub fn is_refusal(reply: &[u8]) -> bool
    ensures { result ≡ is_refusal reply.now }
{
    match reply {
        [first, ..] => *first == REFUSED,
        [] => false,
    }
}

/// What is told of a line whose command a switch refused by this reply. None where it is no refusal, or when
/// out of memory.
pub fn command_message(alloc: Global, line: &[u8], reply: &[u8]) -> Option<String> {
    let words = cut_words(alloc, uncommented(line)).ok()?;
    let what = match reply {
        [REFUSED, number, ..] => command_mistake(*number, words.as_slice())?,
        _ => return None,
    };
    Mistake::new(what, None).text(alloc).ok()
}

/// What is wrong with the command of these words, by the number of its refusal.
fn command_mistake(number: u8, words: &[&[u8]]) -> Option<&'static str> {
    match number {
        1 => Some(NO_COMMAND),
        2 => Some(COMMAND_LENGTH),
        3 => Some(NO_REGISTER),
        4 => Some(READ_ONLY),
        5 => Some(range_of(offset_of(words))),
        6 => Some(BUSY),
        7 => Some(STARTED),
        _ => None,
    }
}

/// The low byte of the address in a command, which follows the command's first byte.
fn offset_of(words: &[&[u8]]) -> u8 {
    match word_at(words, 3) {
        Some(word) => read_byte(word).unwrap_or(0),
        None => 0,
    }
}
