//! What is wrong with a line `send T to U BYTES`.

use crate::script_mistakes::{AFTER_END, NO_END, NO_NUMBER, NO_TYPED, OPEN_TEXT};
use crate::words::{Mistake, has_dot, names_terminal, word_at};
use c104_plan::{Dots, Plan, find_dots, read_number};
use c104_token::read_byte;

/// The first mistake behind the receiver, from the left. None where the line names no receiver.
pub(crate) fn typed_mistake<'a>(words: &[&'a [u8]]) -> Option<Mistake<'a>> {
    let [b"send", _, b"to", _, typed @ ..] = words else {
        return None;
    };
    let mut text = None;
    let mut is_length = false;
    let mut is_over = false;
    for word in typed {
        if is_over {
            return Some(Mistake::new(AFTER_END, Some(*word)));
        }
        match *word {
            word if text.is_some() => {
                if ends_text(word) {
                    text = None;
                }
            }
            word if is_length => {
                if read_number(word).is_none() {
                    return Some(Mistake::new(NO_NUMBER, Some(word)));
                }
                is_length = false;
            }
            [b'"', rest @ ..] => {
                if !ends_text(rest) {
                    text = Some(*word);
                }
            }
            b"length" => is_length = true,
            b"eop" | b"eom" => is_over = true,
            word => {
                if read_byte(word).is_none() {
                    return Some(Mistake::new(NO_TYPED, Some(word)));
                }
            }
        }
    }
    Some(match text {
        Some(word) => Mistake::new(OPEN_TEXT, Some(word)),
        None => Mistake::new(NO_END, words.last().copied()),
    })
}

/// Whether a text ends with a word.
fn ends_text(word: &[u8]) -> bool {
    matches!(word, [.., b'"'])
}

/// The place of a line that has two dots: its first, or the receiver.
pub(crate) fn dotted_place<'a>(words: &[&'a [u8]]) -> Option<&'a [u8]> {
    match words {
        [b"send", node, b"to", receiver, ..] if !matches!(find_dots(node), Dots::Several) => {
            Some(*receiver)
        }
        _ => word_at(words, 1),
    }
}

/// The place of a line that is refused: its first, or the receiver where that is a terminal.
pub(crate) fn refused_place<'a>(words: &[&'a [u8]], plan: &Plan) -> Option<&'a [u8]> {
    match words {
        [b"send", node, b"to", receiver, ..] if names_terminal(plan, node) && !has_dot(node) => {
            Some(*receiver)
        }
        _ => word_at(words, 1),
    }
}
