//! A mistake, as it is told: a sentence, the word that it is about, and what may have been meant.

use c104_plan::{Dots, Plan, find_dots, is_plain, read_number};
use std::alloc::{AllocError, Global};

/// The most bytes of a word that are shown.
const SHOWN: usize = 40;

/// The last link of a switch.
pub const LAST_LINK: u32 = 31;

/// A mistake in a line.
#[derive(Clone, Copy)]
pub struct Mistake<'a> {
    /// What is wrong, or what was wanted.
    pub(crate) sentence: &'static str,
    /// The word that it is about.
    pub(crate) word: Option<&'a [u8]>,
    /// What may have been meant.
    pub(crate) near: Option<&'a [u8]>,
}

impl<'a> Mistake<'a> {
    /// A mistake about a word.
    pub fn new(sentence: &'static str, word: Option<&'a [u8]>) -> Self {
        Mistake {
            sentence,
            word,
            near: None,
        }
    }

    /// The same, with what may have been meant.
    pub fn near(self, near: Option<&'a [u8]>) -> Self {
        Mistake { near, ..self }
    }

    /// The message. The only error is out of memory.
    pub fn text(&self, alloc: Global) -> Result<String, AllocError> {
        let mut text = String::new(alloc);
        text.push_str(self.sentence)?;
        if let Some(word) = self.word {
            text.push_str(": ")?;
            add_word(&mut text, word)?;
        }
        if let Some(near) = self.near {
            text.push_str("; did you mean ")?;
            add_word(&mut text, near)?;
            text.push('?')?;
        }
        Ok(text)
    }
}

/// A word, as it is shown. The only error is out of memory.
pub(crate) fn shown_text(alloc: Global, word: &[u8]) -> Result<String, AllocError> {
    let mut text = String::new(alloc);
    add_word(&mut text, word)?;
    Ok(text)
}

/// A word joins the text, with a question mark for each byte that isn't printable. Past `SHOWN` bytes it is cut short.
fn add_word(text: &mut String, word: &[u8]) -> Result<(), AllocError> {
    for byte in &word[..word.len().min(SHOWN)] {
        text.push(shown_byte(*byte))?;
    }
    if word.len() > SHOWN {
        text.push_str("..")?;
    }
    Ok(())
}

/// A byte as it is shown.
fn shown_byte(byte: u8) -> char {
    if (33..=126).contains(&byte) {
        char::from(byte)
    } else {
        '?'
    }
}

/// The word at a place of a line, from 0.
pub(crate) fn word_at<'a>(words: &[&'a [u8]], place: usize) -> Option<&'a [u8]> {
    words.get(place).copied()
}

/// The first word with a byte that no line may have.
pub(crate) fn unplain_word<'a>(words: &[&'a [u8]]) -> Option<&'a [u8]> {
    words.iter().copied().find(|word| !is_plain(word))
}

/// Whether a word begins with the mark that some editors put before a text.
pub(crate) fn begins_with_mark(word: &[u8]) -> bool {
    matches!(word, [0xef, 0xbb, 0xbf, ..])
}

/// What stands before the dot of a word, which is all of it where it has no dot.
pub fn name_of(word: &[u8]) -> &[u8] {
    match find_dots(word) {
        Dots::At(dot) => &word[..dot],
        _ => word,
    }
}

/// Whether a word has one dot.
pub fn has_dot(word: &[u8]) -> bool {
    matches!(find_dots(word), Dots::At(_))
}

/// The number behind the dot of a word.
pub fn link_of(word: &[u8]) -> Option<u32> {
    match find_dots(word) {
        Dots::At(dot) => read_number(&word[dot + 1..]),
        _ => None,
    }
}

/// Whether a word is a number within these.
pub(crate) fn is_within(least: u32, most: u32, word: &[u8]) -> bool {
    match read_number(word) {
        Some(value) => least <= value && value <= most,
        None => false,
    }
}

/// Whether the number behind the dot of a word is a link's.
pub(crate) fn has_link(word: &[u8]) -> bool {
    match link_of(word) {
        Some(link) => link <= LAST_LINK,
        None => false,
    }
}

/// Whether a switch has the name before the dot of a word.
pub fn names_switch(plan: &Plan, word: &[u8]) -> bool {
    plan.switch_number(name_of(word)).is_some()
}

/// Whether a terminal has the name before the dot of a word.
pub fn names_terminal(plan: &Plan, word: &[u8]) -> bool {
    plan.terminal_number(name_of(word)).is_some()
}

/// A number of things of a kind, in words.
pub fn counted(alloc: Global, count: usize, kind: &str) -> Result<String, AllocError> {
    let ending = if count == 1 { "" } else { "s" };
    format!(in alloc; "{count} {kind}{ending}")
}
