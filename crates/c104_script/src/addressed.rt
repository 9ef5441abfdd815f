//! The words of lines that name the receiver of a packet: its first label is the header.
ghost use Rattle.std.specs.Prelude.{All, IfOk, None, [], length, map, replicate, ◌++◌, ◌<◌, ◌∷◌, ◌≡◌, ◌≤◌};
ghost use Rattle.c104_script.specs.Addressed.{Reading, after, closes, first_label, header_bytes, header_words, is_undotted};
ghost use Rattle.c104_script.specs.Addressed.{length_words, mark_at, quoted, typed_word, typed_words};
ghost use Rattle.c104_script.specs.{Script.{GivesLineOrNoMemory, packet_of}, TakenWords.{TakesBytes, TakesWords}};
ghost use Rattle.{c104_plan.specs.TextWords.{dots, read_number}, c104_token.specs.Text.parse_words};

use crate::faults::LineFault;
use c104_event::EventFault;
use c104_plan::{Dots, Image, find_dots, read_number};
use c104_token::{Items, MAX_PACKET_BYTES, Mark, Packet, read_byte};
use std::alloc::{AllocError, Global};

/// How a word behind the receiver's name is read.
#[derive(Clone, Copy)]
pub(crate) enum Reading {
    /// As a byte or a terminator, the beginning of a text, or the word `length`.
    Word,
    /// As a further word of a text.
    Text,
    /// As how many bytes a length is.
    Length,
}

impl Reading {
    /// How the word behind this one is read.
    fn after(self, word: &[u8]) -> Reading
        ensures { result ≡ after self word.now }
    {
        match (self, word) {
            (Reading::Word, [b'"', text @ ..]) => reading_of_text(text),
            (Reading::Word, word) if word == b"length".as_slice() => Reading::Length,
            (Reading::Text, word) => reading_of_text(word),
            (Reading::Word | Reading::Length, _) => Reading::Word,
        }
    }
}

/// How the word behind this part of a text is read.
fn reading_of_text(text: &[u8]) -> Reading
    ensures { result ≡ after Reading.Text text.now }
{
    if closes(text) {
        Reading::Word
    } else {
        Reading::Text
    }
}

/// Whether a text ends with this word, of which its opening quote is no part.
fn closes(word: &[u8]) -> bool
    ensures { result ≡ closes word.now }
{
    match word {
        [.., last] => *last == b'"',
        [] => false,
    }
}

/// What a word says of a text: all but the quote that ends it.
fn quoted(word: &[u8]) -> &[u8]
    ensures { result.now ≡ quoted word.now }
{
    if closes(word) {
        &word[..word.len() - 1]
    } else {
        word
    }
}

/// The terminator that a word is.
fn mark_at(reading: Reading, word: &[u8]) -> Option<Mark>
    ensures { result ≡ mark_at reading word.now }
{
    match (reading, word) {
        (Reading::Word, [b'e', b'o', b'p']) => Some(Mark::Eop),
        (Reading::Word, [b'e', b'o', b'm']) => Some(Mark::Eom),
        _ => None,
    }
}

/// The first label of the receiver; 0 where there is none.
pub(crate) fn first_label(image: &Image, receiver: Result<usize, EventFault>) -> u32
    ensures value { result ≡ first_label image.now receiver }
    ensures range { result < 65536 }
{
    let Ok(receiver) = receiver else {
        return 0;
    };
    match image.range(receiver) {
        Some((first, _)) => first,
        None => 0,
    }
}

/// Whether a word has at most one dot.
pub(crate) fn is_undotted(word: &[u8]) -> bool
    ensures { result ≡ is_undotted (dots word.now) }
{
    !matches!(find_dots(word), Dots::Several)
}

/// The packet of a header of this many bytes and of words. The fault is the first from the left.
pub(crate) fn read_typed(
    alloc: Global,
    header: usize,
    label: u32,
    words: &[&[u8]],
) -> Result<Packet, LineFault>
    requires { label < 65536 }
    ensures { GivesLineOrNoMemory result (packet_of (parse_words
        (header_words header label ++ typed_words Reading.Word (map (λ word. word.now) words.now)))) }
{
    let mut bytes = header_bytes(alloc, header, label)?;
    let mut reading = Reading::Word;
    for (place, word) in words.iter().enumerate() {
        if let Some(mark) = mark_at(reading, word) {
            if place + 1 < words.len() {
                return Err(LineFault::AfterEnd);
            }
            return Ok(Packet {
                bytes: Items::new(bytes),
                mark,
            });
        }
        add_word(&mut bytes, reading, word)?;
        reading = reading.after(word);
    }
    Err(LineFault::NoEnd)
}

/// The bytes of a label as a header of one byte, or of two with the low byte first.
fn header_bytes(alloc: Global, header: usize, label: u32) -> Result<Vec<u8>, AllocError>
    requires { label < 65536 }
    ensures { IfOk result (λ bytes. bytes.items ≡ header_bytes header label) }
{
    let mut bytes = Vec::new(alloc);
    bytes.push((label % 256) as u8)?;
    if header > 1 {
        bytes.push((label / 256) as u8)?;
    }
    Ok(bytes)
}

/// What a word that is no terminator comes to joins the bytes of a packet.
fn add_word(bytes: &mut Vec<u8>, reading: Reading, word: &[u8]) -> Result<(), LineFault>
    requires none { mark_at reading word.now ≡ None }
    requires few { length bytes.old.items ≤ MAX_PACKET_BYTES }
    ensures { TakesWords (typed_word reading word.now) bytes.old.items bytes.new.items result }
{
    match (reading, word) {
        (Reading::Word, [b'"', text @ ..]) => add_bytes(bytes, quoted(text)),
        (Reading::Word, word) if word == b"length".as_slice() => Ok(()),
        (Reading::Word, word) => add_byte(bytes, word),
        (Reading::Text, word) => add_text(bytes, quoted(word)),
        (Reading::Length, word) => add_length(bytes, word),
    }
}

/// The byte that a word spells joins those of a packet.
fn add_byte(bytes: &mut Vec<u8>, word: &[u8]) -> Result<(), LineFault>
    requires none { mark_at Reading.Word word.now ≡ None }
    requires few { length bytes.old.items ≤ MAX_PACKET_BYTES }
    ensures { TakesWords (word.now ∷ []) bytes.old.items bytes.new.items result }
{
    let Some(byte) = read_byte(word) else {
        return Err(LineFault::BadHex);
    };
    add_bytes(bytes, &[byte])
}

/// A further word of a text joins the bytes of a packet, behind a space.
fn add_text(bytes: &mut Vec<u8>, text: &[u8]) -> Result<(), LineFault>
    ensures taken { TakesBytes (0x20 ∷ text.now) bytes.old.items bytes.new.items result }
    ensures small { All (λ byte. byte < 256) text.now }
{
    add_bytes(bytes, b" ")?;
    add_bytes(bytes, text)
}

/// Bytes join those of a packet.
fn add_bytes(bytes: &mut Vec<u8>, more: &[u8]) -> Result<(), LineFault>
    ensures taken { TakesBytes more.now bytes.old.items bytes.new.items result }
    ensures small { All (λ byte. byte < 256) more.now }
{
    if bytes.len() + more.len() > MAX_PACKET_BYTES {
        return Err(LineFault::PacketTooLong);
    }
    bytes.extend_from_slice(more)?;
    Ok(())
}

/// As many bytes 00 as a word says join those of a packet.
fn add_length(bytes: &mut Vec<u8>, word: &[u8]) -> Result<(), LineFault>
    requires few { length bytes.old.items ≤ MAX_PACKET_BYTES }
    ensures { TakesWords (length_words (read_number word.now)) bytes.old.items bytes.new.items result }
{
    let Some(count) = read_number(word) else {
        return Err(LineFault::BadHex);
    };
    add_zeros(bytes, count as usize)
}

/// That many bytes 00 join those of a packet.
fn add_zeros(bytes: &mut Vec<u8>, count: usize) -> Result<(), LineFault>
    requires few { length bytes.old.items ≤ MAX_PACKET_BYTES }
    ensures { TakesBytes (replicate count 0) bytes.old.items bytes.new.items result }
{
    if count > MAX_PACKET_BYTES - bytes.len() {
        return Err(LineFault::PacketTooLong);
    }
    bytes.resize(bytes.len() + count, 0)?;
    Ok(())
}
