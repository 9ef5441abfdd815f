ghost use Rattle.std.specs.Prelude.{◌≡◌, ◌<◌, ◌+◌, ◌*◌, map, nat_lt, IfOk, IfSome};
ghost use Rattle.std.specs.String.{string_bytes};
ghost use Rattle.c104_token.specs.Text.{packet_words, word_of, spelled_byte, hex_value, parse_packet, parse_words, packet_text, hex_digit, IsPacketText, TakesPacketText, ReadsBack, GivesPacketOrNoMemory};
ghost use Rattle.c104_token.specs.declared.text.TheConstants.{MAX_PACKET_BYTES};

use crate::faults::{NoMemory, TokenFault};
use crate::list::Items;
use crate::packets::Packet;
use crate::tokens::Mark;
use std::alloc::{AllocError, Global};

/// The most bytes of a packet that is read from a text, header included: a limit of this emulator.
pub const MAX_PACKET_BYTES: usize = 4096;

/// What a word of a packet's text says.
#[derive(Clone, Copy)]
enum Word {
    Byte(u8),
    End(Mark),
    Other,
}

/// Reads a packet: words parted by spaces, two hexadecimal digits of either case for each of at
/// most 4,096 bytes, and then `eop` or `eom`. The form is this emulator's.
///
/// A refusal is the first fault from the left: BadHex, TooLong at a 4,097th byte, AfterEnd at a
/// word behind the terminator, or NoEnd. NoMemory may come in place of any answer.
pub fn parse_packet(alloc: Global, text: &str) -> Result<Packet, TokenFault>
    ensures value { GivesPacketOrNoMemory result (parse_packet text.now) }
    ensures accepted { IfOk result (λ packet. IsPacketText text.now packet) }
    ensures complete { TakesPacketText text.now result }
{
    let words = cut_words(alloc, text.as_bytes())?;
    parse_words(alloc, words.as_slice())
}

/// Reads a packet whose words are cut already, as `parse_packet` does.
pub fn parse_words(alloc: Global, words: &[&[u8]]) -> Result<Packet, TokenFault>
    ensures { GivesPacketOrNoMemory result (parse_words (map (λ word. word.now) words.now)) }
{
    let mut bytes = Vec::new(alloc);
    for (place, word) in words.iter().enumerate() {
        match read_word(word) {
            Word::Byte(byte) => {
                if !has_room(bytes.len()) {
                    return Err(TokenFault::TooLong);
                }
                bytes.push(byte)?;
            }
            Word::End(mark) => {
                if place + 1 < words.len() {
                    return Err(TokenFault::AfterEnd);
                }
                return Ok(Packet {
                    bytes: Items::new(bytes),
                    mark,
                });
            }
            Word::Other => return Err(TokenFault::BadHex),
        }
    }
    Err(TokenFault::NoEnd)
}

/// Whether a packet that has this number of bytes may have one more.
fn has_room(count: usize) -> bool
    ensures { result ≡ nat_lt count MAX_PACKET_BYTES }
{
    count < MAX_PACKET_BYTES
}

/// The words of a text that spaces part.
fn cut_words<'a>(alloc: Global, text: &'a [u8]) -> Result<Vec<&'a [u8]>, AllocError>
    ensures { IfOk result (λ list. map (λ word. word.now) list.items ≡ packet_words text.now) }
{
    text.split(|byte| *byte == b' ')
        .filter(|word| !word.is_empty())
        .collect(alloc)
}

fn read_word(word: &[u8]) -> Word
    ensures { result ≡ word_of word.now }
{
    match word {
        [b'e', b'o', b'p'] => Word::End(Mark::Eop),
        [b'e', b'o', b'm'] => Word::End(Mark::Eom),
        _ => match read_byte(word) {
            Some(byte) => Word::Byte(byte),
            None => Word::Other,
        },
    }
}

/// The byte that two hexadecimal digits of either case spell, the high one first. None where the
/// word is anything else.
pub fn read_byte(word: &[u8]) -> Option<u8>
    ensures { result ≡ spelled_byte word.now }
{
    match word {
        [high, low] => match (read_digit(*high), read_digit(*low)) {
            (Some(high), Some(low)) => Some(16 * high + low),
            _ => None,
        },
        _ => None,
    }
}

/// The value of a hexadecimal digit.
fn read_digit(digit: u8) -> Option<u8>
    ensures value { result ≡ hex_value digit }
    ensures range { IfSome result (λ value. value < 16) }
{
    match digit {
        b'0'..=b'9' => Some(digit - b'0'),
        b'A'..=b'F' => Some(digit - b'A' + 10),
        b'a'..=b'f' => Some(digit - b'a' + 10),
        _ => None,
    }
}

/// Writes a packet in lower case, one space between words. `parse_packet` reads it back where it
/// has at most 4,096 bytes. It fails only out of memory.
pub fn print_packet(alloc: Global, packet: &Packet) -> Result<String, NoMemory>
    ensures text { IfOk result (λ text. string_bytes text ≡ packet_text packet.now) }
    ensures reads_back { IfOk result (λ text. ReadsBack packet.now (string_bytes text)) }
{
    let mut text = String::new(alloc);
    for byte in packet.bytes.as_bytes() {
        text.push(digit_of(byte / 16))?;
        text.push(digit_of(byte % 16))?;
        text.push(' ')?;
    }
    text.push_str(match packet.mark {
        Mark::Eop => "eop",
        Mark::Eom => "eom",
    })?;
    Ok(text)
}

/// The hexadecimal digit of a value, 0 to 15, in lower case.
pub fn digit_of(value: u8) -> char
    requires { value < 16 }
    ensures digit { result ≡ hex_digit value }
    ensures ascii { result < 128 }
{
    if value < 10 {
        char::from(b'0' + value)
    } else {
        char::from(b'a' + (value - 10))
    }
}
